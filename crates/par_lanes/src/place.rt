// The place of a lane, and the name of a payload's fact.
ghost use Rattle.std.specs.Prelude.{◌≡◌, ◌<◌};
ghost use Rattle.qkd_base.specs.Lane.{lane_place};
ghost use Rattle.net_model.specs.Item.{item_name};
ghost use Rattle.net_model.specs.Tick.{item_in};

use net_model::Payload;
use qkd_base::{KeyName, Lane, Way};
use relay_core::fact_name;

/// The place of a lane among all lanes.
pub fn place_of(lane: Lane) -> usize
    ensures place { result ≡ lane_place lane }
    ensures few { result < 512 }
{
    let way = match lane.way {
        Way::Up => 0,
        Way::Down => 1,
    };
    2 * usize::from(lane.link.get()) + way
}

/// The name of the fact that a payload carries or acknowledges.
pub fn payload_name(payload: &Payload) -> KeyName
    ensures { result ≡ item_name (item_in payload.now) }
{
    match payload {
        Payload::Data(fact) => fact_name(fact),
        Payload::Ack(name) => *name,
    }
}
