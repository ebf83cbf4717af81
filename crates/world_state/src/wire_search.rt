// Searching a lane's wire for a frame with given octets.
ghost use Rattle.std.specs.Prelude.{◌≡◌, is_some, slice_get, true};
ghost use Rattle.declared_site.specs.SiteOf.{site_of};
ghost use Rattle.net_model.specs.World.{Network, World};
ghost use Rattle.net_model.specs.Events.{is_lane};
ghost use Rattle.net_model.specs.Frames.{octets_eq};
ghost use Rattle.world_nodes.specs.LaneStands.{IsRunning, LaneStands};
ghost use Rattle.world_nodes.specs.Tampering.{put_as};
ghost use Rattle.world_state.specs.Frames.{frame_is};
ghost use Rattle.world_state.specs.Stands.{Stands};
ghost use Rattle.world_state.specs.Outside.{outside};

use crate::State;
use crate::places::at;
use crate::state_reads::lane_place;
use disk_model::Disk;
use lane_sender::LaneSide;
use qkd_base::{FrameOctets, Lane};
use source_devices::{Device, Entropy, Wire};

fn are_same(octets: &[u8], other: &[u8]) -> bool
    ensures { result ≡ octets_eq octets.now other.now }
{
    octets == other
}

// Whether the frame with this number has these octets.
fn has_octets<X: Wire>(
    side: &LaneSide<X>,
    number: u64,
    octets: &[u8],
    room: &mut FrameOctets,
) -> bool
    requires ready { (net : Network) × (w : World) × IsRunning net w × LaneStands X.Wire net w side.now.lane side.now }
    ensures { (net : Network) (w : World) → IsRunning net w → LaneStands X.Wire net w side.now.lane side.now
        → result ≡ frame_is net w side.now.lane octets.now (slice_get (w.wire side.now.lane) number) }
{
    match world_nodes::frame(side, number, room) {
        None => false,
        Some(length) => are_same(&room.octets[..length], octets),
    }
}

// Whether any frame of a lane's wire has these octets.
fn any_has<X: Wire>(side: &LaneSide<X>, octets: &[u8]) -> bool
    requires ready { (net : Network) × (w : World) × IsRunning net w × LaneStands X.Wire net w side.now.lane side.now }
    ensures { (net : Network) (w : World) → IsRunning net w → LaneStands X.Wire net w side.now.lane side.now
        → result ≡ is_some (put_as net w side.now.lane octets.now) }
{
    let mut room = FrameOctets::new();
    for number in 0..side.wire().count() {
        if has_octets(side, number, octets, &mut room) {
            return true;
        }
    }
    false
}

/// Whether a frame on a lane's wire has these octets.
pub fn is_put<K: Disk + Drop, Q: Device + Drop, E: Entropy + Drop, X: Wire + Drop>(
    state: &State<K, Q, E, X>,
    lane: &Lane,
    octets: &[u8],
) -> bool
    requires lane { is_lane (site_of state.now.site) lane.now ≡ true }
    requires ready { (net : Network) × (w : World) × Stands (outside K.Disk Q.Device E.Entropy X.Wire) state.now net w }
    ensures { (net : Network) (w : World) → Stands (outside K.Disk Q.Device E.Entropy X.Wire) state.now net w → result ≡ is_some (put_as net w lane.now octets.now) }
{
    match at(&state.lanes, lane_place(*lane)) {
        None => false,
        Some(side) => any_has(side, octets),
    }
}
