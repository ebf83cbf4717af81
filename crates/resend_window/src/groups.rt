// Index groups, made of a lane with an offset or a name. The offset or the count stands first, since it differs most
// and comparisons then end early.
ghost use Rattle.std.specs.Prelude.{◌≡◌, ◌<◌};
ghost use Rattle.qkd_base.specs.Lane.{lane_place};
ghost use Rattle.relay_core.specs.Index.{tagged};
ghost use Rattle.resend_window.specs.Groups.{offset_group, name_group, sent_group};

use crate::catalogue::Group;
use qkd_base::{KeyName, Lane, Way};
use relay_core::origin_number;

// The number of a lane among all lanes.
fn lane_place(lane: &Lane) -> u64
    ensures place { result ≡ lane_place lane.now }
    ensures small { result < 64 }
{
    let twice = 2 * u64::from(lane.link.get());
    match lane.way {
        Way::Up => twice,
        Way::Down => twice + 1,
    }
}

// One number that holds a tag and a lane.
fn tagged(tag: u8, lane: &Lane) -> u64
    ensures { result ≡ tagged tag (lane_place lane.now) }
{
    u64::from(tag) + 8 * lane_place(lane)
}

/// The group of a lane and an offset. `tag` must be below 4.
pub fn offset_group(tag: u8, lane: &Lane, offset: u64) -> Group
    ensures { result ≡ offset_group tag lane.now offset }
{
    [offset, tagged(tag, lane), 0, 0]
}

/// The group of a lane, a name and one more number.
pub fn name_group(tag: u8, lane: &Lane, name: &KeyName, more: u64) -> Group
    ensures { result ≡ name_group tag lane.now name.now more }
{
    [
        name.count(),
        tagged(tag, lane),
        u64::from(origin_number(*name)),
        more,
    ]
}

/// The group of the frames that were last sent at a tick.
pub fn sent_group(tick: u64) -> Group
    ensures { result ≡ sent_group tick }
{
    [tick, 3, 0, 0]
}
