// The two lanes of a link.
ghost use Rattle.std.specs.Prelude.{◌≡◌};
ghost use Rattle.std.specs.Ordering.{nat_cmp};
ghost use Rattle.qkd_base.specs.Lane.{lane_place};

use crate::LinkNo;
use std::cmp::Ordering;

/// A direction on a link. `Up` goes from the node of the lower number to that of the higher, `Down` the other way.
#[derive(Clone, Copy, Debug, PartialEq, Eq, PartialOrd, Ord, Hash)]
pub enum Way {
    Up,
    Down,
}

/// One direction of a link. Each lane has link bytes and frames of its own.
#[derive(Clone, Copy, Debug, PartialEq, Eq, PartialOrd, Ord, Hash)]
pub struct Lane {
    pub link: LinkNo,
    pub way: Way,
}

/// Compares lanes by their places: link by link, Up before Down. Reports and maps use this order.
pub fn compare_lanes(lane: &Lane, other: &Lane) -> Ordering
    ensures { result ≡ nat_cmp (lane_place lane.now) (lane_place other.now) }
{
    lane.cmp(other)
}
