// The parts of a lane that no turn changes.
use lane_shares::Shares;
use qkd_base::Lane;
use std::collections::LinkedList;

/// What no turn of a lane changes: the lane, its bytes, and the count of its issued bytes. In contracts, a `LinkedList`
/// stands for a list. No value of this type is ever made.
pub struct LaneCharter {
    pub lane: Lane,
    pub bytes: LinkedList<u8>,
    pub shares: Shares,
}
