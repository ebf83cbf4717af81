// The plan of a line, and the lanes on which it sends.

use lane_shares::Shares;
use net_model::{Order, Repeat};

/// The lanes of a network among the machines of a block. Their desks follow the `first` other machines, in order of link, the
/// lane up before the lane down. `shares` has the shares of each lane's issued bytes.
#[derive(Drop)]
pub struct Lanes<'s> {
    pub first: usize,
    pub shares: &'s [Shares],
}

/// The frames that the plan of a line sends.
#[derive(Drop)]
pub struct Plan<'p> {
    /// The place of the line in its block.
    pub line: usize,
    pub repeats: &'p [Repeat],
    pub orders: &'p [Order],
}
