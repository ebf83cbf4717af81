//! One lane at its sender, with a single owner: claims the lane's bytes, seals frames with them, and puts frames on the wire.
#![tactic(auto)]

mod claimed;
mod lane_side;
mod sent;

pub use claimed::Claimed;
pub use lane_side::LaneSide;
pub use sent::{Sent, answered};
