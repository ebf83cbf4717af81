// A caller's right to ask.
use qkd_base::NodeNo;
use turnstile::{Machine, Seat};

/// The right to ask the manager of one node, with the calls that were made so far.
#[derive(Drop)]
pub struct Pass<M: Machine> {
    pub node: NodeNo,
    pub seat: Seat<M>,
}
