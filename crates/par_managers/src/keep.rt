// What a worker keeps from its jobs.
use crate::Turn;
use lane_shares::Share;
use par_lanes::FrameLog;
use run_ops::Turned;
use shared_objects::Shift;

/// A manager's reply to a line of a block.
#[derive(Drop)]
pub struct Replied {
    /// The node of the manager.
    pub node: usize,
    /// The place of the turn in the history of the node's manager.
    pub at: u64,
    /// The reply, with the place of its line in the block.
    pub turned: Turned,
}

/// What a worker keeps from one job to the next.
#[derive(Drop)]
pub struct Keep<'a> {
    /// The entries of its jobs that are left: for each job its call, or none.
    pub shift: Shift<Turn<'a>>,
    /// Its share of each lane, in order of the lanes' places. Between jobs, these shares have no bytes.
    pub granted: Vec<Share>,
    /// The replies to its jobs, in order. There is memory for all of them.
    pub replies: Vec<Replied>,
    /// The records of the frames that it sent, in the order of sending.
    pub log: FrameLog,
}
