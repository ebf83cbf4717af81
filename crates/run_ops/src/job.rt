use net_model::Event;
use qkd_base::{Lane, NodeNo};

/// The job that a line of a block gives to a worker.
#[derive(Debug, Drop)]
pub enum Job {
    /// Nothing to do: the line is answered without a manager.
    Nothing,
    /// An event is handed to a node's manager.
    Ask { node: NodeNo, event: Event },
    /// The frame with a number on a lane's wire is passed to the lane's receiver.
    Pass { lane: Lane, number: u64 },
}
