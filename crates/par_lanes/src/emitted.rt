// The record of a frame that was sent.
use lane_sender::Sent;
use qkd_base::{KeyName, Lane};

/// A worker's record of a frame that a plan sent, and of what came of it.
#[derive(Clone, Copy, Debug)]
pub struct Emitted {
    /// The place in its block of the line with the plan.
    pub line: usize,
    /// The frame's lane.
    pub lane: Lane,
    /// The place of the frame's put in the history of its lane's desk.
    pub at: u64,
    /// The name of the fact that the frame carries or acknowledges.
    pub name: KeyName,
    /// If the frame is an acknowledgement, the offset of the frame that it answers.
    pub ack_of: Option<u64>,
    /// Whether the frame is sent for the first time.
    pub fresh: bool,
    /// The number of octets of the frame's payload.
    pub size: u16,
    /// The answer of the wire.
    pub sent: Sent,
}
