// The results of a block of lines.
use net_model::Reply;
use run_types::Item;

/// A manager's reply to a line of a block.
#[derive(Debug, Drop)]
pub struct Turned {
    /// The line's place in its block, from 0.
    pub place: usize,
    pub reply: Reply,
}

/// A frame that a line's tick planned, and the item that reports it.
#[derive(Debug, Drop)]
pub struct PutFrame {
    /// The line's place in its block, from 0.
    pub place: usize,
    pub item: Item,
}

/// The results of a block: all replies and all frames.
#[derive(Debug, Drop)]
pub struct DoneBlock {
    /// The managers' replies, in order of their nodes. The replies of one manager are in the order in which it gave
    /// them.
    pub turns: Vec<Turned>,
    /// The frames, lane by lane. First come those that the wire took, in order of their numbers, then those that it
    /// refused, in order of their offsets.
    pub frames: Vec<PutFrame>,
}
