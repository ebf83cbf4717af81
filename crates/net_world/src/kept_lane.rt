// What a process had of a lane.

/// What an earlier process had of a lane: the bytes that came, and the end up to which it might claim them.
#[derive(Debug, Drop)]
pub struct KeptLane {
    /// The blocks that the lane received, in order.
    pub blocks: Vec<[u8; 1024]>,
    /// The end up to which its bytes were leased.
    pub lease: u64,
}
