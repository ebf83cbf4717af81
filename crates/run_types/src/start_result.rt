/// The answer to a start of a manager.
#[derive(Clone, Copy, Debug, PartialEq, Eq)]
pub enum StartResult {
    Started,
    /// The manager was up already.
    WasUp,
    /// The disk failed during the start.
    Stopped,
    /// The disk holds no journal of a manager. This is the first octet that no journal has.
    Foreign { place: u64 },
    Memory,
}
