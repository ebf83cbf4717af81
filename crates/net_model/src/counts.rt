/// The bytes of one lane at its sender: `received = unused + spent + burnt`.
#[derive(Clone, Copy, Debug, PartialEq, Eq)]
pub struct Counts4 {
    pub received: u64,
    pub unused: u64,
    /// The bytes of the hash key, and those that frames use.
    pub spent: u64,
    /// The bytes that a restart gave up.
    pub burnt: u64,
}
