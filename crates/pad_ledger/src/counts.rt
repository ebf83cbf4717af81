/// The received bytes of a lane at its sender, by what became of them: each is unused, spent or burnt.
#[derive(Clone, Copy, Debug, PartialEq, Eq)]
pub struct Counts {
    pub received: u64,
    pub unused: u64,
    /// The 8 bytes of the hash key, and the bytes of claims that aren't burnt.
    pub spent: u64,
    /// The bytes that were given up, at a restart or after a claim.
    pub burnt: u64,
}
