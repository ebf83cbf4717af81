// Frames whose payloads are exchanged.
use qkd_base::{Items, Octets};

/// A frame of a lane: its offset, the payload that was sealed, and another payload of the same length.
#[derive(Debug, Drop)]
pub struct SealedFrame {
    /// The offset in the lane of the first byte that masks the payload.
    pub offset: u64,
    /// The octets of the payload that was sealed.
    pub old: Octets,
    /// The octets of the other payload. There are as many.
    pub new: Octets,
}

/// Frames of one lane, in any order.
pub type Sealed = Items<SealedFrame>;
