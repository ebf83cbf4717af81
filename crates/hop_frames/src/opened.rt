// Opened frames.
use net_model::Payload;

/// What an opened frame carries.
#[derive(Debug, Drop)]
pub struct Opened {
    /// The offset in the lane of the first byte that masks the payload.
    pub offset: u64,
    pub payload: Payload,
}
