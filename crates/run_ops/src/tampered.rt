// The outcome of passing octets that may be forged.
use crate::Delivery;

/// The outcome of passing octets that need not be a frame of the network.
#[derive(Debug, Drop)]
pub enum Tampered {
    /// The receiver got the octets, or the frame or bit to be changed doesn't exist.
    Came(Delivery),
    /// The octets have a right tag, but equal no frame on the wire. The run ends.
    Matched,
}
