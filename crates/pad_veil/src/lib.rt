//! Computes other lane bytes under which frames with other payloads are, octet for octet, the frames that were sent (one-time pad).
#![tactic(auto)]

mod exchange;
mod faults;
mod laws;
mod sealed_frame;
mod veil;
mod veil_refusal;

pub use exchange::lay_over;
pub use laws::law_every_key_fits;
pub use sealed_frame::{Sealed, SealedFrame};
pub use veil::veiled;
pub use veil_refusal::VeilRefusal;
