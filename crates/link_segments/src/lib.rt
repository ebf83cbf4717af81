//! The blocks of bytes that one end of a link received, read as the link's two lanes.
#![tactic(auto)]

mod no_bits;
mod segments;
mod take_refusal;

pub use no_bits::NoBits;
pub use segments::Segments;
pub use take_refusal::TakeRefusal;
