//! The ledger of a lane's bytes at its sender: claims take the bytes in order, and each byte at most once.
#![tactic(auto)]

mod counts;
mod pad_ledger;
mod pad_range;
mod short;

pub use counts::Counts;
pub use pad_ledger::PadLedger;
pub use pad_range::PadRange;
pub use short::Short;
