//! The facts that a key manager keeps and what applications have got; bytes it no longer needs are overwritten with zeros.
#![tactic(auto)]

mod kept;
mod needs;
mod part_test;
mod record_effects;
mod show;
mod wiped_bytes;

pub use kept::Kept;
