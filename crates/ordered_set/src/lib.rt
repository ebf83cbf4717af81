//! Ordered sets of entries of five numbers each, of which indexes are made.
#![tactic(auto)]

mod entries;
mod key;

pub use entries::{Entries, Entry};
