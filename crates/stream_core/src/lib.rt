//! What a node keeps of keys and streams: the facts it knows, what applications have got, closed ends of streams, and
//! chunk counts.
#![tactic(auto)]

mod opened;
mod streams;
mod tallies;
mod tally_updates;

pub use opened::Opened;
pub use streams::{FeedPlace, Streams};
