//! What a key manager decides about streams: opening, joining, getting chunks, closing, and feeding (ETSI GS QKD
//! 004).
#![tactic(auto)]

mod chunk_feed;
mod chunk_handout;
mod drawn;
mod ends;
mod stream_open;
mod stream_steps;

pub use chunk_feed::feed;
pub use chunk_handout::{close_stream, get_chunk};
pub use drawn::law_feed_over_other_octets;
pub use stream_open::{join_stream, open_stream};
