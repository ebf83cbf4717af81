//! Seals payloads as frames of one hop and opens them: a one-time pad masks the payload, a Wegman-Carter tag protects the frame.
#![tactic(auto)]

mod frame_open;
mod frame_seal;
mod header;
mod lane_part;
mod laws;
mod mask;
mod open_refusal;
mod opened;
mod parts;

pub use frame_open::open;
pub use frame_seal::seal;
pub use laws::{frames_of_a_network, prefix_of_a_lane, sealed_is_opened};
pub use open_refusal::OpenRefusal;
pub use opened::Opened;
