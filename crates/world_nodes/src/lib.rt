//! One lane and one node of the program stand for those of the model: each call is an action there.
#![tactic(auto)]

mod blocks;
mod event_handler;
mod frame_puts;
mod heard_frames;
mod lane_blocks;
mod lane_laws;
mod lane_lives;
mod lane_reads;
mod laws;
mod lives;
mod manager_event;
mod manager_start;
mod node_notes;
mod placings;
mod tampered_octets;

pub use blocks::take_block;
pub use event_handler::ask_if_up;
pub use frame_puts::{again, emit};
pub use heard_frames::hear;
pub use kme_store::{Manager, Post};
pub use lane_blocks::take;
pub use lane_laws::{
    law_batch_goes_on, law_block_is_made, law_entry_stays, law_lane_goes_on, law_resolved_is_made,
    law_step_goes_on,
};
pub use lane_lives::{begin, restart};
pub use lane_reads::{counts, frame};
pub use laws::{law_answered_is_handled, law_post_goes_on};
pub use lives::{arm, crash};
pub use manager_event::ask;
pub use manager_start::start;
pub use node_notes::note;
pub use placings::{order_placing, repeat_placing};
pub use tampered_octets::{flip, forge, would_match};
