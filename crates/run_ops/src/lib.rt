//! What a run asks of a network: the trait, a line's events, a block's jobs, and how replies are reported.
#![tactic(auto)]

mod acts;
mod asked;
mod asked_event;
mod block_take;
mod delivery;
mod done_block;
mod frames;
mod job;
mod life;
mod plans;
mod play_laws;
mod refusals;
mod reply_report;
mod requests;
mod slaves;
mod tampered;

pub use acts::Acts;
pub use asked::Asked;
pub use asked_event::asked_by;
pub use block_take::{BlockTake, block_item};
pub use delivery::{Delivery, flipped_item, forged_item, frame_result, passed_item};
pub use done_block::{DoneBlock, PutFrame, Turned};
pub use frames::put_item;
pub use job::Job;
pub use life::{arm_item, crash_item, link_item, start_item};
pub use plans::tick_items;
pub use play_laws::{law_cut_play_ends, law_plays_follow};
pub use refusals::refusal_of;
pub use reply_report::Reporting;
pub use requests::{
    handed_item, http_item, ledger_item, made_item, ready_item, shown_item, stream_item,
};
pub use tampered::Tampered;
