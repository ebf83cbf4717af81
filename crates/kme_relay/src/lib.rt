//! Frames that come, and the plan of frames to send, as decisions.
#![tactic(auto)]

mod acknowledgement;
mod draft;
mod fact;
mod fronts;
mod lanes;
mod parts;
mod payload;
mod tick_plan;
mod wanted;

pub use fronts::Fronts;
pub use lanes::{block, ledger};
pub use payload::heard;
pub use tick_plan::{note, plan};
