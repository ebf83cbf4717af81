//! A lane that workers share, and the frames of a plan that a worker sends through shared lanes.
#![tactic(auto)]

mod any_desk;
mod ask;
mod byte_grants;
mod called;
mod charter;
mod desk;
mod emitted;
mod frame_log;
mod frame_turns;
mod laws;
mod leases;
mod machine;
mod place;
mod plan;
mod plan_emission;
mod seals;
mod turns;

pub use any_desk::Desk;
pub use ask::{LaneAnswer, LaneAsk};
pub use byte_grants::grant_plan;
pub use called::law_desks_are_called_for_their_frames;
pub use charter::LaneCharter;
pub use desk::LaneDesk;
pub use emitted::Emitted;
pub use frame_log::FrameLog;
pub use laws::law_desks_lead_their_lanes;
pub use leases::law_plans_are_leased;
pub use plan::{Lanes, Plan};
pub use plan_emission::emit_plan;
pub use seals::{AtGate, Seals};
