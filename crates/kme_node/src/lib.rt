//! One key manager without its disk: what it keeps, what it decides on each event, and how a decision changes it.
#![tactic(auto)]

mod event_decisions;
mod event_step;
mod laws;
mod node;
mod record_replay;
mod step_effects;
mod step_memory;

pub use laws::{law_drawn_steps_apply, law_formed_batches_are_whole};
pub use node::Node;
