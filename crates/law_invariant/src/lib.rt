//! Laws that each action keeps the invariant: of pools, decisions, windows and steps.
#![tactic(auto)]

mod decision_laws;
mod pool_laws;
mod step_laws;
mod window_laws;

pub use decision_laws::{law_events_may, law_receiving_may};
pub use pool_laws::{law_dec_only, law_enc_only, law_fill_only};
pub use step_laws::{law_first_conserved, law_one_outcome, law_run_keeps, law_step_keeps};
pub use window_laws::{
    law_acknowledge_keeps, law_acknowledged_leaves_the_window, law_cleared_keeps,
    law_cleared_leaves, law_complete_keeps, law_plan_fits, law_plan_may, law_plan_posted,
    law_plan_volatile, law_plan_wired,
};
