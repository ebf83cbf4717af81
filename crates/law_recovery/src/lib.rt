//! Laws that a node's view is the fold of its journal, through crashes and starts.
#![tactic(auto)]

mod fold_laws;
mod journal_laws;
mod recovery_laws;
mod start_laws;

pub use fold_laws::{
    law_asked_goes_on, law_batch_goes_on, law_doubt_fits_where_it_stops, law_events_fit,
    law_first_view_is_empty, law_received_fits, law_start_goes_on, law_view_goes_on,
    law_view_goes_on_noting, law_view_goes_on_receiving, law_view_goes_on_taking,
};
pub use journal_laws::{
    law_batch_is_given_back, law_checkpoint_gives_back, law_checkpoint_is_of_what_is_given_back,
    law_effect_is_given_back, law_empty_journal_gives_back, law_life_is_not_given_back,
    law_one_batch_more, law_started_is_given_back,
};
pub use recovery_laws::{
    law_doubts_fit, law_run_is_given_back, law_start_checkpoints_what_it_gives_back,
    law_start_goes_on_in_a_run, law_step_moves_journals,
};
pub use start_laws::{law_start_refuses, law_start_stops, law_start_succeeds};
