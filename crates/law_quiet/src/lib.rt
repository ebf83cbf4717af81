//! Laws of quiet networks: what nobody owes has come, and four rounds without work leave nothing owed.
//!
//! Runs begin before any start here. These laws rest on more than what is conserved, as that each target has made its
//! notes, and of a later beginning that isn't said.
#![tactic(auto)]

mod awaited_laws;
mod chain_laws;
mod delivery_laws;
mod noted_laws;
mod quiet_laws;
mod rest_laws;
mod settled_laws;
mod still_laws;

pub use awaited_laws::law_quiet_awaits_nothing;
pub use chain_laws::{law_all_up_is_open, law_routes_go_over_links};
pub use delivery_laws::{law_delivered, law_delivered_is_paid, law_in_flight_is_owed};
pub use noted_laws::{law_back, law_targets_note};
pub use quiet_laws::{
    law_group_keys_are_ready, law_group_pools_are_full, law_keys_are_ready, law_pools_are_full,
    law_quiet_is_delivered,
};
pub use rest_laws::{
    law_acknowledgements_name_frames, law_four_rounds_are_a_rest, law_one_round_is_enough,
    law_one_settle_is_enough,
};
pub use settled_laws::{
    law_lines_leave_quiet, law_lines_raise_all, law_raised_and_settled_is_delivered,
    law_settled_is_delivered, law_settled_keys_are_given, law_silent_settle_is_a_round,
};
pub use still_laws::{law_flight_stays, law_older, law_still};
