//! Laws that a block of lines that many workers do is one done in order.
#![tactic(auto)]

mod emission_laws;
mod lane_work_laws;
mod work_laws;

pub use emission_laws::{
    law_claims_come_first, law_none_remains, law_order_goes_on, law_repeat_goes_on, law_turns_leave,
};
pub use lane_work_laws::{
    law_claims_have_numbers, law_deeds_are_a_log, law_each_worker_does_its_own,
    law_frames_have_octets_given, law_in_order_is_lane_works, law_lane_works_are_one_block,
    law_workers_works_are_lane_works,
};
pub use work_laws::{law_in_order_is_a_merge, law_in_order_is_one_block, law_one_works_for_many};
