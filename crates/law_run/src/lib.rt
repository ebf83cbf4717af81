//! Laws of whole runs: the headline, what disks hold, the generated load, and that what was read can be run.
#![tactic(auto)]

mod course_laws;
mod fit_laws;
mod headline_laws;
mod load_laws;

pub use course_laws::{
    law_disks_of_a_course, law_fault_counts, law_faults_in_place, law_headline_of_tasks,
    law_keys_of_a_course, law_lines_are_the_whole, law_octets_left, law_reported,
    law_tasks_make_a_course,
};
pub use fit_laws::{law_load_commands_fit, law_read_commands_fit};
pub use headline_laws::{
    law_course_is_run, law_first_may_begin, law_headline_is_met, law_keys_and_bytes,
    law_tasks_are_run, law_turns_by_themselves,
};
pub use load_laws::{
    law_keys_add_up, law_lines_hand_out, law_lines_of_ledgers, law_load_lines,
    law_loads_are_of_pairs, law_masters_and_slaves, law_tasks_of_ledgers,
};
