//! Workers that call several machines at once: each machine has one history, a merge of what the workers ask of it.
#![tactic(auto)]

mod call;
mod caller;
mod calls;
mod either;
mod errands;
mod gates;
mod laws;
mod merge_laws;
mod pass;
mod rooms;
mod rounds;
mod rows;
mod script_calls;
mod script_pass;
mod script_rows;
mod scripts;
mod stations;
mod together;

pub use call::Call;
pub use calls::{call_left, call_right};
pub use either::Either;
pub use errands::Errands;
pub use gates::{close_all, open_all};
pub use laws::{law_left_stays_left, law_right_stays_right};
pub use merge_laws::{
    law_a_call_keeps_rising, law_calls_are_a_merge, law_merge_is_mapped,
    law_merge_is_of_what_it_is_made, law_merge_passes_as_its_parts, law_merges_count_the_same,
    law_placed_calls_are_a_merge,
};
pub use pass::{Post, Shift};
pub use rooms::Rooms;
pub use rows::{join_row, split_row};
pub use script_calls::Calls;
pub use scripts::work_scripts;
pub use together::work_together;
