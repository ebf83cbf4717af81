//! The bench, and what `run`, `load` and `veil` do over it. They begin with a new bench. What `Kept` says of a used one is for a process
//! over the disks of an earlier one: its state goes on where that one ended.
#![tactic(auto)]

mod bench;
mod bench_return;
mod complement;
mod differences;
mod frames;
mod generated;
mod kept_lane;
mod kept_lanes;
mod kept_laws;
mod lanes;
mod laws;
mod left;
mod line;
mod lines;
mod load;
mod out;
mod parts;
mod scenario_run;
mod state_layout;
mod unseal;
mod veil;
mod veil_laws;
mod veil_run;

pub use bench::Bench;
pub use bench_return::put_back;
pub use kept_lane::KeptLane;
pub use kept_lanes::lay_out_again;
pub use kept_laws::{law_kept_stands, law_new_is_kept};
pub use lanes::veil_lanes;
pub use laws::{
    law_asking_is_promised, law_bench_begins, law_bench_headline, law_bench_is_seen,
    law_bench_is_shown, law_disks_are_read, law_headline_stands, law_room_stays,
};
pub use left::Left;
pub use line::tell;
pub use load::run_load;
pub use out::run_out;
pub use run_lines::Stop;
pub use scenario_run::run_scenario;
pub use state_layout::lay_out;
pub use veil::{Veiled, veil_lane};
pub use veil_laws::{law_other_keys_fit, law_sent_lie_apart, law_veiled_differ_in_bytes};
pub use veil_run::run_veil;
