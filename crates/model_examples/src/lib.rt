//! Worked runs of the model, computed by the prover; and no law is empty.
#![tactic(auto)]

mod rows;
mod witness;

pub use rows::{
    block_rows, frame_rows, group_rows, journal_rows, key_rows, load_rows, manager_rows, part_rows,
    relay_rows, run_rows, start_rows, stream_rows, tick_rows, world_rows,
};
pub use witness::law_premises_are_met;
