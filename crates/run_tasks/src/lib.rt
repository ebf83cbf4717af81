//! All lines and blocks of a scenario, and the generated load.
#![tactic(auto)]

mod block;
mod block_report;
mod entries;
mod handed;
mod laws;
mod lines;
mod load;
mod prepared;
mod unheard;

pub use block::do_block;
pub use entries::run_entries;
pub use laws::law_load_is_reported;
pub use load::run_load;
pub use unheard::Unheard;
