//! A block of lines that many workers do over the managers and lanes of a run, and the run's state with it.
#![tactic(auto)]

mod block;
mod block_desks;
mod block_workers;
mod errands;
mod manager_turn;
mod manages;
mod node_sheets;
mod order;
mod plan;
mod room;
mod rows;
mod run_state;
mod running_block;
mod stage;
mod work_laws;
mod worker_keeps;
mod worker_results;

pub use block::run_block;
pub use block_desks::{Seat, rise, sit};
pub use block_workers::work_block;
pub use errands::BlockErrands;
pub use node_sheets::{Sheet, sheets};
pub use room::Room;
pub use rows::bare_row;
pub use run_state::Running;
pub use running_block::together;
pub use stage::Stage;
pub use work_laws::law_block_has_worked;
pub use worker_results::gather;
