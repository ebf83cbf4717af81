//! A manager's batches in its journal: how they are spelled, checkpoints, and what is read back after a crash.
#![tactic(auto)]

mod batch_append;
mod batch_replay;
mod batches;
mod checkpoint;
mod draft;
mod event_change;
mod facts;
mod forms;
mod frame;
mod journal_reader;
mod laws;
mod manager_recovery;
mod marks;
mod ports;
mod refusal;
mod spelled;
mod start_checkpoint;

pub use batch_append::write;
pub use batch_replay::replay;
pub use checkpoint::checkpoint_batches;
pub use draft::Draft;
pub use frame::matches;
pub use laws::law_read_back_is_formed;
pub use manager_recovery::{Recovered, recover};
pub use refusal::RecoverRefusal;
