//! A manager over its disk and its entropy: it acts, starts and crashes, and may be sent to another thread.
#![tactic(auto)]

mod disk_start;
mod event_handler;
mod lanes;
mod laws;
mod manager;
mod manager_state;
mod post;
mod random_octets;

pub use disk_start::recover;
pub use kme_journal::RecoverRefusal;
pub use laws::a_network_asks_as_its_managers_answer;
pub use manager::Manager;
pub use manager_state::Standing;
pub use post::Post;
