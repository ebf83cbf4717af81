//! The frames that a manager has sent and may send again, and the acknowledgements that it still has to send.
#![tactic(auto)]

mod arrival;
mod arrival_list;
mod awaited;
mod awaited_list;
mod catalogue;
mod due_repeats;
mod due_set;
mod edit;
mod groups;
mod held;
mod held_list;
mod rooms;
mod slots;
mod window;

pub use arrival::Pending;
pub use window::Window;
