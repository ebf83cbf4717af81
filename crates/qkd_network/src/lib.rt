//! The top call: what the words ask for is done over a bench, that of a caller or the program's own.
#![tactic(auto)]

mod call;
mod form;
mod own_bench;
mod own_call;
mod quiet;
mod serve;
mod source_scenario;
mod status;
mod veil;

pub use call::network;
pub use form::{Form, read_form};
pub use net_world::Bench;
pub use own_call::program;
pub use status::Status;
