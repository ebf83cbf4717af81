//! Connections over HTTP to a node's manager, the listeners that they come from, and a worker for each port.
#![tactic(auto)]

mod buffers;
mod connection;
mod connections;
mod door;
mod doors;
mod exchange;
mod managers;
mod next;
mod owed;
mod port_open;
mod port_refusal;
mod refusal;
mod request_answer;
mod response_writer;
mod served_node;
mod turn;
mod worker;
mod worker_jobs;
mod workers;

pub use connection::serve_connection;
pub use connections::Connections;
pub use door::serve_door;
pub use doors::{open_doors, shut_doors};
pub use managers::Managers;
pub use port_refusal::DoorRefusal;
pub use refusal::ServeRefusal;
pub use turn::Turn;
pub use worker::Worker;
pub use workers::serve;
