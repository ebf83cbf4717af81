//! A block of jobs that several workers do at the same time: each job exactly once, and each worker's jobs in order.
#![tactic(auto)]

mod block;
mod rooms;
mod seats;
mod work;
mod worker;

pub use block::{BlockEnd, run_block};
pub use work::Work;
