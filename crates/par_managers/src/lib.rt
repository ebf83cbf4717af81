//! A manager that workers share: each worker's calls, and that all calls merge into one history.
#![tactic(auto)]

mod ask;
mod calls;
mod desk;
mod ends;
mod keep;
mod leases;
mod machine;
mod manager_turn;
mod next;
mod opening_shares;
mod replied;
mod talk_laws;
mod turn;

pub use ask::{PlanAnswer, PlanAsk};
pub use calls::shifts;
pub use desk::PlanDesk;
pub use keep::{Keep, Replied};
pub use leases::write_leases;
pub use manager_turn::take_turn;
pub use next::Next;
pub use opening_shares::{Opened, open_lanes};
pub use talk_laws::{law_a_worker_talks, law_workers_talk};
pub use turn::Turn;
