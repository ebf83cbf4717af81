//! The lines of a scenario, run one by one over any simulated network, with their report.
#![tactic(auto)]

mod blocks;
mod commands;
mod forged_octets;
mod frames;
mod http_lines;
mod lanes;
mod life;
mod manager_lines;
mod report;
mod requests;
mod rounds;
mod settle_rounds;
mod stop;

pub use blocks::bits;
pub use commands::command;
pub use forged_octets::forge;
pub use frames::{flip, pass};
pub use http_lines::http;
pub use life::{arm, begin, crash, set_link, start};
pub use manager_lines::{ask, ledger, tick};
pub use report::{write_item, write_items, write_some};
pub use requests::{Answer, Asked, Requests};
pub use settle_rounds::settle;
pub use stop::Stop;
