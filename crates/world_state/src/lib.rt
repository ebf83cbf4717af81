//! The state of a run: its managers, lanes and devices, which stand for those of a network.
#![tactic(auto)]

mod blocks;
mod frames;
mod lanes;
mod laws;
mod links;
mod lives;
mod manager_event;
mod node_start;
mod node_tick;
mod places;
mod plan_puts;
mod progress;
mod state;
mod state_reads;
mod tampered_octets;
mod wire_search;

pub use blocks::take_block;
pub use frames::{pass, seen};
pub use lanes::put_lanes;
pub use laws::{law_lane_goes_on, law_quiet_stays, law_state_goes_on, law_tallies_add};
pub use links::{set_link, with_link};
pub use lives::{arm, crash};
pub use manager_event::ask;
pub use node_start::start;
pub use node_tick::tick;
pub use places::at;
pub use plan_puts::{lease, put_order, put_repeat};
pub use progress::Progress;
pub use state::State;
pub use state_reads::{counts, is_up, lane_place, on_wire};
pub use tampered_octets::{flip, forge};
pub use world_nodes::{Post, ask_if_up, frame, note};
