//! What the crates of a manager share: a decision as a value, questions to the site, and the ends of the node's links.
#![tactic(auto)]

mod change;
mod homes;
mod lanes;
mod link_end;
mod needs;
mod ports;
mod random;
mod routes;
mod step;

pub use change::Change;
pub use homes::{home, is_entitled, is_entitled_group};
pub use lanes::{outgoing_lane, outgoing_lanes, receiver, sender};
pub use link_end::LinkEnd;
pub use needs::order_need;
pub use ports::Ports;
pub use routes::route_between;
pub use step::Step;
