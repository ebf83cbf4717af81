//! The links of a network, and the route between two nodes: the least walk over the links that are up.
#![tactic(auto)]

mod route_refusal;
mod route_table;
mod uniqueness;

pub use route_refusal::RouteRefusal;
pub use route_table::RouteTable;
pub use uniqueness::least_walk_is_unique;
