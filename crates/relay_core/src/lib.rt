//! The table of facts that a node knows and of the neighbours to whom it owes them, with an index for lookups.
#![tactic(auto)]

mod fact_parts;
mod group;
mod index_entries;
mod known;

pub use fact_parts::{fact_name, fact_route, is_secret, kind_octet};
pub use group::{Group, origin_number};
pub use known::Known;
