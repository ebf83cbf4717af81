//! Base types: numbers of nodes, links and applications, lanes, key names, routes, lists, texts, and the out-of-memory
//! error.
#![tactic(auto)]

mod frame_octets;
mod items;
mod key_name;
mod lane;
mod link_no;
mod memory;
mod node_no;
mod pool_no;
mod replica;
mod route;
mod sae_no;
mod text;

pub use frame_octets::FrameOctets;
pub use items::{Dues, Fields, Items, Keys, Lists, Names, Octets, Saes, Texts};
pub use key_name::{KeyName, NameKind};
pub use lane::{Lane, Way, compare_lanes};
pub use link_no::LinkNo;
pub use memory::Memory;
pub use node_no::NodeNo;
pub use pool_no::PoolNo;
pub use replica::Replica;
pub use route::Route;
pub use sae_no::SaeNo;
pub use text::Text;
