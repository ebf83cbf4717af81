//! Keys of pairs and of groups: fill, enc, dec and status as decisions.
#![tactic(auto)]

mod candidates;
mod drawn;
mod faults;
mod fresh_keys;
mod group_drawn;
mod group_enc;
mod group_fill;
mod group_ready;
mod handout;
mod holder;
mod pool;
mod ready;
mod routes;

pub use drawn::{law_fill_over_other_octets, random_need};
pub use faults::dec;
pub use fresh_keys::{fill, first_octets, fresh_name, octets_behind};
pub use group_drawn::law_group_fill_over_other_octets;
pub use group_enc::enc_group;
pub use group_fill::fill_group;
pub use group_ready::{group_count, ready_groups};
pub use handout::hand_out;
pub use holder::Holder;
pub use pool::GroupPool;
pub use ready::{enc, status};
