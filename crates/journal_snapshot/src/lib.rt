//! A journal on disk with checkpoints, which replace all of its batches by other ones; a crash leaves the old batches or the
//! new ones.
//! A checkpoint writes the new batches into an area beside the live one. Then one octet makes the new area the live one.
#![tactic(auto)]

mod area;
mod checkpoint;
mod laws;
mod live;
mod place;
mod snapshot_open;
mod snapshots;

pub use area::Area;
pub use laws::{
    a_doubt_stays_or_is_made, a_gate_that_is_closed_adds_nothing,
    a_new_disk_is_blank_or_has_its_head, octets_stand_for_one_list,
};
pub use live::Live;
pub use snapshot_open::open;
pub use snapshots::{SnapRefused, Snapshots};
