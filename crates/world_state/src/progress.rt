// The progress of a tick.
use net_model::Placings;
use qkd_base::Items;
use run_types::Item;

/// What a tick has reported so far, and what its node is to note of the frames that were put.
#[derive(Drop)]
pub struct Progress {
    pub items: Items<Item>,
    pub placings: Placings,
}
