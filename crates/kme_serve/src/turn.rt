use net_model::{Event, Reply};

/// A turn of a node's manager: what it was asked, and what it replied.
#[derive(Debug, Drop)]
pub struct Turn {
    pub event: Event,
    /// The turn's place in the manager's history, counted from 0.
    pub place: u64,
    pub reply: Reply,
}
