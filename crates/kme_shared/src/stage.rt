// What managers and lanes are put at their desks from.
use crate::{Seat, Sheet};
use declared_site::Site;
use disk_model::Disk;
use lane_shares::{Share, Shares};
use source_devices::{Device, Entropy, Wire};

/// What managers and lanes are put at their desks from.
pub struct Stage<'a, K: Disk + Drop, Q: Device + Drop, E: Entropy + Drop, X: Wire + Drop> {
    /// The declared site.
    pub site: &'a Site,
    /// Bit l says that link l is up.
    pub up: u32,
    /// The count of issued bytes of each lane, by its place.
    pub shares: &'a [Shares],
    /// What each manager's desk holds beside the manager, in order of node.
    pub sheets: Vec<Sheet<K, Q, E, X>>,
    /// The share of each lane that has its used bytes, by its place.
    pub used: Vec<Share>,
    /// Memory for the desks.
    pub machines: Vec<Seat<'a, K, Q, E, X>>,
}
