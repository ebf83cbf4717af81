// A manager that connections ask.
ghost use Rattle.net_serve.specs.Serving.{IsServable};

use declared_site::Site;
use disk_model::Disk;
use qkd_base::NodeNo;
use source_devices::Entropy;
use std::snapshot::Snapshot;
use world_state::Post;

/// A node's manager that connections ask, one request at a time, in any order.
#[derive(Drop)]
pub struct ServedPost<K: Disk + Drop, E: Entropy + Drop> {
    /// The manager's node.
    pub node: NodeNo,
    /// Bit l says that link l is up.
    pub up: u32,
    /// The node's manager.
    pub post: Post<K, E>,
    /// The declared site.
    pub site: Snapshot<Site>,
    ghost servable: { ∥ IsServable K.Disk E.Entropy site.value node post up ∥₁ },
}
