// The state of a run.
use declared_site::Site;
use disk_model::Disk;
use lane_sender::LaneSide;
use source_devices::{Device, Entropy, Wire};
use world_nodes::Post;

/// The managers, lanes and devices of a network, and which of its links are up.
#[derive(Drop)]
pub struct State<K: Disk + Drop, Q: Device + Drop, E: Entropy + Drop, X: Wire + Drop> {
    /// The declared site.
    pub site: Site,
    /// The post of each node, in order of node number.
    pub posts: Vec<Post<K, E>>,
    /// The sides of all lanes, link by link, the lane up before the lane down.
    pub lanes: Vec<LaneSide<X>>,
    /// The device of each link, in order of link number.
    pub devices: Vec<Q>,
    /// Bit l says that link l is up.
    pub up: u32,
}
