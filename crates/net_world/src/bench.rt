// The parts of which the network of a run is made.
use disk_model::Disk;
use source_devices::{Device, Entropy, Wire};

/// The parts of a network, each list in order of number.
#[derive(Drop)]
pub struct Bench<K: Disk + Drop, Q: Device + Drop, E: Entropy + Drop, X: Wire + Drop> {
    /// The disks of the nodes.
    pub disks: Vec<K>,
    /// The entropies of the nodes.
    pub entropies: Vec<E>,
    /// The devices of the links.
    pub devices: Vec<Q>,
    /// The wires of the lanes: link by link, the lane up before the lane down.
    pub wires: Vec<X>,
}
