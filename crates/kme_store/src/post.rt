// A node's post in a network.
use crate::Manager;
use disk_model::Disk;
use source_devices::Entropy;

/// A node's manager, up or down; or only its disk and its entropy, if it was never started or has crashed.
#[derive(Drop)]
pub enum Post<K: Disk, E: Entropy> {
    On(Manager<K, E>),
    Off(K, E),
}
