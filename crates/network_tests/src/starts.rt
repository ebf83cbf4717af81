// Starts of the manager of node A, which has no random octets.
use crate::pair::{node, site};
use disk_model::{Disk, MemDisk};
use kme_store::{Manager, RecoverRefusal, recover};
use qkd_base::Memory;
use source_devices::MemEntropy;
use std::alloc::Global;

/// A manager without a network.
pub type Alone = Manager<MemDisk, MemEntropy>;

/// What a start makes of a disk.
#[derive(Drop)]
pub enum Started {
    Up(Alone),
    Stopped(MemDisk),
    Foreign(u64),
}

/// Starts it on this disk.
pub fn start(alloc: Global, mut disk: MemDisk) -> Result<Started, Memory> {
    disk.room(17)?;
    let site = site(alloc)?;
    let entropy = MemEntropy::new(Vec::new(alloc), Vec::new(alloc));
    match recover(alloc, disk, entropy, &site, node(0)) {
        Ok(manager) => Ok(Started::Up(manager)),
        Err((RecoverRefusal::Stopped, disk, _)) => Ok(Started::Stopped(disk)),
        Err((RecoverRefusal::Foreign(place), ..)) => Ok(Started::Foreign(place)),
        Err((RecoverRefusal::Memory, ..)) => Err(Memory),
    }
}

/// Starts it on a disk with these octets.
pub fn start_over(alloc: Global, octets: &[u8]) -> Result<Started, Memory> {
    start(alloc, MemDisk::new(alloc, octets, Vec::new(alloc))?)
}
