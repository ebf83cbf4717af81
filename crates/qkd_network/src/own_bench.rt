// The disks, wires, devices and entropies of the program's runs.
ghost use Rattle.std.specs.Prelude.{◌≡◌, IfOk};
ghost use Rattle.std.specs.List.{All};
ghost use Rattle.net_world.specs.New.{IsNew, outside};
ghost use Rattle.qkd_network.specs.Fresh.{AreBlank, AreNumbered, AreSilent};
ghost use Rattle.qkd_network.specs.Program.{IsOwn};
ghost use Rattle.source_devices.specs.KeyStream.{device_told, entropy_told};

use crate::Bench;
use disk_model::{Disk, MemDisk};
use qkd_base::{LinkNo, Memory, NodeNo};
use source_devices::{Device, Entropy, GeneratedDevice, GeneratedEntropy, MemWire, Wire};
use std::alloc::Global;

/// Disks and wires in memory, empty at first, and devices and entropies that give the same octets in each run.
pub type ProgramBench = Bench<MemDisk, GeneratedDevice, GeneratedEntropy, MemWire>;

/// A new bench of the program's own.
pub fn new_bench(alloc: Global) -> Result<ProgramBench, Memory>
    ensures fresh { IfOk result (λ bench. IsNew (outside ⟦<MemDisk as Disk>⟧ ⟦<GeneratedDevice as Device>⟧ ⟦<GeneratedEntropy as Entropy>⟧ ⟦<MemWire as Wire>⟧) bench) }
    ensures unarmed { IfOk result (λ bench. All (λ k. (⟦<MemDisk as Disk>⟧.armings k).count ≡ 0) bench.disks.items) }
    ensures own { IfOk result IsOwn }
{
    Ok(Bench {
        disks: disks(alloc)?,
        entropies: entropies(alloc)?,
        devices: devices(alloc)?,
        wires: wires(alloc)?,
    })
}

// Sixteen empty disks.
fn disks(alloc: Global) -> Result<Vec<MemDisk>, Memory>
    ensures { IfOk result (λ disks. AreBlank 16 disks.items) }
{
    let mut disks = Vec::new(alloc);
    for _ in 0..16u8 {
        disks.push(MemDisk::new(alloc, &[], Vec::new(alloc))?)?;
    }
    Ok(disks)
}

// The entropy of each node.
fn entropies(alloc: Global) -> Result<Vec<GeneratedEntropy>, Memory>
    ensures { IfOk result (λ entropies. AreNumbered ⟦<GeneratedEntropy as Entropy>⟧.left entropy_told 16 entropies.items) }
{
    let mut entropies = Vec::new(alloc);
    for number in 0..16u8 {
        let node = NodeNo::new(number).unwrap();
        entropies.push(GeneratedEntropy::new(node))?;
    }
    Ok(entropies)
}

// The device of each link.
fn devices(alloc: Global) -> Result<Vec<GeneratedDevice>, Memory>
    ensures { IfOk result (λ devices. AreNumbered ⟦<GeneratedDevice as Device>⟧.told device_told 32 devices.items) }
{
    let mut devices = Vec::new(alloc);
    for number in 0..32u8 {
        let link = LinkNo::new(number).unwrap();
        devices.push(GeneratedDevice::new(link))?;
    }
    Ok(devices)
}

// Two empty wires for each link.
fn wires(alloc: Global) -> Result<Vec<MemWire>, Memory>
    ensures { IfOk result (λ wires. AreSilent 64 wires.items) }
{
    let mut wires = Vec::new(alloc);
    for _ in 0..64u8 {
        wires.push(MemWire::new(alloc, Vec::new(alloc)))?;
    }
    Ok(wires)
}
