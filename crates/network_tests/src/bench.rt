// New benches in memory.
ghost use Rattle.std.specs.Prelude.{◌≡◌, [], IfOk, length};
ghost use Rattle.std.specs.List.{All};
ghost use Rattle.net_world.specs.New.{IsNew, outside};
ghost use Rattle.network_tests.specs.Fresh.{AreOctets, IsBlank};

use disk_model::{Disk, MemDisk};
use qkd_base::Memory;
use qkd_network::Bench;
use source_devices::{Device, Entropy, MemDevice, MemEntropy, MemWire, Wire};
use std::alloc::Global;

/// A bench whose parts tell what they hold.
pub type TestBench = Bench<MemDisk, MemDevice, MemEntropy, MemWire>;

/// The parts of number 0, which a test may choose: their octets, and the numbers of the calls that fail.
#[derive(Drop)]
pub struct FirstParts {
    pub told: Vec<u8>,
    pub drawn: Vec<u8>,
    pub device_fails: Vec<u64>,
    pub entropy_fails: Vec<u64>,
    pub wire_fails: Vec<u64>,
}

/// So many octets: 0 to 255, then 1 to 255 and 0, and so on.
pub fn octets(alloc: Global, count: usize) -> Result<Vec<u8>, Memory> {
    let mut octets = Vec::with_capacity(alloc, count)?;
    for place in 0..count {
        octets.push((place.wrapping_add(place / 256) % 256) as u8)?;
    }
    Ok(octets)
}

impl FirstParts {
    /// A device of so many blocks, an entropy whose first octets are 0 to 255, and a wire that takes each frame.
    pub fn new(alloc: Global, blocks: u16) -> Result<Self, Memory> {
        Ok(FirstParts {
            told: octets(alloc, 1024 * usize::from(blocks))?,
            drawn: octets(alloc, 1024)?,
            device_fails: Vec::new(alloc),
            entropy_fails: Vec::new(alloc),
            wire_fails: Vec::new(alloc),
        })
    }
}

// Each element of such a list is an octet.
fn are_octets(octets: &Vec<u8>)
    ensures { AreOctets octets.now.items }
{
    let _ = octets.len();
}

fn device(told: Vec<u8>, fails: Vec<u64>) -> MemDevice
    ensures { AreOctets result.octets }
{
    are_octets(&told);
    MemDevice::new(told, fails)
}

fn entropy(drawn: Vec<u8>, fails: Vec<u64>) -> MemEntropy
    ensures { AreOctets result.left }
{
    are_octets(&drawn);
    MemEntropy::new(drawn, fails)
}

fn blank_disk(alloc: Global) -> Result<MemDisk, Memory>
    ensures { IfOk result IsBlank }
{
    MemDisk::new(alloc, &[], Vec::new(alloc))
}

// Sixteen empty disks.
fn disks(alloc: Global) -> Result<Vec<MemDisk>, Memory>
    ensures count { IfOk result (λ disks. length disks.items ≡ 16) }
    ensures blank { IfOk result (λ disks. All IsBlank disks.items) }
{
    let mut disks = Vec::new(alloc);
    for _ in 0..16usize {
        let disk = blank_disk(alloc)?;
        disks.push(disk)?;
    }
    Ok(disks)
}

// The entropy of each node: that of node n gives the octet n alone, but the first one.
fn entropies(alloc: Global, first: MemEntropy) -> Result<Vec<MemEntropy>, Memory>
    requires { AreOctets first.left }
    ensures count { IfOk result (λ entropies. length entropies.items ≡ 16) }
    ensures octets { IfOk result (λ entropies. All (λ e. AreOctets e.left) entropies.items) }
{
    let mut entropies = Vec::new(alloc);
    entropies.push(first)?;
    for number in 1..16u8 {
        let next = entropy(vec![in alloc; number; 1024]?, Vec::new(alloc));
        entropies.push(next)?;
    }
    Ok(entropies)
}

// The device of each link: that of link n has eight blocks of the octet n, but the first one.
fn devices(alloc: Global, first: MemDevice) -> Result<Vec<MemDevice>, Memory>
    requires { AreOctets first.octets }
    ensures count { IfOk result (λ devices. length devices.items ≡ 32) }
    ensures octets { IfOk result (λ devices. All (λ q. AreOctets q.octets) devices.items) }
{
    let mut devices = Vec::new(alloc);
    devices.push(first)?;
    for number in 1..32u8 {
        let next = device(vec![in alloc; number; 8192]?, Vec::new(alloc));
        devices.push(next)?;
    }
    Ok(devices)
}

// Two empty wires for each link.
fn wires(alloc: Global, first: MemWire) -> Result<Vec<MemWire>, Memory>
    requires { first.frames ≡ [] }
    ensures count { IfOk result (λ wires. length wires.items ≡ 64) }
    ensures silent { IfOk result (λ wires. All (λ w. w.frames ≡ []) wires.items) }
{
    let mut wires = Vec::new(alloc);
    wires.push(first)?;
    for _ in 1..64usize {
        let next = MemWire::new(alloc, Vec::new(alloc));
        wires.push(next)?;
    }
    Ok(wires)
}

/// A bench with these parts. Its disks are empty and were never armed.
pub fn new_bench(alloc: Global, first: FirstParts) -> Result<TestBench, Memory>
    ensures fresh { IfOk result (λ bench. IsNew (outside ⟦<MemDisk as Disk>⟧ ⟦<MemDevice as Device>⟧ ⟦<MemEntropy as Entropy>⟧ ⟦<MemWire as Wire>⟧) bench) }
    ensures unarmed { IfOk result (λ bench. All (λ k. (⟦<MemDisk as Disk>⟧.armings k).count ≡ 0) bench.disks.items) }
{
    let FirstParts {
        told,
        drawn,
        device_fails,
        entropy_fails,
        wire_fails,
    } = first;
    let disks = disks(alloc)?;
    let entropies = entropies(alloc, entropy(drawn, entropy_fails))?;
    let devices = devices(alloc, device(told, device_fails))?;
    let wires = wires(alloc, MemWire::new(alloc, wire_fails))?;
    Ok(Bench {
        disks,
        entropies,
        devices,
        wires,
    })
}

/// Whether a bench has all its parts.
pub fn is_whole(bench: &TestBench) -> bool {
    bench.disks.len() == 16
        && bench.entropies.len() == 16
        && bench.devices.len() == 32
        && bench.wires.len() == 64
}
