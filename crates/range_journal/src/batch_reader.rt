// How the batches of a disk are read, in order.
ghost use Rattle.std.specs.Prelude.{◌≡◌, ◌≢◌, ◌⊎◌, ◌+◌, ◌<◌, ◌≤◌, ◌∷◌, ◌++◌, [], List, ℕ, length, drop, take, false, IsTrue, IfOk, OnErr, IfErr};
ghost use Rattle.std.specs.Int.{w32, to_be_bytes};
ghost use Rattle.qkd_base.specs.Faults.{Rose};
ghost use Rattle.disk_model.specs.Calls.{OnlyReads};
ghost use Rattle.range_journal.specs.Reading.{IsFaulty, IsNext, FitsNext, IsUnread, HasFound, FitsFound, StopsReading, has_failed};

use crate::JournalRefusal;
use disk_model::Disk;
use qkd_base::Octets;
use std::alloc::Global;

/// What stands at the place of a gate.
#[derive(Drop)]
pub enum Next {
    /// A gate that isn't open.
    Shut(u8),
    /// A batch behind an open gate.
    Batch(Octets),
}

/// The batches from a place on, and behind them the first gate that isn't open, with its place.
#[derive(Drop)]
pub struct Found {
    pub batches: Vec<Octets>,
    pub place: u64,
    pub gate: u8,
}

// Reads `count` octets into newly allocated memory.
fn read_octets<K: Disk>(
    alloc: Global,
    disk: &mut K,
    at: u64,
    count: u32,
) -> Result<Octets, JournalRefusal>
    requires { IsTrue (K.is_honest disk.old) → at + count ≤ length (K.content disk.old) }
    ensures octets { IsTrue (K.is_honest disk.old) → IfOk result (λ o. o ≡ take count (drop at (K.content disk.old))) }
    ensures count { IfOk result (λ o. length o ≡ count) }
    ensures cause { IfErr result (IsFaulty (K.faults disk.old) (K.faults disk.new)) }
    ensures calm { has_failed result ≡ false → K.faults disk.new ≡ K.faults disk.old }
    ensures reads { OnlyReads K.is_honest K.content K.moment K.image K.faults K.allowance K.armings disk.old disk.new }
{
    match vec![in alloc; 0u8; count as usize] {
        Err(_) => Err(JournalRefusal::Memory),
        Ok(mut octets) => match disk.read(at, &mut octets) {
            Ok(()) => Ok(Octets::from_vec(octets)),
            Err(_) => Err(JournalRefusal::Disk),
        },
    }
}

// Reads a gate, one octet.
fn read_gate<K: Disk>(disk: &mut K, at: u64) -> Result<u8, JournalRefusal>
    requires { IsTrue (K.is_honest disk.old) → at + 1 ≤ length (K.content disk.old) }
    ensures octet { IsTrue (K.is_honest disk.old) → IfOk result (λ g. drop at (K.content disk.old) ≡ g ∷ drop (at + 1) (K.content disk.old)) }
    ensures cause { IfErr result (IsFaulty (K.faults disk.old) (K.faults disk.new)) }
    ensures calm { has_failed result ≡ false → K.faults disk.new ≡ K.faults disk.old }
    ensures reads { OnlyReads K.is_honest K.content K.moment K.image K.faults K.allowance K.armings disk.old disk.new }
{
    let mut gate = [0];
    match disk.read(at, &mut gate) {
        Ok(()) => Ok(gate[0]),
        Err(_) => Err(JournalRefusal::Disk),
    }
}

// Four octets as a number, big-endian.
fn number_of(octets: &[u8]) -> u32
    requires { length octets.now ≡ 4 }
    ensures { to_be_bytes w32 result ≡ octets.now }
{
    u32::from_be_bytes([octets[0], octets[1], octets[2], octets[3]])
}

// Reads a length of four octets.
fn read_length<K: Disk>(disk: &mut K, at: u64) -> Result<u32, JournalRefusal>
    requires { IsTrue (K.is_honest disk.old) → at + 4 ≤ length (K.content disk.old) }
    ensures octets { IsTrue (K.is_honest disk.old) → IfOk result (λ n. drop at (K.content disk.old) ≡ to_be_bytes w32 n ++ drop (at + 4) (K.content disk.old)) }
    ensures cause { IfErr result (IsFaulty (K.faults disk.old) (K.faults disk.new)) }
    ensures calm { has_failed result ≡ false → K.faults disk.new ≡ K.faults disk.old }
    ensures reads { OnlyReads K.is_honest K.content K.moment K.image K.faults K.allowance K.armings disk.old disk.new }
{
    let mut octets = [0; 4];
    match disk.read(at, &mut octets) {
        Ok(()) => Ok(number_of(&octets)),
        Err(_) => Err(JournalRefusal::Disk),
    }
}

// Reads the gate at a place of a disk of `size` octets, and the batch behind it if the gate is open.
fn next_batch<K: Disk>(
    alloc: Global,
    disk: &mut K,
    place: u64,
    size: u64,
) -> Result<Next, JournalRefusal>
    requires { IsTrue (K.is_honest disk.old) → size ≡ length (K.content disk.old) }
    ensures next { IsTrue (K.is_honest disk.old) → IfOk result (IsNext (K.content disk.old) place) }
    ensures fits { IfOk result (FitsNext place size) }
    ensures cause { IfErr result (IsUnread (K.is_honest disk.old) (K.content disk.old) place (K.faults disk.old) (K.faults disk.new)) }
    ensures calm { has_failed result ≡ false → K.faults disk.new ≡ K.faults disk.old }
    ensures reads { OnlyReads K.is_honest K.content K.moment K.image K.faults K.allowance K.armings disk.old disk.new }
{
    if place >= size {
        return Err(JournalRefusal::Foreign(size));
    }
    match read_gate(disk, place) {
        Err(why) => Err(why),
        Ok(1) => read_body(alloc, disk, place, size),
        Ok(gate) => Ok(Next::Shut(gate)),
    }
}

// Reads the batch behind an open gate.
fn read_body<K: Disk>(
    alloc: Global,
    disk: &mut K,
    place: u64,
    size: u64,
) -> Result<Next, JournalRefusal>
    requires size { IsTrue (K.is_honest disk.old) → size ≡ length (K.content disk.old) }
    requires place { place < size }
    requires gate { IsTrue (K.is_honest disk.old) → drop place (K.content disk.old) ≡ 1 ∷ drop (place + 1) (K.content disk.old) }
    ensures next { IsTrue (K.is_honest disk.old) → IfOk result (IsNext (K.content disk.old) place) }
    ensures fits { IfOk result (FitsNext place size) }
    ensures cause { IfErr result (IsUnread (K.is_honest disk.old) (K.content disk.old) place (K.faults disk.old) (K.faults disk.new)) }
    ensures calm { has_failed result ≡ false → K.faults disk.new ≡ K.faults disk.old }
    ensures reads { OnlyReads K.is_honest K.content K.moment K.image K.faults K.allowance K.armings disk.old disk.new }
{
    if size - place < 5 {
        return Err(JournalRefusal::Foreign(place));
    }
    match read_length(disk, place + 1) {
        Err(why) => Err(why),
        Ok(count) => {
            if size - place - 5 < count as u64 {
                return Err(JournalRefusal::Foreign(place));
            }
            match read_octets(alloc, disk, place + 5, count) {
                Err(why) => Err(why),
                Ok(body) => Ok(Next::Batch(body)),
            }
        }
    }
}

/// Reads the batches from `start` on, up to the first gate that isn't open. Errors: the disk fails, memory runs out, or a gate
/// or a batch is missing.
pub fn read_batches<K: Disk>(
    alloc: Global,
    disk: &mut K,
    start: u64,
    size: u64,
) -> Result<Found, JournalRefusal>
    requires size { IsTrue (K.is_honest disk.old) → size ≡ length (K.content disk.old) }
    requires start { start ≤ size }
    ensures found { IsTrue (K.is_honest disk.old) → IfOk result (HasFound (K.content disk.old) start) }
    ensures fits { IfOk result (FitsFound start size) }
    ensures cause { IfErr result (StopsReading (K.is_honest disk.old) (K.content disk.old) start (K.faults disk.old) (K.faults disk.new)) }
    ensures calm { has_failed result ≡ false → K.faults disk.new ≡ K.faults disk.old }
    ensures reads { OnlyReads K.is_honest K.content K.moment K.image K.faults K.allowance K.armings disk.old disk.new }
{
    let mut batches = Vec::new(alloc);
    let mut place = start;
    'batches: loop {
        match next_batch(alloc, disk, place, size)? {
            Next::Shut(gate) => {
                return Ok(Found {
                    batches,
                    place,
                    gate,
                });
            }
            Next::Batch(body) => {
                if batches.reserve(1).is_err() {
                    return Err(JournalRefusal::Memory);
                }
                place += 5 + body.len() as u64;
                batches.push_reserved(body);
            }
        }
    }
}
