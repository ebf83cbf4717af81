// Writing a checkpoint to a disk.
ghost use Rattle.std.specs.Prelude.{◌≡◌, ◌⊎◌, ◌≤◌, ◌<◌, ◌+◌, ◌-◌, ◌^◌, ◌∷◌, ◌++◌, [], ℕ, List, length, max, replicate, IsTrue, OnOk, OnErr, IfOk};
ghost use Rattle.qkd_base.specs.Faults.{HasCause};
ghost use Rattle.disk_model.specs.Allowance.{after_room};
ghost use Rattle.disk_model.specs.Images.{Only, StandsStill, AtEachMoment, overlaid};
ghost use Rattle.range_journal.specs.Batches.{spelled as spelled_in, AreShort};
ghost use Rattle.journal_snapshot.specs.Layout.{next_area, mark_place, fields_of};
ghost use Rattle.journal_snapshot.specs.Snapshots.{need_of};
ghost use Rattle.journal_snapshot.specs.Checkpoint.{next_generation, mark_of, fields_at, fields_in, cleared, IsClearing, TornTwice, drawn, IsDrawing, marked, IsStage, HasRoom};

use crate::{Area, Live};
use disk_model::{Disk, DiskFailed};
use qkd_base::{Memory, Octets, Replica};
use range_journal::{Journal, write_synced};
use std::alloc::Global;

/// The memory of a checkpoint: its batches, and the octets of its area. If the area doesn't begin right after the journal,
/// zeros stand before it.
#[derive(Drop)]
pub struct Draft {
    pub block: Vec<u8>,
    pub batches: Vec<Octets>,
}

// Encodes `zeros` zeros, the batches, each after an open gate, and a closed gate.
fn spelled(alloc: Global, batches: &[Octets], zeros: u64) -> Result<Vec<u8>, Memory>
    requires { AreShort batches.now }
    ensures { IfOk result (λ block. block.items ≡ replicate zeros 0 ++ (spelled_in batches.now ++ 0 ∷ [])) }
{
    let mut block = vec![in alloc; 0u8; zeros as usize]?;
    for batch in batches {
        block.push(1)?;
        block.extend_from_slice(&(batch.len() as u32).to_be_bytes())?;
        block.extend_from_slice(batch.as_slice())?;
    }
    block.push(0)?;
    Ok(block)
}

// Copies the batches into memory of their own.
fn copied(alloc: Global, batches: &[Octets]) -> Result<Vec<Octets>, Memory>
    ensures { IfOk result (λ copies. copies.items ≡ batches.now) }
{
    let mut copies = Vec::new(alloc);
    for batch in batches {
        let same = batch.copy()?;
        copies.push(same)?;
    }
    Ok(copies)
}

impl Draft {
    /// Allocates the memory for a checkpoint at `place` that is written from `at` on, including the disk's memory. If this
    /// fails, the journal is unchanged.
    pub fn prepared<K: Disk>(
        alloc: Global,
        journal: &mut Journal<K>,
        batches: &[Octets],
        at: u64,
        place: u64,
    ) -> Result<Draft, Memory>
        requires before { at ≤ place }
        requires limit { place + need_of batches.now ≤ 2 ^ 25 }
        ensures block { IfOk result (λ draft. draft.block.items ≡ replicate (place - at) 0 ++ (spelled_in batches.now ++ 0 ∷ [])) }
        ensures batches { IfOk result (λ draft. draft.batches.items ≡ batches.now) }
        ensures room { OnOk result (K.allowance journal.new.disk ≡ after_room (place + need_of batches.now + 18) (K.allowance journal.old.disk)) }
        ensures err { OnErr result (journal.new ≡ journal.old) }
        ensures journal { (journal.new.start ≡ journal.old.start) × (journal.new.batches ≡ journal.old.batches) }
        ensures content { K.content journal.new.disk ≡ K.content journal.old.disk }
        ensures time { StandsStill (K.moment journal.old.disk) (K.moment journal.new.disk) (K.image journal.old.disk) (K.image journal.new.disk) }
        ensures faults { K.faults journal.new.disk ≡ K.faults journal.old.disk }
        ensures honest { K.is_honest journal.new.disk ≡ K.is_honest journal.old.disk }
        ensures armings { K.armings journal.new.disk ≡ K.armings journal.old.disk }
    {
        let block = spelled(alloc, batches, place - at)?;
        let batches = copied(alloc, batches)?;
        // The fields take at most 16 more octets, and writing the mark twice takes two.
        journal.room_to(at + block.len() as u64 + 18)?;
        Ok(Draft { block, batches })
    }
}

// Clears the mark if it is open.
fn clear<K: Disk>(disk: &mut K, older: bool, mark: u64) -> Result<(), DiskFailed>
    requires durable { IsTrue (K.is_honest disk.old) → Only (K.content disk.old) (K.image disk.old (K.moment disk.old)) }
    requires within { IsTrue (K.is_honest disk.old) → mark + 1 ≤ length (K.content disk.old) }
    requires granted { IsTrue (K.allowance disk.old).granted }
    requires left { 1 ≤ (K.allowance disk.old).left }
    requires used { (K.allowance disk.old).used ≤ 3 }
    ensures written { IsTrue (K.is_honest disk.old) → OnOk result (K.content disk.new ≡ cleared older mark (K.content disk.old)) }
    ensures durable { IsTrue (K.is_honest disk.old) → OnOk result (Only (K.content disk.new) (K.image disk.new (K.moment disk.new))) }
    ensures moments { AtEachMoment K.moment K.image disk.old disk.new (λ i. IsTrue (K.is_honest disk.old) → IsClearing older mark (K.content disk.old) i) }
    ensures cause { HasCause (K.faults disk.old) (K.faults disk.new) result }
    ensures calm { OnOk result (K.faults disk.new ≡ K.faults disk.old) }
    ensures honest { K.is_honest disk.new ≡ K.is_honest disk.old }
    ensures used { (K.allowance disk.new).used ≤ (K.allowance disk.old).used + 2 }
    ensures left { (K.allowance disk.old).left ≤ (K.allowance disk.new).left + 1 }
    ensures room { ((K.allowance disk.new).granted ≡ (K.allowance disk.old).granted) × ((K.allowance disk.new).reach ≡ (K.allowance disk.old).reach) }
    ensures armings { K.armings disk.new ≡ K.armings disk.old }
{
    if older {
        return write_synced(disk, mark, &[0]);
    }
    Ok(())
}

// Writes at two places, the second of which lies within the disk's octets, and syncs.
fn write_both<K: Disk>(
    disk: &mut K,
    at: u64,
    block: &[u8],
    place: u64,
    fields: &[u8],
) -> Result<(), DiskFailed>
    requires durable { IsTrue (K.is_honest disk.old) → Only (K.content disk.old) (K.image disk.old (K.moment disk.old)) }
    requires at { IsTrue (K.is_honest disk.old) → at ≤ length (K.content disk.old) }
    requires within { IsTrue (K.is_honest disk.old) → place + length fields.now ≤ length (K.content disk.old) }
    requires granted { IsTrue (K.allowance disk.old).granted }
    requires reach { at + length block.now ≤ (K.allowance disk.old).reach }
    requires left { length block.now + length fields.now ≤ (K.allowance disk.old).left }
    requires used { (K.allowance disk.old).used ≤ 5 }
    ensures written { IsTrue (K.is_honest disk.old) → OnOk result (K.content disk.new ≡ overlaid place fields.now (overlaid at block.now (K.content disk.old))) }
    ensures durable { IsTrue (K.is_honest disk.old) → OnOk result (Only (K.content disk.new) (K.image disk.new (K.moment disk.new))) }
    ensures moments { AtEachMoment K.moment K.image disk.old disk.new
        (λ i. IsTrue (K.is_honest disk.old) → TornTwice at (length block.now) place (length fields.now) (K.content disk.old) i) }
    ensures cause { HasCause (K.faults disk.old) (K.faults disk.new) result }
    ensures calm { OnOk result (K.faults disk.new ≡ K.faults disk.old) }
    ensures honest { K.is_honest disk.new ≡ K.is_honest disk.old }
    ensures used { (K.allowance disk.new).used ≤ (K.allowance disk.old).used + 3 }
    ensures left { (K.allowance disk.old).left ≤ (K.allowance disk.new).left + (length block.now + length fields.now) }
    ensures room { ((K.allowance disk.new).granted ≡ (K.allowance disk.old).granted) × ((K.allowance disk.new).reach ≡ (K.allowance disk.old).reach) }
    ensures armings { K.armings disk.new ≡ K.armings disk.old }
{
    disk.write_at(at, block)?;
    disk.write_at(place, fields)?;
    disk.sync()
}

// The start field of the first checkpoint on a disk, with version 2.
fn field_octets(start: u64) -> [u8; 7]
    ensures { result ≡ fields_of Area.Field 0 start }
{
    let octets = start.to_be_bytes();
    [
        2, octets[2], octets[3], octets[4], octets[5], octets[6], octets[7],
    ]
}

// The fields of a slot, with version 2.
fn slot_octets(generation: u64, start: u64) -> [u8; 16]
    ensures first { result ≡ fields_of Area.First generation start }
    ensures second { result ≡ fields_of Area.Second generation start }
{
    let first = generation.to_be_bytes();
    let octets = start.to_be_bytes();
    [
        first[0], first[1], first[2], first[3], first[4], first[5], first[6], first[7], 2,
        octets[1], octets[2], octets[3], octets[4], octets[5], octets[6], octets[7],
    ]
}

// Writes an area and the fields that say its start, and syncs.
fn draw<K: Disk>(
    disk: &mut K,
    live: Live,
    at: u64,
    block: &[u8],
    place: u64,
) -> Result<(), DiskFailed>
    requires durable { IsTrue (K.is_honest disk.old) → Only (K.content disk.old) (K.image disk.old (K.moment disk.old)) }
    requires at { IsTrue (K.is_honest disk.old) → at ≤ length (K.content disk.old) }
    requires within { IsTrue (K.is_honest disk.old) → fields_at live + length (fields_in live place) ≤ length (K.content disk.old) }
    requires granted { IsTrue (K.allowance disk.old).granted }
    requires reach { at + length block.now ≤ (K.allowance disk.old).reach }
    requires left { length block.now + 16 ≤ (K.allowance disk.old).left }
    requires used { (K.allowance disk.old).used ≤ 5 }
    requires small { live.generation < 2 ^ 64 - 1 }
    ensures written { IsTrue (K.is_honest disk.old) → OnOk result (K.content disk.new ≡ drawn live at block.now place (K.content disk.old)) }
    ensures durable { IsTrue (K.is_honest disk.old) → OnOk result (Only (K.content disk.new) (K.image disk.new (K.moment disk.new))) }
    ensures moments { AtEachMoment K.moment K.image disk.old disk.new (λ i. IsTrue (K.is_honest disk.old) → IsDrawing live at block.now place (K.content disk.old) i) }
    ensures cause { HasCause (K.faults disk.old) (K.faults disk.new) result }
    ensures calm { OnOk result (K.faults disk.new ≡ K.faults disk.old) }
    ensures honest { K.is_honest disk.new ≡ K.is_honest disk.old }
    ensures used { (K.allowance disk.new).used ≤ (K.allowance disk.old).used + 3 }
    ensures left { (K.allowance disk.old).left ≤ (K.allowance disk.new).left + (length block.now + 16) }
    ensures room { ((K.allowance disk.new).granted ≡ (K.allowance disk.old).granted) × ((K.allowance disk.new).reach ≡ (K.allowance disk.old).reach) }
    ensures armings { K.armings disk.new ≡ K.armings disk.old }
{
    match live.area {
        Area::Header => {
            let fields = field_octets(place);
            write_both(disk, at, block, 9, &fields)
        }
        Area::Field => {
            let fields = slot_octets(live.generation + 1, place);
            write_both(disk, at, block, 18, &fields)
        }
        Area::First => {
            let fields = slot_octets(live.generation + 1, place);
            write_both(disk, at, block, 34, &fields)
        }
        Area::Second => {
            let fields = slot_octets(live.generation + 1, place);
            write_both(disk, at, block, 18, &fields)
        }
    }
}

/// Writes a checkpoint. It clears the mark of the next area if it is open, writes the area and the fields that say its start,
/// and syncs. Then it opens the mark.
pub fn write_checkpoint<K: Disk>(
    disk: &mut K,
    live: Live,
    older: bool,
    at: u64,
    block: &[u8],
    place: u64,
) -> Result<(), DiskFailed>
    requires durable { IsTrue (K.is_honest disk.old) → Only (K.content disk.old) (K.image disk.old (K.moment disk.old)) }
    requires spots { IsTrue (K.is_honest disk.old) → (mark_of live + 1 ≤ length (K.content disk.old)) × (fields_at live + length (fields_in live place) ≤ length (K.content disk.old)) × (at ≤ length (K.content disk.old)) }
    requires room { HasRoom (K.allowance disk.old) (at + length block.now) (length block.now) }
    requires small { live.generation < 2 ^ 64 - 1 }
    ensures written { IsTrue (K.is_honest disk.old) → OnOk result (K.content disk.new ≡ marked live older at block.now place (K.content disk.old)) }
    ensures durable { IsTrue (K.is_honest disk.old) → OnOk result (Only (K.content disk.new) (K.image disk.new (K.moment disk.new))) }
    ensures moments { AtEachMoment K.moment K.image disk.old disk.new (λ i. IsTrue (K.is_honest disk.old) → IsStage live older at block.now place (K.content disk.old) i) }
    ensures cause { HasCause (K.faults disk.old) (K.faults disk.new) result }
    ensures calm { OnOk result (K.faults disk.new ≡ K.faults disk.old) }
    ensures honest { K.is_honest disk.new ≡ K.is_honest disk.old }
    ensures used { (K.allowance disk.new).used ≤ 12 }
    ensures armings { K.armings disk.new ≡ K.armings disk.old }
{
    let target = live.area.next();
    clear(disk, older, target.mark_place())?;
    draw(disk, live, at, block, place)?;
    write_synced(disk, target.mark_place(), &[target.open_mark()])
}
