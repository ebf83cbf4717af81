// Open journals, and appends to them.
ghost use Rattle.std.specs.Prelude.{◌≡◌, ◌+◌, ◌-◌, ◌<◌, ◌≤◌, ◌++◌, ◌∷◌, [], List, ℕ, length, take, Some, ◌^◌, nat_lt, false, min, IsTrue, IsOk, IfOk, OnOk, OnErr, vec_len, vec_capacity};
ghost use Rattle.qkd_base.specs.Faults.{Rose};
ghost use Rattle.disk_model.specs.Images.{StandsStill, AtEachMoment};
ghost use Rattle.disk_model.specs.Allowance.{after_room};
ghost use Rattle.range_journal.specs.Batches.{AreShort, IsAppended, IsSettled, length_of, block_of};
ghost use Rattle.range_journal.specs.Journal.{IsReady, most};
ghost use Rattle.range_journal.specs.Refused.{IsAnswer, need_of, disk_after, is_full, is_memory, is_spent};

use crate::JournalRefusal;
use crate::batch::write_batch;
use disk_model::{Arm, Disk};
use qkd_base::{Memory, Octets};
use std::alloc::Global;
use std::marker::Model;

/// How many octets a journal may have: 32 MiB.
pub const MOST_OCTETS: u64 = 1 << 25;

/// An open journal. All its batches are on the disk.
#[derive(Drop)]
pub struct Journal<K: Disk> {
    alloc: Global,
    disk: K,
    start: u64,
    length: u64,
    batches: Vec<Octets>,
    // Memory that is reserved for the next batch.
    kept: Vec<u8>,
    block: Vec<u8>,
    spare: u32,
}

/// Why a batch was not added, and what is left of the journal.
#[derive(Drop)]
pub enum Refused<K: Disk> {
    /// The journal is as it was. Either the batch is too long for it, or memory ran out.
    Kept(JournalRefusal, Journal<K>),
    /// The disk failed. Only a new opening of the disk shows whether it has the batch.
    Spent(K),
}

impl<K: Disk> Model for Journal<K> {
    ghost use Rattle.range_journal.specs.Journal.{JournalForm};

    ghost Value = { JournalForm K };

    ghost use Rattle.range_journal.specs.Journal.{IsSound};

    ghost view = { λ j. record { disk = j.disk; start = j.start; batches = j.batches.items; spare = j.spare } };

    ghost invariant = { λ j. IsSound (K.is_honest j.disk) (K.content j.disk) (K.image j.disk (K.moment j.disk)) (K.allowance j.disk) j.start j.length j.batches j.kept j.block j.spare };
}

// Reserves memory for one more batch of `body` octets. On an error the disk is as it was.
fn reserve<K: Disk>(
    disk: &mut K,
    batches: &mut Vec<Octets>,
    kept: &mut Vec<u8>,
    block: &mut Vec<u8>,
    size: u64,
    body: usize,
) -> Result<(), Memory>
    requires some { 1 ≤ size }
    requires fits { size + body + 5 ≤ most }
    requires kept { vec_len kept.old ≡ 0 }
    requires block { vec_len block.old ≡ 0 }
    ensures ready { OnOk result (IsReady (K.allowance disk.new) size body batches.new kept.new block.new) }
    ensures err { OnErr result (disk.new ≡ disk.old) }
    ensures content { K.content disk.new ≡ K.content disk.old }
    ensures time { StandsStill (K.moment disk.old) (K.moment disk.new) (K.image disk.old) (K.image disk.new) }
    ensures faults { K.faults disk.new ≡ K.faults disk.old }
    ensures honest { K.is_honest disk.new ≡ K.is_honest disk.old }
    ensures armings { K.armings disk.new ≡ K.armings disk.old }
    ensures batches { batches.new.items ≡ batches.old.items }
    ensures clean { (vec_len kept.new ≡ 0) × (vec_len block.new ≡ 0) }
    ensures grows { (vec_capacity batches.old ≤ vec_capacity batches.new) × (vec_capacity kept.old ≤ vec_capacity kept.new) × (vec_capacity block.old ≤ vec_capacity block.new) }
{
    batches.reserve(1)?;
    kept.reserve(body)?;
    block.reserve(body + 5)?;
    disk.room(size + body as u64 + 5)
}

// Reserves memory for one more batch of `body` octets, unless it is already reserved.
fn prepare<K: Disk>(
    disk: &mut K,
    batches: &mut Vec<Octets>,
    kept: &mut Vec<u8>,
    block: &mut Vec<u8>,
    size: u64,
    spare: u32,
    body: usize,
) -> Result<(), Memory>
    requires some { 1 ≤ size }
    requires fits { size + body + 5 ≤ most }
    requires kept { vec_len kept.old ≡ 0 }
    requires block { vec_len block.old ≡ 0 }
    requires ready { 0 < spare → size + 5 ≤ most → IsReady (K.allowance disk.old) size (min spare (most - 5 - size)) batches.old kept.old block.old }
    ensures ready { OnOk result (IsReady (K.allowance disk.new) size body batches.new kept.new block.new) }
    ensures spare { 0 < body → body ≤ spare → IsOk result }
    ensures err { OnErr result (disk.new ≡ disk.old) }
    ensures content { K.content disk.new ≡ K.content disk.old }
    ensures time { StandsStill (K.moment disk.old) (K.moment disk.new) (K.image disk.old) (K.image disk.new) }
    ensures faults { K.faults disk.new ≡ K.faults disk.old }
    ensures honest { K.is_honest disk.new ≡ K.is_honest disk.old }
    ensures armings { K.armings disk.new ≡ K.armings disk.old }
    ensures batches { batches.new.items ≡ batches.old.items }
    ensures clean { (vec_len kept.new ≡ 0) × (vec_len block.new ≡ 0) }
    ensures grows { (vec_capacity batches.old ≤ vec_capacity batches.new) × (vec_capacity kept.old ≤ vec_capacity kept.new) × (vec_capacity block.old ≤ vec_capacity block.new) }
{
    if body != 0 && body as u64 <= spare as u64 {
        return Ok(());
    }
    reserve(disk, batches, kept, block, size, body)
}

// Writes the block of a batch into reserved memory: the batch's length, the batch, and a closed gate.
fn fill(block: &mut Vec<u8>, batch: &[u8])
    requires empty { vec_len block.old ≡ 0 }
    requires short { length batch.now + 5 ≤ most }
    requires room { length batch.now + 5 ≤ vec_capacity block.old }
    ensures { block.new.items ≡ block_of batch.now }
{
    block
        .extend_from_slice(&(batch.len() as u32).to_be_bytes())
        .unwrap();
    block.extend_from_slice(batch).unwrap();
    block.push(0).unwrap();
}

impl<K: Disk> Journal<K> {
    /// The journal over a disk that has these batches from `start` on. Its closed gate is the octet before `length`. The call
    /// doesn't use the disk.
    pub fn settled(alloc: Global, disk: K, start: u64, length: u64, batches: Vec<Octets>) -> Self
        requires settled { IsTrue (K.is_honest disk) → IsSettled (K.content disk) (K.image disk (K.moment disk)) start batches.items }
        requires length { length ≡ length_of start batches.items }
        requires short { AreShort batches.items }
        requires used { (K.allowance disk).used ≤ 12 }
        ensures { result ≡ record { disk = disk; start = start; batches = batches.items; spare = 0 } }
    {
        Journal {
            alloc,
            disk,
            start,
            length,
            batches,
            kept: Vec::new(alloc),
            block: Vec::new(alloc),
            spare: 0,
        }
    }

    /// The batches, in order.
    pub fn batches(&self) -> &[Octets]
        ensures { result.now ≡ self.now.batches }
    {
        self.batches.as_slice()
    }

    /// The place behind the closed gate: the journal's length in octets.
    pub fn length(&self) -> u64
        ensures { result ≡ length_of self.now.start self.now.batches }
    {
        self.length
    }

    /// Adds a batch. On success the batch is durable. Errors: the journal would be too long, memory runs out, or the disk
    /// fails.
    pub fn append(mut self, batch: &[u8]) -> Result<Journal<K>, Refused<K>>
        ensures answer { IsAnswer self batch.now result }
        ensures full { is_full result ≡ nat_lt most (length_of self.start self.batches + need_of batch.now) }
        ensures memory { 0 < length batch.now → length batch.now ≤ self.spare → is_memory result ≡ false }
        ensures spent { IsTrue (is_spent result) → Rose (K.faults self.disk) (K.faults (disk_after result)) }
        ensures later { K.faults self.disk ≤ K.faults (disk_after result) }
        ensures calm { is_spent result ≡ false → K.faults (disk_after result) ≡ K.faults self.disk }
        ensures moments { AtEachMoment K.moment K.image self.disk (disk_after result)
            (λ c. IsTrue (K.is_honest self.disk) → IsAppended (K.content self.disk) self.start self.batches batch.now c) }
        ensures settled { IfOk result (λ new. IsTrue (K.is_honest new.disk) → IsSettled (K.content new.disk) (K.image new.disk (K.moment new.disk)) new.start new.batches) }
        ensures front { IfOk result (λ new. IsTrue (K.is_honest new.disk) → take new.start (K.content new.disk) ≡ take self.start (K.content self.disk)) }
        ensures honest { K.is_honest (disk_after result) ≡ K.is_honest self.disk }
        ensures used { (K.allowance (disk_after result)).used ≤ 12 }
        ensures armings { K.armings (disk_after result) ≡ K.armings self.disk }
    {
        let need = batch.len() as u64 + 5;
        if need > MOST_OCTETS || self.length > MOST_OCTETS - need {
            let length = self.length;
            return Err(Refused::Kept(JournalRefusal::JournalFull { length, need }, self));
        }
        let ready = prepare(
            &mut self.disk,
            &mut self.batches,
            &mut self.kept,
            &mut self.block,
            self.length,
            self.spare,
            batch.len(),
        );
        if ready.is_err() {
            return Err(Refused::Kept(JournalRefusal::Memory, self));
        }
        let Journal {
            alloc,
            mut disk,
            start,
            length,
            mut batches,
            mut kept,
            mut block,
            spare: _,
        } = self;
        fill(&mut block, batch);
        kept.extend_from_slice(batch).unwrap();
        match write_batch(&mut disk, length, &block) {
            Err(_) => Err(Refused::Spent(disk)),
            Ok(()) => {
                batches.push(Octets::from_vec(kept)).unwrap();
                block.clear();
                Ok(Journal {
                    alloc,
                    disk,
                    start,
                    length: length + need,
                    batches,
                    kept: Vec::new(alloc),
                    block,
                    spare: 0,
                })
            }
        }
    }

    /// Reserves memory for an append of `body` octets. It changes nothing else. The only error is that memory runs out.
    pub fn room(&mut self, body: u32) -> Result<(), Memory>
        ensures spare { OnOk result ((body ≤ self.new.spare) × (self.old.spare ≤ self.new.spare)) }
        ensures err { OnErr result (self.new ≡ self.old) }
        ensures batches { (self.new.start ≡ self.old.start) × (self.new.batches ≡ self.old.batches) }
        ensures content { K.content self.new.disk ≡ K.content self.old.disk }
        ensures time { StandsStill (K.moment self.old.disk) (K.moment self.new.disk) (K.image self.old.disk) (K.image self.new.disk) }
        ensures faults { K.faults self.new.disk ≡ K.faults self.old.disk }
        ensures honest { K.is_honest self.new.disk ≡ K.is_honest self.old.disk }
        ensures armings { K.armings self.new.disk ≡ K.armings self.old.disk }
    {
        if body <= self.spare {
            return Ok(());
        }
        if self.length <= MOST_OCTETS - 5 {
            let fitting = (body as u64).min(MOST_OCTETS - 5 - self.length);
            reserve(
                &mut self.disk,
                &mut self.batches,
                &mut self.kept,
                &mut self.block,
                self.length,
                fitting as usize,
            )?;
        }
        self.spare = body;
        Ok(())
    }

    /// Reserves the disk's memory for writes up to `end`, for what its owner writes behind this journal. Memory that was
    /// reserved for appends is given up. The only error is that memory runs out; then nothing changes.
    pub fn room_to(&mut self, end: u64) -> Result<(), Memory>
        ensures ok { OnOk result (K.allowance self.new.disk ≡ after_room end (K.allowance self.old.disk)) }
        ensures spare { OnOk result (self.new.spare ≡ 0) }
        ensures err { OnErr result (self.new ≡ self.old) }
        ensures batches { (self.new.start ≡ self.old.start) × (self.new.batches ≡ self.old.batches) }
        ensures content { K.content self.new.disk ≡ K.content self.old.disk }
        ensures time { StandsStill (K.moment self.old.disk) (K.moment self.new.disk) (K.image self.old.disk) (K.image self.new.disk) }
        ensures faults { K.faults self.new.disk ≡ K.faults self.old.disk }
        ensures honest { K.is_honest self.new.disk ≡ K.is_honest self.old.disk }
        ensures armings { K.armings self.new.disk ≡ K.armings self.old.disk }
    {
        self.disk.room(end)?;
        self.spare = 0;
        Ok(())
    }

    /// Arms the disk: sets a fault that comes at a later call.
    pub fn arm(&mut self, arm: Arm)
        requires { (K.armings self.old.disk).count < 2 ^ 32 }
        ensures armings { K.armings self.new.disk ≡ record { count = (K.armings self.old.disk).count + 1; last = Some arm } }
        ensures batches { (self.new.start ≡ self.old.start) × (self.new.batches ≡ self.old.batches) × (self.new.spare ≡ self.old.spare) }
        ensures content { K.content self.new.disk ≡ K.content self.old.disk }
        ensures time { StandsStill (K.moment self.old.disk) (K.moment self.new.disk) (K.image self.old.disk) (K.image self.new.disk) }
        ensures faults { K.faults self.new.disk ≡ K.faults self.old.disk }
        ensures honest { K.is_honest self.new.disk ≡ K.is_honest self.old.disk }
    {
        self.disk.arm(arm);
    }

    /// Ends the journal, and returns its disk.
    pub fn into_disk(self) -> K
        ensures disk { result ≡ self.disk }
        ensures settled { IsTrue (K.is_honest result) → IsSettled (K.content result) (K.image result (K.moment result)) self.start self.batches }
        ensures used { (K.allowance result).used ≤ 12 }
    {
        let Journal { disk, .. } = self;
        disk
    }
}
