// An open journal with checkpoints.
ghost use Rattle.std.specs.Prelude.{◌≡◌, ◌⊎◌, ◌+◌, ◌-◌, ◌<◌, ◌≤◌, ◌^◌, ◌&&◌, ◌++◌, ◌∷◌, [], List, ℕ, length, take, Some, false, true, if◌then◌else◌, nat_le, nat_lt, min, IsTrue, IfOk, OnOk, OnErr};
ghost use Rattle.qkd_base.specs.Faults.{Rose};
ghost use Rattle.disk_model.specs.Images.{StandsStill, AtEachMoment};
ghost use Rattle.net_model.specs.Journal.{checkpoint_place, checkpointed};
ghost use Rattle.range_journal.specs.Batches.{length_of};
ghost use Rattle.range_journal.specs.Header.{is_blank};
ghost use Rattle.range_journal.specs.Journal.{most};
ghost use Rattle.journal_snapshot.specs.Layout.{is_moved, has_open_mark};
ghost use Rattle.journal_snapshot.specs.Standing.{Holds, HoldsOldOrOneMore, IsKept};
ghost use Rattle.journal_snapshot.specs.Snapshots.{journal_of, need_of, fits_in, moved_to};
ghost use Rattle.journal_snapshot.specs.Checkpoint.{HasRoom, IsReady, IsStage};
ghost use Rattle.journal_snapshot.specs.Refused.{disk_after, IsAnswer, IsMoved, IsFinished, is_full, is_memory, is_spent, place_of};

use crate::checkpoint::{Draft, write_checkpoint};
use crate::place::{begins, goes_before, is_within};
use crate::{Area, Live};
use disk_model::{Arm, Disk};
use qkd_base::{Memory, Octets};
use range_journal::{Journal, JournalRefusal, Refused};
use std::alloc::Global;
use std::marker::Model;

/// An open journal with checkpoints: its live area and its batches, which are all on the disk.
#[derive(Drop)]
pub struct Snapshots<K: Disk> {
    alloc: Global,
    journal: Journal<K>,
    live: Live,
    // Whether the slot of the next checkpoint has an open mark.
    older: bool,
}

/// What remains after a batch wasn't appended or a checkpoint wasn't made.
#[derive(Drop)]
pub enum SnapRefused<K: Disk> {
    /// The journal, unchanged.
    Kept(JournalRefusal, Snapshots<K>),
    /// The disk, which failed. It must be opened again.
    Spent(K),
}

impl<K: Disk> Model for Snapshots<K> {
    ghost use Rattle.journal_snapshot.specs.Snapshots.{SnapshotForm};

    ghost Value = { SnapshotForm K };

    ghost use Rattle.journal_snapshot.specs.Snapshots.{IsSound};

    ghost view = { λ s. record { disk = s.journal.disk; live = s.live; batches = s.journal.batches; spare = s.journal.spare } };

    ghost invariant = { λ s. IsSound (K.is_honest s.journal.disk) (K.content s.journal.disk) (K.image s.journal.disk (K.moment s.journal.disk)) s.journal.start s.journal.batches s.live s.older };
}

// Writes a checkpoint whose memory was allocated before.
fn finish<K: Disk>(
    alloc: Global,
    journal: Journal<K>,
    live: Live,
    older: bool,
    draft: Draft,
    at: u64,
    place: u64,
    need: u64,
) -> Result<Snapshots<K>, SnapRefused<K>>
    requires ready { IsTrue (K.is_honest journal.disk) → IsReady live older at draft.block.items place draft.batches.items (K.content journal.disk) (K.image journal.disk (K.moment journal.disk)) }
    requires room { HasRoom (K.allowance journal.disk) (at + length draft.block.items) (length draft.block.items) }
    requires limit { place + need ≤ 2 ^ 25 }
    requires need { need ≡ need_of draft.batches.items }
    requires small { live.generation < 2 ^ 64 - 1 }
    ensures answer { IsFinished live draft.batches.items place result }
    ensures spent { IsTrue (is_spent result) → Rose (K.faults journal.disk) (K.faults (disk_after result)) }
    ensures later { K.faults journal.disk ≤ K.faults (disk_after result) }
    ensures calm { is_spent result ≡ false → K.faults (disk_after result) ≡ K.faults journal.disk }
    ensures moments { AtEachMoment K.moment K.image journal.disk (disk_after result) (λ i. IsTrue (K.is_honest journal.disk) → IsStage live older at draft.block.items place (K.content journal.disk) i) }
    ensures kept { IfOk result (λ new. IsTrue (K.is_honest new.disk) → IsKept new.live new.batches (K.content new.disk) (K.image new.disk (K.moment new.disk))) }
    ensures honest { K.is_honest (disk_after result) ≡ K.is_honest journal.disk }
    ensures used { (K.allowance (disk_after result)).used ≤ 12 }
    ensures armings { K.armings (disk_after result) ≡ K.armings journal.disk }
{
    let Draft { block, batches } = draft;
    let mut disk = journal.into_disk();
    match write_checkpoint(&mut disk, live, older, at, &block, place) {
        Err(_) => Err(SnapRefused::Spent(disk)),
        Ok(()) => Ok(Snapshots {
            alloc,
            journal: Journal::settled(alloc, disk, place, place + need, batches),
            live: live.moved_to(place),
            older: live.area.is_slot(),
        }),
    }
}

impl<K: Disk> Snapshots<K> {
    // The journal in this live area of its disk.
    pub(crate) fn over(alloc: Global, journal: Journal<K>, live: Live, older: bool) -> Self
        requires at { journal.start ≡ live.start }
        requires kept { IsTrue (K.is_honest journal.disk) → IsKept live journal.batches (K.content journal.disk) (K.image journal.disk (K.moment journal.disk)) }
        requires mark { IsTrue (K.is_honest journal.disk) → has_open_mark (K.content journal.disk) live.area ≡ older }
        ensures { result ≡ record { disk = journal.disk; live = live; batches = journal.batches; spare = journal.spare } }
    {
        Snapshots {
            alloc,
            journal,
            live,
            older,
        }
    }

    /// The batches in order.
    pub fn batches(&self) -> &[Octets]
        ensures { result.now ≡ self.now.batches }
    {
        self.journal.batches()
    }

    /// The length of the journal: the place after the closed gate.
    pub fn length(&self) -> u64
        ensures { result ≡ (journal_of self.now).length' }
    {
        self.journal.length()
    }

    /// Where the live area starts.
    pub fn start(&self) -> u64
        ensures { result ≡ (journal_of self.now).start }
    {
        self.live.start
    }

    /// How many checkpoints were made after the first one.
    pub fn generation(&self) -> u64
        ensures { result ≡ (journal_of self.now).generation }
    {
        self.live.generation
    }

    /// The journal's invariant: an honest disk has exactly these batches, and its content is the only image.
    pub fn stands(&self)
        ensures { IsTrue (K.is_honest self.now.disk) → IsKept self.now.live self.now.batches (K.content self.now.disk) (K.image self.now.disk (K.moment self.now.disk)) }
    {
        // Reading the field shows the invariant.
        let _holds = self.live;
    }

    /// Whether a checkpoint was ever made on this disk.
    pub fn is_moved(&self) -> bool
        ensures { result ≡ (journal_of self.now).moved }
    {
        self.live.area != Area::Header
    }

    /// The version of the records in the live area.
    pub fn version(&self) -> u8
        ensures { result ≡ (journal_of self.now).version }
    {
        self.live.version
    }

    /// How many octets a checkpoint with these batches takes, at most 2^64 - 1.
    pub fn need(&self, batches: &[Octets]) -> u64
        ensures { result ≡ min (need_of batches.now) (2 ^ 64 - 1) }
    {
        let mut need = 1u64;
        for batch in batches {
            need = need.saturating_add(5).saturating_add(batch.len() as u64);
        }
        need
    }

    // Where a checkpoint of `need` octets is written.
    fn place(&self, need: u64) -> u64
        ensures { result ≡ checkpoint_place (journal_of self.now) need }
    {
        if goes_before(self.is_moved(), self.start(), need) {
            50
        } else {
            self.length().max(50)
        }
    }

    /// Whether a checkpoint with these batches can be made: the journal stays within its greatest length, and the next
    /// generation is in range.
    pub fn fits(&self, batches: &[Octets]) -> bool
        ensures { result ≡ fits_in (journal_of self.now) (need_of batches.now) }
    {
        let need = self.need(batches);
        is_within(need, self.place(need), self.generation())
    }

    /// Allocates the memory for an append of `body` octets. Otherwise it changes nothing.
    pub fn room(&mut self, body: u32) -> Result<(), Memory>
        ensures spare { OnOk result ((body ≤ self.new.spare) × (self.old.spare ≤ self.new.spare)) }
        ensures err { OnErr result (self.new ≡ self.old) }
        ensures batches { (self.new.live ≡ self.old.live) × (self.new.batches ≡ self.old.batches) }
        ensures content { K.content self.new.disk ≡ K.content self.old.disk }
        ensures time { StandsStill (K.moment self.old.disk) (K.moment self.new.disk) (K.image self.old.disk) (K.image self.new.disk) }
        ensures faults { K.faults self.new.disk ≡ K.faults self.old.disk }
        ensures honest { K.is_honest self.new.disk ≡ K.is_honest self.old.disk }
        ensures armings { K.armings self.new.disk ≡ K.armings self.old.disk }
    {
        self.journal.room(body)
    }

    /// Arms the disk: sets the fault that it is to have.
    pub fn arm(&mut self, arm: Arm)
        requires { (K.armings self.old.disk).count < 2 ^ 32 }
        ensures armings { K.armings self.new.disk ≡ record { count = (K.armings self.old.disk).count + 1; last = Some arm } }
        ensures batches { (self.new.live ≡ self.old.live) × (self.new.batches ≡ self.old.batches) × (self.new.spare ≡ self.old.spare) }
        ensures content { K.content self.new.disk ≡ K.content self.old.disk }
        ensures time { StandsStill (K.moment self.old.disk) (K.moment self.new.disk) (K.image self.old.disk) (K.image self.new.disk) }
        ensures faults { K.faults self.new.disk ≡ K.faults self.old.disk }
        ensures honest { K.is_honest self.new.disk ≡ K.is_honest self.old.disk }
    {
        self.journal.arm(arm);
    }

    /// Appends a batch. After `Ok` the batch is on the disk.
    pub fn append(self, batch: &[u8]) -> Result<Snapshots<K>, SnapRefused<K>>
        ensures answer { IsAnswer self batch.now result }
        ensures full { is_full result ≡ nat_lt most (length_of self.live.start self.batches + (length batch.now + 5)) }
        ensures memory { 0 < length batch.now → length batch.now ≤ self.spare → is_memory result ≡ false }
        ensures spent { IsTrue (is_spent result) → Rose (K.faults self.disk) (K.faults (disk_after result)) }
        ensures later { K.faults self.disk ≤ K.faults (disk_after result) }
        ensures calm { is_spent result ≡ false → K.faults (disk_after result) ≡ K.faults self.disk }
        ensures moments { AtEachMoment K.moment K.image self.disk (disk_after result) (λ i. IsTrue (K.is_honest self.disk) → (is_blank i ≡ false) × HoldsOldOrOneMore self.live self.batches batch.now i) }
        ensures kept { IfOk result (λ new. IsTrue (K.is_honest new.disk) → IsKept new.live new.batches (K.content new.disk) (K.image new.disk (K.moment new.disk))) }
        ensures honest { K.is_honest (disk_after result) ≡ K.is_honest self.disk }
        ensures used { (K.allowance (disk_after result)).used ≤ 12 }
        ensures armings { K.armings (disk_after result) ≡ K.armings self.disk }
    {
        let Snapshots {
            alloc,
            journal,
            live,
            older,
        } = self;
        match journal.append(batch) {
            Ok(journal) => Ok(Snapshots {
                alloc,
                journal,
                live,
                older,
            }),
            Err(Refused::Kept(why, journal)) => Err(SnapRefused::Kept(
                why,
                Snapshots {
                    alloc,
                    journal,
                    live,
                    older,
                },
            )),
            Err(Refused::Spent(disk)) => Err(SnapRefused::Spent(disk)),
        }
    }

    /// Replaces all batches by these ones. It writes them to a new area and leaves the live area alone until the new one is
    /// complete. The records must be of version 2.
    pub fn checkpoint(self, batches: &[Octets]) -> Result<Snapshots<K>, SnapRefused<K>>
        requires { fits_in (journal_of self) (need_of batches.now) ≡ true }
        ensures answer { IsMoved self batches.now result }
        ensures journal { IfOk result (λ new. journal_of new ≡ checkpointed (journal_of self) (need_of batches.now)) }
        ensures spent { IsTrue (is_spent result) → Rose (K.faults self.disk) (K.faults (disk_after result)) }
        ensures later { K.faults self.disk ≤ K.faults (disk_after result) }
        ensures calm { is_spent result ≡ false → K.faults (disk_after result) ≡ K.faults self.disk }
        ensures moments { AtEachMoment K.moment K.image self.disk (disk_after result)
            (λ i. IsTrue (K.is_honest self.disk) → Holds self.live self.batches [] i ⊎ Holds (moved_to self.live (place_of self batches.now)) batches.now [] i) }
        ensures kept { IfOk result (λ new. IsTrue (K.is_honest new.disk) → IsKept new.live new.batches (K.content new.disk) (K.image new.disk (K.moment new.disk))) }
        ensures honest { K.is_honest (disk_after result) ≡ K.is_honest self.disk }
        ensures used { (K.allowance (disk_after result)).used ≤ 12 }
        ensures armings { K.armings (disk_after result) ≡ K.armings self.disk }
    {
        let need = self.need(batches);
        let place = self.place(need);
        let at = begins(self.length(), place);
        let Snapshots {
            alloc,
            mut journal,
            live,
            older,
        } = self;
        match Draft::prepared(alloc, &mut journal, batches, at, place) {
            Err(Memory) => Err(SnapRefused::Kept(
                JournalRefusal::Memory,
                Snapshots {
                    alloc,
                    journal,
                    live,
                    older,
                },
            )),
            Ok(draft) => finish(alloc, journal, live, older, draft, at, place, need),
        }
    }

    /// Returns the disk.
    pub fn into_disk(self) -> K
        ensures disk { result ≡ self.disk }
        ensures kept { IsTrue (K.is_honest result) → IsKept self.live self.batches (K.content result) (K.image result (K.moment result)) }
        ensures used { (K.allowance result).used ≤ 12 }
    {
        let Snapshots { journal, .. } = self;
        journal.into_disk()
    }
}
