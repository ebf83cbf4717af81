// How a journal is opened.
ghost use Rattle.std.specs.Prelude.{[], OnOk, true, false, not, nat_le, ◌&&◌, min, ◌≡◌, ◌≢◌, ◌⊎◌, ◌+◌, ◌<◌, ◌≤◌, ◌∷◌, ◌++◌, List, ℕ, length, drop, take, IsTrue, IfOk, IfErr};
ghost use Rattle.disk_model.specs.Images.{Only, StandsStill, AtEachMoment};
ghost use Rattle.range_journal.specs.Batches.{Stands, IsSettled};
ghost use Rattle.range_journal.specs.Closing.{IsReadOrClosing};
ghost use Rattle.range_journal.specs.Opening.{MayRead, MayOpen, Refuses, IsOpening, IsMadeNew, Opens, disk_in, is_refused_by_disk};
ghost use Rattle.qkd_base.specs.Faults.{Rose};
ghost use Rattle.disk_model.specs.Calls.{OnlyReads};
ghost use Rattle.range_journal.specs.Header.{is_new as is_new_text, is_blank, new_header, IsHeaded, StandsFor};
ghost use Rattle.range_journal.specs.Reading.{IsFaulty, StopsReading, has_failed};

use crate::batch_reader::read_batches;
use crate::durable::write_synced;
use crate::gate_close::close;
use crate::header::{BLANK, header_fault, is_new};
use crate::{Journal, JournalRefusal};
use disk_model::Disk;
use std::alloc::Global;

/// Opens the journal that begins at `start` on a synced disk of `size` octets. It reads the batches, and closes the gate
/// behind them unless it is closed. Errors: the disk fails, memory runs out, or the octets are no journal's.
pub fn open_sized<K: Disk>(
    alloc: Global,
    mut disk: K,
    start: u64,
    size: u64,
) -> Result<Journal<K>, (JournalRefusal, K)>
    requires { MayRead (K.is_honest disk) (K.content disk) (K.image disk (K.moment disk)) (K.allowance disk) start size }
    ensures opened { IfOk result (λ j. (j.start ≡ start) × (j.spare ≡ 0)) }
    ensures batches { IfOk result (λ j. IsTrue (K.is_honest disk) → Stands (take start (K.content disk)) j.batches (K.content disk)) }
    ensures settled { IfOk result (λ j. IsTrue (K.is_honest j.disk) → IsSettled (K.content j.disk) (K.image j.disk (K.moment j.disk)) j.start j.batches) }
    ensures front { IfOk result (λ j. IsTrue (K.is_honest j.disk) → take start (K.content j.disk) ≡ take start (K.content disk)) }
    ensures long { IfOk result (λ j. IsTrue (K.is_honest j.disk) → length (K.content j.disk) ≡ length (K.content disk)) }
    ensures cause { IfErr result (λ e. StopsReading (K.is_honest disk) (K.content disk) start (K.faults disk) (K.faults e.1) e.0) }
    ensures leaves { IfErr result (λ e. e.0 ≢ JournalRefusal.Disk → StandsStill (K.moment disk) (K.moment e.1) (K.image disk) (K.image e.1)) }
    ensures later { K.faults disk ≤ K.faults (disk_in result) }
    ensures calm { is_refused_by_disk result ≡ false → K.faults (disk_in result) ≡ K.faults disk }
    ensures moments { AtEachMoment K.moment K.image disk (disk_in result) (λ i. IsTrue (K.is_honest disk) → IsReadOrClosing start (K.content disk) i) }
    ensures honest { K.is_honest (disk_in result) ≡ K.is_honest disk }
    ensures used { (K.allowance (disk_in result)).used ≤ 12 }
    ensures armings { K.armings (disk_in result) ≡ K.armings disk }
{
    match read_batches(alloc, &mut disk, start, size) {
        Err(why) => Err((why, disk)),
        Ok(found) => match close(&mut disk, found.place, found.gate) {
            Err(_) => Err((JournalRefusal::Disk, disk)),
            Ok(()) => Ok(Journal::settled(alloc, disk, start, found.place + 1, found.batches)),
        },
    }
}

/// Gives a blank disk the head of a new journal. The only error is that the disk fails.
pub fn make_new<K: Disk>(alloc: Global, mut disk: K) -> Result<Journal<K>, (JournalRefusal, K)>
    requires may { MayOpen (K.is_honest disk) (K.content disk) (K.image disk (K.moment disk)) (K.allowance disk) (length (K.content disk)) }
    requires blank { IsTrue (K.is_honest disk) → is_blank (K.content disk) ≡ true }
    ensures opened { IfOk result (λ j. (j.start ≡ 16) × (j.spare ≡ 0) × (j.batches ≡ [])) }
    ensures settled { IfOk result (λ j. IsTrue (K.is_honest j.disk) → IsSettled (K.content j.disk) (K.image j.disk (K.moment j.disk)) j.start j.batches) }
    ensures head { IfOk result (λ j. IsTrue (K.is_honest j.disk) → take 16 (K.content j.disk) ≡ new_header) }
    ensures cause { IfErr result (λ e. (e.0 ≡ JournalRefusal.Disk) × Rose (K.faults disk) (K.faults e.1)) }
    ensures later { K.faults disk ≤ K.faults (disk_in result) }
    ensures calm { is_refused_by_disk result ≡ false → K.faults (disk_in result) ≡ K.faults disk }
    ensures moments { AtEachMoment K.moment K.image disk (disk_in result) (λ i. IsTrue (K.is_honest disk) → IsMadeNew (K.content disk) i) }
    ensures honest { K.is_honest (disk_in result) ≡ K.is_honest disk }
    ensures used { (K.allowance (disk_in result)).used ≤ 12 }
    ensures armings { K.armings (disk_in result) ≡ K.armings disk }
{
    match write_synced(&mut disk, 0, &BLANK) {
        Err(_) => Err((JournalRefusal::Disk, disk)),
        Ok(()) => Ok(Journal::settled(alloc, disk, 16, 17, Vec::new(alloc))),
    }
}

// Reads the first octets of a disk of `size` octets, at most 17.
fn read_head<K: Disk>(disk: &mut K, size: u64) -> Result<[u8; 17], JournalRefusal>
    requires { IsTrue (K.is_honest disk.old) → size ≡ length (K.content disk.old) }
    ensures head { IsTrue (K.is_honest disk.old) → IfOk result (λ h. take (min size 17) h ≡ take (min size 17) (K.content disk.old)) }
    ensures long { IfOk result (λ h. length h ≡ 17) }
    ensures cause { IfErr result (IsFaulty (K.faults disk.old) (K.faults disk.new)) }
    ensures calm { has_failed result ≡ false → K.faults disk.new ≡ K.faults disk.old }
    ensures reads { OnlyReads K.is_honest K.content K.moment K.image K.faults K.allowance K.armings disk.old disk.new }
{
    let mut head = [0; 17];
    let count = size.min(17) as usize;
    match disk.read(0, &mut head[..count]) {
        Err(_) => Err(JournalRefusal::Disk),
        Ok(()) => Ok(head),
    }
}

/// Whether a disk of `size` octets can't have held a batch. `front` are its first octets, up to 17.
pub fn looks_blank(size: u64, front: &[u8]) -> bool
    ensures { result ≡ (nat_le size 17 && not (is_new_text front.now)) }
{
    size <= 17 && !is_new(front)
}

// Opens the journal of a synced disk of `size` octets.
fn open_synced<K: Disk>(
    alloc: Global,
    mut disk: K,
    size: u64,
) -> Result<Journal<K>, (JournalRefusal, K)>
    requires { MayOpen (K.is_honest disk) (K.content disk) (K.image disk (K.moment disk)) (K.allowance disk) size }
    ensures opened { IfOk result (λ j. (j.start ≡ 16) × (j.spare ≡ 0)) }
    ensures batches { IfOk result (λ j. IsTrue (K.is_honest disk) → StandsFor (K.content disk) j.batches) }
    ensures settled { IfOk result (λ j. IsTrue (K.is_honest j.disk) → IsSettled (K.content j.disk) (K.image j.disk (K.moment j.disk)) j.start j.batches) }
    ensures head { IfOk result (λ j. IsTrue (K.is_honest j.disk) → IsHeaded (take 16 (K.content j.disk))) }
    ensures cause { IfErr result (λ e. Refuses (K.is_honest disk) (K.content disk) (K.faults disk) (K.faults e.1) e.0) }
    ensures leaves { IfErr result (λ e. e.0 ≢ JournalRefusal.Disk → StandsStill (K.moment disk) (K.moment e.1) (K.image disk) (K.image e.1)) }
    ensures later { K.faults disk ≤ K.faults (disk_in result) }
    ensures calm { is_refused_by_disk result ≡ false → K.faults (disk_in result) ≡ K.faults disk }
    ensures moments { AtEachMoment K.moment K.image disk (disk_in result) (λ i. IsTrue (K.is_honest disk) → IsOpening (K.content disk) i) }
    ensures honest { K.is_honest (disk_in result) ≡ K.is_honest disk }
    ensures used { (K.allowance (disk_in result)).used ≤ 12 }
    ensures armings { K.armings (disk_in result) ≡ K.armings disk }
{
    match read_head(&mut disk, size) {
        Err(why) => Err((why, disk)),
        Ok(head) => {
            let count = size.min(17) as usize;
            if looks_blank(size, &head[..count]) {
                return make_new(alloc, disk);
            }
            match header_fault(&head) {
                Some(place) => Err((JournalRefusal::Foreign(place), disk)),
                None => open_sized(alloc, disk, 16, size),
            }
        }
    }
}

/// Revives a disk after a crash: makes what the crash left durable, and returns its length in octets. The only error is that
/// the disk fails.
pub fn settle<K: Disk>(disk: &mut K) -> Result<u64, JournalRefusal>
    requires { (K.allowance disk.old).used < 16 }
    ensures image { IsTrue (K.is_honest disk.old) → K.image disk.old (K.moment disk.old) (K.content disk.new) }
    ensures long { IsTrue (K.is_honest disk.old) → IfOk result (λ n. n ≡ length (K.content disk.new)) }
    ensures durable { IsTrue (K.is_honest disk.old) → OnOk result (Only (K.content disk.new) (K.image disk.new (K.moment disk.new))) }
    ensures moments { AtEachMoment K.moment K.image disk.old disk.new (λ i. K.image disk.old (K.moment disk.old) i) }
    ensures cause { IfErr result (λ e. (e ≡ JournalRefusal.Disk) × Rose (K.faults disk.old) (K.faults disk.new)) }
    ensures later { K.faults disk.old ≤ K.faults disk.new }
    ensures calm { OnOk result (K.faults disk.new ≡ K.faults disk.old) }
    ensures honest { K.is_honest disk.new ≡ K.is_honest disk.old }
    ensures used { (K.allowance disk.new).used ≤ (K.allowance disk.old).used + 1 }
    ensures room { ((K.allowance disk.new).granted ≡ (K.allowance disk.old).granted) × ((K.allowance disk.new).reach ≡ (K.allowance disk.old).reach) × ((K.allowance disk.new).left ≡ (K.allowance disk.old).left) }
    ensures armings { K.armings disk.new ≡ K.armings disk.old }
{
    disk.revive();
    match disk.sync() {
        Err(_) => Err(JournalRefusal::Disk),
        Ok(()) => match disk.len() {
            Err(_) => Err(JournalRefusal::Disk),
            Ok(size) => Ok(size),
        },
    }
}

/// Opens the journal of a disk that a crash may have cut off at any moment. A blank disk gets a new journal. Errors: the disk
/// fails, memory runs out, or the octets are no journal's.
pub fn open<K: Disk>(alloc: Global, mut disk: K) -> Result<Journal<K>, (JournalRefusal, K)>
    requires { (K.allowance disk).used ≤ 12 }
    ensures reads { (read : List ℕ) × Opens K.is_honest K.content K.moment K.image K.faults disk result read }
    ensures leaves { IfErr result (λ e. e.0 ≢ JournalRefusal.Disk → (i : List ℕ) → K.image e.1 (K.moment e.1) i → K.image disk (K.moment disk) i) }
    ensures settled { IfOk result (λ j. IsTrue (K.is_honest j.disk) → IsSettled (K.content j.disk) (K.image j.disk (K.moment j.disk)) j.start j.batches) }
    ensures head { IfOk result (λ j. IsTrue (K.is_honest j.disk) → IsHeaded (take 16 (K.content j.disk))) }
    ensures later { K.faults disk ≤ K.faults (disk_in result) }
    ensures calm { is_refused_by_disk result ≡ false → K.faults (disk_in result) ≡ K.faults disk }
    ensures honest { K.is_honest (disk_in result) ≡ K.is_honest disk }
    ensures used { (K.allowance (disk_in result)).used ≤ 12 }
    ensures armings { K.armings (disk_in result) ≡ K.armings disk }
{
    match disk.room(17) {
        Err(_) => Err((JournalRefusal::Memory, disk)),
        Ok(()) => match settle(&mut disk) {
            Err(why) => Err((why, disk)),
            Ok(size) => open_synced(alloc, disk, size),
        },
    }
}

/// Opens the journal that begins at `start` on a synced disk. It asks the disk for its length, but neither revives the disk
/// nor gives it a head. Errors as for `open`.
pub fn open_at<K: Disk>(
    alloc: Global,
    mut disk: K,
    start: u64,
) -> Result<Journal<K>, (JournalRefusal, K)>
    requires durable { IsTrue (K.is_honest disk) → Only (K.content disk) (K.image disk (K.moment disk)) }
    requires room { IsTrue (K.allowance disk).granted × (1 ≤ (K.allowance disk).left) × ((K.allowance disk).used ≤ 10) }
    requires start { IsTrue (K.is_honest disk) → start ≤ length (K.content disk) }
    ensures opened { IfOk result (λ j. (j.start ≡ start) × (j.spare ≡ 0)) }
    ensures batches { IfOk result (λ j. IsTrue (K.is_honest disk) → Stands (take start (K.content disk)) j.batches (K.content disk)) }
    ensures settled { IfOk result (λ j. IsTrue (K.is_honest j.disk) → IsSettled (K.content j.disk) (K.image j.disk (K.moment j.disk)) j.start j.batches) }
    ensures front { IfOk result (λ j. IsTrue (K.is_honest j.disk) → take start (K.content j.disk) ≡ take start (K.content disk)) }
    ensures cause { IfErr result (λ e. StopsReading (K.is_honest disk) (K.content disk) start (K.faults disk) (K.faults e.1) e.0) }
    ensures leaves { IfErr result (λ e. e.0 ≢ JournalRefusal.Disk → StandsStill (K.moment disk) (K.moment e.1) (K.image disk) (K.image e.1)) }
    ensures later { K.faults disk ≤ K.faults (disk_in result) }
    ensures calm { is_refused_by_disk result ≡ false → K.faults (disk_in result) ≡ K.faults disk }
    ensures moments { AtEachMoment K.moment K.image disk (disk_in result) (λ i. IsTrue (K.is_honest disk) → IsReadOrClosing start (K.content disk) i) }
    ensures honest { K.is_honest (disk_in result) ≡ K.is_honest disk }
    ensures used { (K.allowance (disk_in result)).used ≤ 12 }
    ensures armings { K.armings (disk_in result) ≡ K.armings disk }
{
    match disk.len() {
        Err(_) => Err((JournalRefusal::Disk, disk)),
        Ok(size) => {
            if start > size {
                return Err((JournalRefusal::Foreign(size), disk));
            }
            open_sized(alloc, disk, start, size)
        }
    }
}
