// Opening the journal of a disk.
ghost use Rattle.std.specs.Prelude.{◌≡◌, ◌≢◌, ◌+◌, ◌<◌, ◌≤◌, ◌∷◌, [], List, ℕ, false, length, slice_index, min, nat_le, not, ◌&&◌, take, true, IsTrue, IfOk, IfErr};
ghost use Rattle.qkd_base.specs.Faults.{Rose};
ghost use Rattle.disk_model.specs.Calls.{OnlyReads};
ghost use Rattle.disk_model.specs.Images.{StandsStill, AtEachMoment};
ghost use Rattle.range_journal.specs.Header.{is_blank, is_new, IsHeaded};
ghost use Rattle.range_journal.specs.Opening.{MayOpen, is_refused_by_disk};
ghost use Rattle.range_journal.specs.Reading.{IsFaulty, has_failed};
ghost use Rattle.journal_snapshot.specs.Standing.{IsKept};
ghost use Rattle.journal_snapshot.specs.Opening.{disk_in, IsOpened, IsOpening, Opens, Refuses};

use crate::live::{has_open_mark, place_fault};
use crate::{Live, Snapshots};
use disk_model::Disk;
use range_journal::{JournalRefusal, header_fault, looks_blank, make_new, open_sized, settle};
use std::alloc::Global;

// Reads the first 50 octets of a disk. Octets that the disk doesn't have are 0.
fn read_head<K: Disk>(disk: &mut K, size: u64) -> Result<[u8; 50], JournalRefusal>
    requires { IsTrue (K.is_honest disk.old) → size ≡ length (K.content disk.old) }
    ensures head { IsTrue (K.is_honest disk.old) → IfOk result (λ h. (k : ℕ) → k < 50 → slice_index h k ≡ slice_index (K.content disk.old) k) }
    ensures long { IfOk result (λ h. length h ≡ 50) }
    ensures cause { IfErr result (IsFaulty (K.faults disk.old) (K.faults disk.new)) }
    ensures calm { has_failed result ≡ false → K.faults disk.new ≡ K.faults disk.old }
    ensures reads { OnlyReads K.is_honest K.content K.moment K.image K.faults K.allowance K.armings disk.old disk.new }
{
    let mut head = [0; 50];
    let count = size.min(50) as usize;
    match disk.read(0, &mut head[..count]) {
        Err(_) => Err(JournalRefusal::Disk),
        Ok(()) => Ok(head),
    }
}

// Opens the live area that these first octets say.
fn open_live<K: Disk>(
    alloc: Global,
    disk: K,
    head: &[u8],
    size: u64,
) -> Result<Snapshots<K>, (JournalRefusal, K)>
    requires may { MayOpen (K.is_honest disk) (K.content disk) (K.image disk (K.moment disk)) (K.allowance disk) size }
    requires long { length head.now ≡ 50 }
    requires some { 17 ≤ size }
    requires head { IsTrue (K.is_honest disk) → (k : ℕ) → k < 50 → slice_index head.now k ≡ slice_index (K.content disk) k }
    requires plain { IsTrue (K.is_honest disk) → is_blank (K.content disk) ≡ false }
    requires named { IsTrue (K.is_honest disk) → IsHeaded (K.content disk) }
    ensures opened { IfOk result (λ s. s.spare ≡ 0) }
    ensures batches { IfOk result (λ s. IsTrue (K.is_honest disk) → IsOpened (K.content disk) s.live s.batches) }
    ensures kept { IfOk result (λ s. IsTrue (K.is_honest s.disk) → IsKept s.live s.batches (K.content s.disk) (K.image s.disk (K.moment s.disk))) }
    ensures cause { IfErr result (λ e. Refuses (K.is_honest disk) (K.content disk) (K.faults disk) (K.faults e.1) e.0) }
    ensures leaves { IfErr result (λ e. e.0 ≢ JournalRefusal.Disk → StandsStill (K.moment disk) (K.moment e.1) (K.image disk) (K.image e.1)) }
    ensures later { K.faults disk ≤ K.faults (disk_in result) }
    ensures calm { is_refused_by_disk result ≡ false → K.faults (disk_in result) ≡ K.faults disk }
    ensures moments { AtEachMoment K.moment K.image disk (disk_in result) (λ i. IsTrue (K.is_honest disk) → IsOpening (K.content disk) i) }
    ensures honest { K.is_honest (disk_in result) ≡ K.is_honest disk }
    ensures used { (K.allowance (disk_in result)).used ≤ 12 }
    ensures armings { K.armings (disk_in result) ≡ K.armings disk }
{
    let live = Live::read(head);
    match place_fault(head, live, size) {
        Some(place) => Err((JournalRefusal::Foreign(place), disk)),
        None => match open_sized(alloc, disk, live.start, size) {
            Err(why) => Err(why),
            Ok(journal) => Ok(Snapshots::over(
                alloc,
                journal,
                live,
                has_open_mark(head, live.area),
            )),
        },
    }
}

// Opens a blank disk.
fn open_new<K: Disk>(alloc: Global, disk: K) -> Result<Snapshots<K>, (JournalRefusal, K)>
    requires may { MayOpen (K.is_honest disk) (K.content disk) (K.image disk (K.moment disk)) (K.allowance disk) (length (K.content disk)) }
    requires blank { IsTrue (K.is_honest disk) → is_blank (K.content disk) ≡ true }
    ensures opened { IfOk result (λ s. s.spare ≡ 0) }
    ensures batches { IfOk result (λ s. IsTrue (K.is_honest disk) → IsOpened (K.content disk) s.live s.batches) }
    ensures kept { IfOk result (λ s. IsTrue (K.is_honest s.disk) → IsKept s.live s.batches (K.content s.disk) (K.image s.disk (K.moment s.disk))) }
    ensures cause { IfErr result (λ e. (e.0 ≡ JournalRefusal.Disk) × Rose (K.faults disk) (K.faults e.1)) }
    ensures later { K.faults disk ≤ K.faults (disk_in result) }
    ensures calm { is_refused_by_disk result ≡ false → K.faults (disk_in result) ≡ K.faults disk }
    ensures moments { AtEachMoment K.moment K.image disk (disk_in result) (λ i. IsTrue (K.is_honest disk) → IsOpening (K.content disk) i) }
    ensures honest { K.is_honest (disk_in result) ≡ K.is_honest disk }
    ensures used { (K.allowance (disk_in result)).used ≤ 12 }
    ensures armings { K.armings (disk_in result) ≡ K.armings disk }
{
    match make_new(alloc, disk) {
        Err(why) => Err(why),
        Ok(journal) => Ok(Snapshots::over(alloc, journal, Live::new(), false)),
    }
}

// Opens a synced disk of `size` octets.
fn open_synced<K: Disk>(
    alloc: Global,
    mut disk: K,
    size: u64,
) -> Result<Snapshots<K>, (JournalRefusal, K)>
    requires { MayOpen (K.is_honest disk) (K.content disk) (K.image disk (K.moment disk)) (K.allowance disk) size }
    ensures opened { IfOk result (λ s. s.spare ≡ 0) }
    ensures batches { IfOk result (λ s. IsTrue (K.is_honest disk) → IsOpened (K.content disk) s.live s.batches) }
    ensures kept { IfOk result (λ s. IsTrue (K.is_honest s.disk) → IsKept s.live s.batches (K.content s.disk) (K.image s.disk (K.moment s.disk))) }
    ensures cause { IfErr result (λ e. Refuses (K.is_honest disk) (K.content disk) (K.faults disk) (K.faults e.1) e.0) }
    ensures leaves { IfErr result (λ e. e.0 ≢ JournalRefusal.Disk → StandsStill (K.moment disk) (K.moment e.1) (K.image disk) (K.image e.1)) }
    ensures later { K.faults disk ≤ K.faults (disk_in result) }
    ensures calm { is_refused_by_disk result ≡ false → K.faults (disk_in result) ≡ K.faults disk }
    ensures moments { AtEachMoment K.moment K.image disk (disk_in result) (λ i. IsTrue (K.is_honest disk) → IsOpening (K.content disk) i) }
    ensures honest { K.is_honest (disk_in result) ≡ K.is_honest disk }
    ensures used { (K.allowance (disk_in result)).used ≤ 12 }
    ensures armings { K.armings (disk_in result) ≡ K.armings disk }
{
    match read_head(&mut disk, size) {
        Err(why) => Err((why, disk)),
        Ok(head) => {
            let count = size.min(17) as usize;
            if looks_blank(size, &head[..count]) {
                return open_new(alloc, disk);
            }
            match header_fault(&head) {
                Some(place) => Err((JournalRefusal::Foreign(place), disk)),
                None => open_live(alloc, disk, &head, size),
            }
        }
    }
}

/// Opens the journal of a disk, which a crash may have cut at any moment. A blank disk gets a new journal, with records of
/// version 2.
pub fn open<K: Disk>(alloc: Global, mut disk: K) -> Result<Snapshots<K>, (JournalRefusal, K)>
    requires { (K.allowance disk).used ≤ 12 }
    ensures reads { (read : List ℕ) × Opens K.is_honest K.moment K.image K.faults disk result read }

    // A refusal leaves the disk's images as they were, unless the disk failed.
    ensures leaves { IfErr result (λ e. e.0 ≢ JournalRefusal.Disk → (i : List ℕ) → K.image e.1 (K.moment e.1) i → K.image disk (K.moment disk) i) }
    ensures kept { IfOk result (λ s. IsTrue (K.is_honest s.disk) → IsKept s.live s.batches (K.content s.disk) (K.image s.disk (K.moment s.disk))) }
    ensures later { K.faults disk ≤ K.faults (disk_in result) }
    ensures calm { is_refused_by_disk result ≡ false → K.faults (disk_in result) ≡ K.faults disk }
    ensures honest { K.is_honest (disk_in result) ≡ K.is_honest disk }
    ensures used { (K.allowance (disk_in result)).used ≤ 12 }
    ensures armings { K.armings (disk_in result) ≡ K.armings disk }
{
    match disk.room(17) {
        Err(_) => Err((JournalRefusal::Memory, disk)),
        Ok(()) => match settle(&mut disk) {
            Err(why) => Err((why, disk)),
            Ok(size) => open_synced(alloc, disk, size),
        },
    }
}
