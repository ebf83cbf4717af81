// Writing the batch of an event to the disk.
ghost use Rattle.std.specs.Prelude.{◌≡◌, ◌≤◌, ◌<◌, ◌+◌, ◌∷◌, ◌++◌, [], false, IsTrue, IsSome, IfOk, IfErr, length};
ghost use Rattle.qkd_base.specs.Faults.{Rose};
ghost use Rattle.disk_model.specs.Images.{AtEachMoment};
ghost use Rattle.net_model.specs.Journal.{journal_limit};
ghost use Rattle.range_journal.specs.Batches.{length_of};
ghost use Rattle.range_journal.specs.Header.{is_blank};
ghost use Rattle.journal_snapshot.specs.Standing.{HoldsOldOrOneMore, IsKept};
ghost use Rattle.kme_journal.specs.Drafts.{HasPlace, HasOctets, HoldsEither, with_octets, disk_left};

use disk_model::Disk;
use journal_snapshot::{SnapRefused, Snapshots};
use qkd_base::Octets;

// Appends octets to a journal that has memory for them.
fn append<K: Disk>(journal: Snapshots<K>, octets: &[u8]) -> Result<Snapshots<K>, K>
    requires some { 0 < length octets.now }
    requires spare { length octets.now ≤ journal.spare }
    requires within { length_of journal.live.start journal.batches + (length octets.now + 5) ≤ journal_limit }
    ensures added { IfOk result (λ new. (new.live ≡ journal.live) × (new.batches ≡ journal.batches ++ octets.now ∷ [])) }
    ensures stopped { IfErr result (λ disk. Rose (K.faults journal.disk) (K.faults disk)) }
    ensures moments { AtEachMoment K.moment K.image journal.disk (disk_left result) (λ i. IsTrue (K.is_honest journal.disk) → (is_blank i ≡ false) × HoldsOldOrOneMore journal.live journal.batches octets.now i) }
    ensures kept { IfOk result (λ new. IsTrue (K.is_honest new.disk) → IsKept new.live new.batches (K.content new.disk) (K.image new.disk (K.moment new.disk))) }
    ensures honest { K.is_honest (disk_left result) ≡ K.is_honest journal.disk }
    ensures later { K.faults journal.disk ≤ K.faults (disk_left result) }
    ensures calm { IfOk result (λ new. K.faults new.disk ≡ K.faults journal.disk) }
    ensures armings { K.armings (disk_left result) ≡ K.armings journal.disk }
    ensures used { (K.allowance (disk_left result)).used ≤ 12 }
{
    match journal.append(octets) {
        Ok(journal) => Ok(journal),
        Err(SnapRefused::Spent(disk)) => Err(disk),
        Err(SnapRefused::Kept(_, _)) => unreachable!(),
    }
}

/// Makes the batch of an event durable. If there is none, the disk isn't touched.
pub fn write<K: Disk>(journal: Snapshots<K>, body: Option<Octets>) -> Result<Snapshots<K>, K>
    requires some { HasOctets body }
    requires place { HasPlace journal body }
    ensures added { IfOk result (λ new. (new.live ≡ journal.live) × (new.batches ≡ with_octets journal.batches body)) }
    ensures stopped { IfErr result (λ disk. IsSome body × Rose (K.faults journal.disk) (K.faults disk)) }
    ensures moments { AtEachMoment K.moment K.image journal.disk (disk_left result) (λ i. IsTrue (K.is_honest journal.disk) → HoldsEither journal body i) }
    ensures kept { IfOk result (λ new. IsTrue (K.is_honest new.disk) → IsKept new.live new.batches (K.content new.disk) (K.image new.disk (K.moment new.disk))) }
    ensures honest { K.is_honest (disk_left result) ≡ K.is_honest journal.disk }
    ensures later { K.faults journal.disk ≤ K.faults (disk_left result) }
    ensures calm { IfOk result (λ new. K.faults new.disk ≡ K.faults journal.disk) }
    ensures armings { K.armings (disk_left result) ≡ K.armings journal.disk }
    ensures used { IfErr result (λ disk. (K.allowance disk).used ≤ 12) }
{
    match body {
        None => {
            journal.stands();
            Ok(journal)
        }
        Some(octets) => append(journal, octets.as_slice()),
    }
}
