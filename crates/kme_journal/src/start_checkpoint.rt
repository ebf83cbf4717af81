// Checkpoints at a start.
ghost use Rattle.std.specs.Prelude.{◌≡◌, ◌≤◌, ◌==◌, ◌&&◌, ◌||◌, not, nat_le, true, IsTrue, IfOk, IfErr};
ghost use Rattle.std.specs.List.{All};
ghost use Rattle.qkd_base.specs.Faults.{Rose};
ghost use Rattle.disk_model.specs.Images.{AtEachMoment};
ghost use Rattle.net_model.specs.Journal.{checkpoint_batches, checkpoint_need, checkpoint_place, is_checkpoint_due};
ghost use Rattle.journal_records.specs.Grammar.{IsBatch};
ghost use Rattle.journal_records.specs.declared.version.Version.TheVariants.{Second};
ghost use Rattle.journal_snapshot.specs.Snapshots.{journal_of, need_of, fits_in};
ghost use Rattle.journal_snapshot.specs.Standing.{IsKept};
ghost use Rattle.journal_snapshot.specs.Refused.{place_of};
ghost use Rattle.kme_node.specs.Holdings.{view};
ghost use Rattle.kme_journal.specs.Formed.{IsFormed};
ghost use Rattle.kme_journal.specs.Putting.{HoldsEither, IsPut, IsStopped, checkpoint_bodies, disk_of};

use crate::{RecoverRefusal, checkpoint_batches};
use disk_model::Disk;
use journal_snapshot::{SnapRefused, Snapshots};
use kme_node::Node;
use qkd_base::Octets;
use std::alloc::Global;

// Whether a journal is so long or so old that a checkpoint is due, if one fits. An empty journal of version 1 is that
// of a new disk.
fn is_ripe(length: u64, version: u8) -> bool
    ensures { result ≡ (not ((length == 0) || ((version == 1) && (length == 17))) && (nat_le 65536 length || (version == 1))) }
{
    let is_blank = length == 0 || (version == 1 && length == 17);
    !is_blank && (65_536 <= length || version == 1)
}

// Puts a checkpoint in place of the journal's batches, if it fits.
fn put<K: Disk>(
    journal: Snapshots<K>,
    bodies: &[Octets],
) -> Result<Snapshots<K>, (RecoverRefusal, K)>
    ensures put { IfOk result (IsPut (fits_in (journal_of journal) (need_of bodies.now)) journal bodies.now) }
    ensures refused { IfErr result (λ e. IsStopped journal.disk (Rose (K.faults journal.disk) (K.faults e.1)) e.0 e.1) }
    ensures moments { AtEachMoment K.moment K.image journal.disk (disk_of result)
        (λ i. IsTrue (K.is_honest journal.disk) → HoldsEither (fits_in (journal_of journal) (need_of bodies.now)) (Unit {0}) journal.live journal.batches (place_of journal bodies.now) bodies.now i) }
    ensures kept { IfOk result (λ new. IsTrue (K.is_honest new.disk) → IsKept new.live new.batches (K.content new.disk) (K.image new.disk (K.moment new.disk))) }
    ensures later { K.faults journal.disk ≤ K.faults (disk_of result) }
    ensures calm { IfOk result (λ new. K.faults new.disk ≡ K.faults journal.disk) }
    ensures honest { K.is_honest (disk_of result) ≡ K.is_honest journal.disk }
    ensures armings { K.armings (disk_of result) ≡ K.armings journal.disk }
    ensures used { IfErr result (λ e. (K.allowance e.1).used ≤ 12) }
{
    journal.stands();
    if !journal.fits(bodies) {
        return Ok(journal);
    }
    match journal.checkpoint(bodies) {
        Ok(journal) => Ok(journal),
        Err(SnapRefused::Kept(_, journal)) => Err((RecoverRefusal::Memory, journal.into_disk())),
        Err(SnapRefused::Spent(disk)) => Err((RecoverRefusal::Stopped, disk)),
    }
}

/// Puts a checkpoint of a manager in place of its journal's batches, exactly if one is due.
pub fn put_due<K: Disk>(
    alloc: Global,
    node: &Node,
    journal: Snapshots<K>,
) -> Result<Snapshots<K>, (RecoverRefusal, K)>
    requires { IsFormed (view node.now) }
    ensures put { IfOk result (IsPut (is_checkpoint_due (journal_of journal) (checkpoint_need (view node.now))) journal (checkpoint_bodies (view node.now))) }
    ensures spelled { IfOk result (λ new. is_checkpoint_due (journal_of journal) (checkpoint_need (view node.now)) ≡ true → All (IsBatch Second) (checkpoint_batches (view node.now))) }
    ensures refused { IfErr result (λ e. IsStopped journal.disk (Rose (K.faults journal.disk) (K.faults e.1)) e.0 e.1) }
    ensures moments { AtEachMoment K.moment K.image journal.disk (disk_of result)
        (λ i. IsTrue (K.is_honest journal.disk) → HoldsEither (is_checkpoint_due (journal_of journal) (checkpoint_need (view node.now))) (All (IsBatch Second) (checkpoint_batches (view node.now))) journal.live journal.batches
        (checkpoint_place (journal_of journal) (checkpoint_need (view node.now))) (checkpoint_bodies (view node.now)) i) }
    ensures kept { IfOk result (λ new. IsTrue (K.is_honest new.disk) → IsKept new.live new.batches (K.content new.disk) (K.image new.disk (K.moment new.disk))) }
    ensures later { K.faults journal.disk ≤ K.faults (disk_of result) }
    ensures calm { IfOk result (λ new. K.faults new.disk ≡ K.faults journal.disk) }
    ensures honest { K.is_honest (disk_of result) ≡ K.is_honest journal.disk }
    ensures armings { K.armings (disk_of result) ≡ K.armings journal.disk }
    ensures used { IfErr result (λ e. (K.allowance e.1).used ≤ 12) }
{
    journal.stands();
    if !is_ripe(journal.length(), journal.version()) {
        return Ok(journal);
    }
    match checkpoint_batches(alloc, node) {
        Err(_) => Err((RecoverRefusal::Memory, journal.into_disk())),
        Ok(bodies) => put(journal, &bodies),
    }
}
