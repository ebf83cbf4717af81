// Starting a manager.
ghost use Rattle.std.specs.Prelude.{◌≡◌, ◌⊎◌, ◌≤◌, ℕ, false, List, IsTrue, IfOk, IfErr};
ghost use Rattle.disk_model.specs.Images.{AtEachMoment};
ghost use Rattle.declared_site.specs.SiteOf.{IsDeclared, site_of};
ghost use Rattle.journal_snapshot.specs.Standing.{IsKept};
ghost use Rattle.kme_node.specs.Holdings.{view};
ghost use Rattle.kme_journal.specs.Recovery.{GivesBack, IsAfter, IsLeft, IsRecovered, Leaves, LeavesOneKind, MayMove, Refuses, Stands, Stops, disk_in, is_stopped, why_of};

use crate::RecoverRefusal;
use crate::journal_reader::read_back;
use crate::start_checkpoint::put_due;
use declared_site::Site;
use disk_model::Disk;
use journal_snapshot::{Snapshots, open};
use kme_node::Node;
use qkd_base::NodeNo;
use range_journal::JournalRefusal;
use std::alloc::Global;

/// A manager that was recovered, and its journal. Replaying the journal's batches gives this manager.
#[derive(Drop)]
pub struct Recovered<K: Disk> {
    pub node: Node,
    pub journal: Snapshots<K>,
}

// Why a disk wasn't opened, as a refusal of the start.
fn why(refusal: JournalRefusal) -> RecoverRefusal
    ensures { result ≡ why_of refusal }
{
    match refusal {
        JournalRefusal::Disk => RecoverRefusal::Stopped,
        JournalRefusal::Foreign(place) => RecoverRefusal::Foreign(place),
        JournalRefusal::Memory => RecoverRefusal::Memory,
        JournalRefusal::JournalFull { .. } => RecoverRefusal::Memory,
    }
}

// Recovers a manager from a journal that is open.
fn go_on<K: Disk>(
    alloc: Global,
    journal: Snapshots<K>,
    site: &Site,
    me: NodeNo,
) -> Result<Recovered<K>, (RecoverRefusal, K)>
    requires { IsDeclared site.now }
    ensures site { IfOk result (λ r. r.node.site ≡ site.now) }
    ensures back { IfOk result (λ r. GivesBack (site_of site.now) me journal (view r.node)) }
    ensures left { IfOk result (λ r. IsLeft journal (view r.node) r.journal) }
    ensures told { IfOk result (λ r. GivesBack (site_of site.now) me r.journal (view r.node)) }
    ensures refused { IfErr result (λ e. Stops K.faults journal e.0 e.1) }
    ensures moments { AtEachMoment K.moment K.image journal.disk (disk_in result) (λ i. IsTrue (K.is_honest journal.disk) → Stands (site_of site.now) me journal (MayMove result) i) }
    ensures kept { IfOk result (λ r. IsTrue (K.is_honest r.journal.disk) → IsKept r.journal.live r.journal.batches (K.content r.journal.disk) (K.image r.journal.disk (K.moment r.journal.disk))) }
    ensures later { K.faults journal.disk ≤ K.faults (disk_in result) }
    ensures calm { IfOk result (λ r. K.faults r.journal.disk ≡ K.faults journal.disk) }
    ensures honest { K.is_honest (disk_in result) ≡ K.is_honest journal.disk }
    ensures armings { K.armings (disk_in result) ≡ K.armings journal.disk }
    ensures used { IfErr result (λ e. (K.allowance e.1).used ≤ 12) }
{
    journal.stands();
    // The contract of `length` also bounds the length of a journal.
    let _holds = journal.length();
    match read_back(
        alloc,
        site,
        me,
        journal.batches(),
        journal.version(),
        journal.start(),
    ) {
        Err(why) => Err((why, journal.into_disk())),
        Ok(node) => match put_due(alloc, &node, journal) {
            Err(refusal) => Err(refusal),
            Ok(journal) => Ok(Recovered { node, journal }),
        },
    }
}

/// Starts the manager of a node on its disk: replays its journal, and puts a checkpoint in place of the journal's
/// batches exactly if one is due. A blank disk gets a new journal. An `Err` gives the disk back.
pub fn recover<K: Disk>(
    alloc: Global,
    disk: K,
    site: &Site,
    me: NodeNo,
) -> Result<Recovered<K>, (RecoverRefusal, K)>
    requires site { IsDeclared site.now }
    requires used { (K.allowance disk).used ≤ 12 }
    ensures site { IfOk result (λ r. r.node.site ≡ site.now) }
    ensures reads { (read : List ℕ) × (IsTrue (K.is_honest disk) → K.image disk (K.moment disk) read)
        × IfOk result (λ r. IsRecovered (K.is_honest disk) read (site_of site.now) me (view r.node) r.journal)
        × IfErr result (λ e. Refuses (K.is_honest disk) read (K.faults disk) (K.faults e.1) e.0)
        × AtEachMoment K.moment K.image disk (disk_in result) (λ i. IsTrue (K.is_honest disk) → K.image disk (K.moment disk) i ⊎ IsAfter (site_of site.now) me result read i)
        × IfErr result (λ e. Leaves (K.is_honest disk) K.moment K.image read disk e.0 e.1)
        × IfErr result (λ e. IsTrue (K.is_honest disk) → LeavesOneKind (K.image disk (K.moment disk)) (K.image e.1 (K.moment e.1)) (site_of site.now) me result read) }

    // Replaying the journal that is left gives this manager, with a checkpoint or without.
    ensures told { IfOk result (λ r. GivesBack (site_of site.now) me r.journal (view r.node)) }

    // Afterwards an honest disk has exactly the batches of the journal, and a crash leaves nothing else.
    ensures kept { IfOk result (λ r. IsTrue (K.is_honest r.journal.disk) → IsKept r.journal.live r.journal.batches (K.content r.journal.disk) (K.image r.journal.disk (K.moment r.journal.disk))) }
    ensures later { K.faults disk ≤ K.faults (disk_in result) }
    ensures calm { is_stopped result ≡ false → K.faults (disk_in result) ≡ K.faults disk }
    ensures honest { K.is_honest (disk_in result) ≡ K.is_honest disk }
    ensures armings { K.armings (disk_in result) ≡ K.armings disk }
    ensures used { IfErr result (λ e. (K.allowance e.1).used ≤ 12) }
{
    match open(alloc, disk) {
        Err((refusal, disk)) => Err((why(refusal), disk)),
        Ok(journal) => go_on(alloc, journal, site, me),
    }
}
