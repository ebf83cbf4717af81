// A manager that is started on its disk.
ghost use Rattle.std.specs.Prelude.{◌≡◌, ◌≤◌, Result};
ghost use Rattle.declared_site.specs.SiteOf.{IsDeclared, site_of};
ghost use Rattle.kme_journal.specs.declared.manager_recovery.Recovered.{Recovered as RecoveredValue};
ghost use Rattle.kme_journal.specs.declared.refusal.RecoverRefusal.{RecoverRefusal as RefusalValue};
ghost use Rattle.kme_store.specs.Start.{IsOver, Recovers};

use crate::Manager;
use declared_site::Site;
use disk_model::Disk;
use kme_journal::{RecoverRefusal, Recovered, recover as read_back};
use qkd_base::NodeNo;
use source_devices::Entropy;
use std::alloc::Global;

/// Starts the manager of a node on its disk: its journal is replayed, and a checkpoint takes the place of the
/// journal's batches exactly if one is due. A blank disk gets a new journal. An `Err` gives the disk and the entropy
/// back.
pub fn recover<K: Disk + Drop, E: Entropy>(
    alloc: Global,
    disk: K,
    entropy: E,
    site: &Site,
    me: NodeNo,
) -> Result<Manager<K, E>, (RecoverRefusal, K, E)>
    requires site { IsDeclared site.now }
    requires used { (K.allowance disk).used ≤ 12 }
    ensures { (back : Result (RecoveredValue K) (RefusalValue × K)) × IsOver back entropy result
        × Recovers K.Disk site.now me disk back }
{
    match read_back(alloc, disk, site, me) {
        Err((refusal, disk)) => Err((refusal, disk, entropy)),
        Ok(Recovered { node, journal }) => Ok(Manager::new(alloc, node, journal, entropy)),
    }
}
