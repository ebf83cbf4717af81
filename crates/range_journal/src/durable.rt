// How octets are written and synced.
ghost use Rattle.std.specs.Prelude.{◌≡◌, ◌+◌, ◌<◌, ◌≤◌, List, ℕ, length, IsTrue, OnOk};
ghost use Rattle.qkd_base.specs.Faults.{HasCause};
ghost use Rattle.disk_model.specs.Images.{Torn, Only, AtEachMoment, overlaid};
ghost use Rattle.disk_model.specs.Allowance.{after_write, after_sync};
ghost use Rattle.disk_model.specs.Calls.{MayWrite};
ghost use Rattle.range_journal.specs.Durable.{UsesTwo};

use disk_model::{Disk, DiskFailed};

/// Writes octets from a place on, over the old ones and past the end, and syncs. Before the call all must be synced.
pub fn write_synced<K: Disk>(disk: &mut K, at: u64, bytes: &[u8]) -> Result<(), DiskFailed>
    requires durable { IsTrue (K.is_honest disk.old) → Only (K.content disk.old) (K.image disk.old (K.moment disk.old)) }
    requires may { MayWrite (K.is_honest disk.old) (K.content disk.old) (K.allowance disk.old) at (length bytes.now) }
    requires used { (K.allowance disk.old).used < 15 }
    ensures written { IsTrue (K.is_honest disk.old) → OnOk result (K.content disk.new ≡ overlaid at bytes.now (K.content disk.old)) }
    ensures durable { IsTrue (K.is_honest disk.old) → OnOk result (Only (K.content disk.new) (K.image disk.new (K.moment disk.new))) }
    ensures moments { AtEachMoment K.moment K.image disk.old disk.new
        (λ c. IsTrue (K.is_honest disk.old) → Torn at (length bytes.now) (K.content disk.old) c) }
    ensures cause { HasCause (K.faults disk.old) (K.faults disk.new) result }
    ensures calm { OnOk result (K.faults disk.new ≡ K.faults disk.old) }
    ensures honest { K.is_honest disk.new ≡ K.is_honest disk.old }
    ensures allowance { UsesTwo (length bytes.now) (K.allowance disk.old) (K.allowance disk.new) }
    ensures armings { K.armings disk.new ≡ K.armings disk.old }
{
    disk.write_at(at, bytes)?;
    disk.sync()
}
