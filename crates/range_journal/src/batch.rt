// How one batch is written to a disk.
ghost use Rattle.std.specs.Prelude.{◌≡◌, ◌+◌, ◌-◌, ◌<◌, ◌≤◌, List, ℕ, length, IsTrue, OnOk};
ghost use Rattle.qkd_base.specs.Faults.{HasCause};
ghost use Rattle.disk_model.specs.Images.{Only, AtEachMoment};
ghost use Rattle.range_journal.specs.Batches.{gated, IsHalfWritten};
ghost use Rattle.range_journal.specs.Durable.{HasRoom};

use crate::durable::write_synced;
use disk_model::{Disk, DiskFailed};

/// Writes a block from a place on, behind a closed gate, and syncs. Then it opens that gate and syncs again. The only error
/// is that the disk fails.
pub fn write_batch<K: Disk>(disk: &mut K, place: u64, block: &[u8]) -> Result<(), DiskFailed>
    requires gate { 1 ≤ place }
    requires content { IsTrue (K.is_honest disk.old) → place ≤ length (K.content disk.old) }
    requires durable { IsTrue (K.is_honest disk.old) → Only (K.content disk.old) (K.image disk.old (K.moment disk.old)) }
    requires some { 5 ≤ length block.now }
    requires room { HasRoom (K.allowance disk.old) place (length block.now - 5) }
    ensures written { IsTrue (K.is_honest disk.old) → OnOk result (K.content disk.new ≡ gated 1 place block.now (K.content disk.old)) }
    ensures durable { IsTrue (K.is_honest disk.old) → OnOk result (Only (K.content disk.new) (K.image disk.new (K.moment disk.new))) }
    ensures moments { AtEachMoment K.moment K.image disk.old disk.new
        (λ c. IsTrue (K.is_honest disk.old) → IsHalfWritten place block.now (K.content disk.old) c) }
    ensures cause { HasCause (K.faults disk.old) (K.faults disk.new) result }
    ensures calm { OnOk result (K.faults disk.new ≡ K.faults disk.old) }
    ensures honest { K.is_honest disk.new ≡ K.is_honest disk.old }
    ensures used { (K.allowance disk.new).used ≤ (K.allowance disk.old).used + 4 }
    ensures armings { K.armings disk.new ≡ K.armings disk.old }
{
    write_synced(disk, place, block)?;
    write_synced(disk, place - 1, &[1])
}
