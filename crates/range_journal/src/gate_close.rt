// How the gate behind the last batch is closed.
ghost use Rattle.std.specs.Prelude.{◌≡◌, ◌≢◌, ◌⊎◌, ◌+◌, ◌<◌, ◌≤◌, ◌∷◌, ◌++◌, List, ℕ, length, drop, take, IsTrue, OnOk};
ghost use Rattle.qkd_base.specs.Faults.{HasCause};
ghost use Rattle.disk_model.specs.Images.{Only, AtEachMoment};
ghost use Rattle.range_journal.specs.Closing.{with_gate, MayClose, IsDoubtful};

use crate::durable::write_synced;
use disk_model::{Disk, DiskFailed};

/// Closes a gate that isn't open: writes 00 in its place unless it is 00. The only error is that the disk fails.
pub fn close<K: Disk>(disk: &mut K, place: u64, gate: u8) -> Result<(), DiskFailed>
    requires { MayClose (K.is_honest disk.old) (K.content disk.old) (K.image disk.old (K.moment disk.old)) (K.allowance disk.old) place gate }
    ensures closed { IsTrue (K.is_honest disk.old) → OnOk result (K.content disk.new ≡ with_gate place 0 (K.content disk.old)) }
    ensures durable { IsTrue (K.is_honest disk.old) → OnOk result (Only (K.content disk.new) (K.image disk.new (K.moment disk.new))) }
    ensures moments { AtEachMoment K.moment K.image disk.old disk.new (λ i. IsTrue (K.is_honest disk.old) → IsDoubtful place gate (K.content disk.old) i) }
    ensures cause { HasCause (K.faults disk.old) (K.faults disk.new) result }
    ensures calm { OnOk result (K.faults disk.new ≡ K.faults disk.old) }
    ensures honest { K.is_honest disk.new ≡ K.is_honest disk.old }
    ensures used { (K.allowance disk.new).used ≤ (K.allowance disk.old).used + 2 }
    ensures armings { K.armings disk.new ≡ K.armings disk.old }
{
    if gate == 0 {
        return Ok(());
    }
    write_synced(disk, place, &[0])
}
