// Random octets.
ghost use Rattle.std.specs.Prelude.{◌≡◌, ◌≤◌, length, IsErrOf};
ghost use Rattle.qkd_base.specs.Faults.{Rose};
ghost use Rattle.source_devices.specs.declared.shortage.Shortage.TheVariants.{Failed as ShortageFailed};
ghost use Rattle.kme_store.specs.Drawing.{Gives};

use source_devices::{Entropy, Shortage};

/// Fills the buffer with the next octets of the entropy. If the buffer is empty, the entropy isn't asked.
pub fn draw<E: Entropy>(entropy: &mut E, random: &mut [u8]) -> Result<(), Shortage>
    ensures given { Gives (E.left entropy.old) (E.left entropy.new) result (length random.old) random.new }
    ensures cause { IsErrOf result ShortageFailed → Rose (E.faults entropy.old) (E.faults entropy.new) }
    ensures later { E.faults entropy.old ≤ E.faults entropy.new }
    ensures calm { (IsErrOf result ShortageFailed → ⊥) → E.faults entropy.new ≡ E.faults entropy.old }
{
    if random.is_empty() {
        return Ok(());
    }
    entropy.draw(random)
}
