// The trait of sources of random octets.
ghost use Rattle.std.specs.Prelude.{◌≡◌, ◌≤◌, ℕ, Option, IsErrOf, length};
ghost use Rattle.qkd_base.specs.Faults.{Rose};
ghost use Rattle.net_model.specs.OctetSequence.{OctetSequence};
ghost use Rattle.source_devices.specs.declared.shortage.Shortage.TheVariants.{Failed as ShortageFailed};
ghost use Rattle.source_devices.specs.Telling.{Draws};

use crate::Shortage;

/// A node's entropy: its source of random octets.
pub trait Entropy {
    /// The octets that are still to come, if they are known. With `None` the contracts say nothing of them.
    ghost left: { Self → Option OctetSequence };

    /// How many calls of `draw` have failed.
    ghost faults: { Self → ℕ };

    /// Fills the buffer with the next octets. An error takes none of them, and may leave anything in the buffer. An entropy
    /// with unknown octets never returns `End`.
    fn draw(&mut self, into: &mut [u8]) -> Result<(), Shortage>
        ensures drawn { Draws (left self.old) (left self.new) result (length into.old) into.new }
        ensures cause { IsErrOf result ShortageFailed → Rose (faults self.old) (faults self.new) }
        ensures later { faults self.old ≤ faults self.new }
        ensures calm { (IsErrOf result ShortageFailed → ⊥) → faults self.new ≡ faults self.old };
}
