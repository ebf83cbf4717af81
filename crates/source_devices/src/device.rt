// The trait of quantum key distribution links.
ghost use Rattle.std.specs.Prelude.{◌≡◌, ◌≤◌, ℕ, Option, IsErrOf};
ghost use Rattle.qkd_base.specs.Faults.{Rose};
ghost use Rattle.net_model.specs.OctetSequence.{OctetSequence};
ghost use Rattle.source_devices.specs.declared.shortage.Shortage.TheVariants.{Failed as ShortageFailed};
ghost use Rattle.source_devices.specs.Telling.{GivesBlock};

use crate::Shortage;

/// The devices of a link (quantum key distribution). Both ends of the link read the same list of octets, in blocks of 1,024.
pub trait Device {
    /// The list of octets, if it is known. With `None` the contracts say nothing of the octets.
    ghost told: { Self → Option OctetSequence };

    /// How many calls of `block` have failed.
    ghost faults: { Self → ℕ };

    /// Copies block `number`, counted from 0, into the buffer. A device with an unknown list never returns `End`.
    fn block(&mut self, number: u32, into: &mut [u8; 1024]) -> Result<(), Shortage>
        ensures block { GivesBlock (told self.old) number result into.new }
        ensures told { told self.new ≡ told self.old }
        ensures cause { IsErrOf result ShortageFailed → Rose (faults self.old) (faults self.new) }
        ensures later { faults self.old ≤ faults self.new }
        ensures calm { (IsErrOf result ShortageFailed → ⊥) → faults self.new ≡ faults self.old };
}
