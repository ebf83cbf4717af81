// An entropy over a random file.
ghost use Rattle.std.specs.Prelude.{◌≡◌, ◌≤◌, OnOk, OnErr, IsErrOf, None, length};
ghost use Rattle.qkd_base.specs.Faults.{Rose, one_more};
ghost use Rattle.source_devices.specs.declared.shortage.Shortage.TheVariants.{Failed as ShortageFailed, End as ShortageEnd};
ghost use Rattle.source_devices.specs.Telling.{Draws};

use crate::{Entropy, Shortage};
use std::io::Read;
use std::marker::Model;

/// An entropy over a file of random octets, or over any other reader. Its octets are unknown to the contracts. It counts
/// each draw that failed, by an error or at the end of the file. A read that the system interrupts is made again.
#[derive(Drop)]
pub struct RandomFile<R> {
    file: R,
    faults: u64,
}

impl<R> Model for RandomFile<R> {
    ghost use Rattle.std.specs.Prelude.{ℕ};

    ghost Value = { ℕ };

    ghost view = { λ s. s.faults };
}

impl<R> RandomFile<R> {
    /// An entropy over this file, without faults so far.
    pub fn new(file: R) -> Self
        ensures { result ≡ 0 }
    {
        RandomFile { file, faults: 0 }
    }

    /// How often a draw failed.
    pub fn faults(&self) -> u64
        ensures { result ≡ self.now }
    {
        self.faults
    }
}

impl<R: Read> Entropy for RandomFile<R> {
    ghost left = { λ _. None };

    ghost faults = { λ s. s };

    fn draw(&mut self, into: &mut [u8]) -> Result<(), Shortage>
        ensures drawn { Draws None None result (length into.old) into.new }
        ensures cause { IsErrOf result ShortageFailed → Rose self.old self.new }
        ensures later { self.old ≤ self.new }
        ensures calm { (IsErrOf result ShortageFailed → ⊥) → self.new ≡ self.old }
        ensures once { OnErr result (self.new ≡ one_more self.old) }
    {
        match self.file.read_exact(into) {
            Ok(()) => Ok(()),
            Err(_) => {
                self.faults = self.faults.saturating_add(1);
                Err(Shortage::Failed)
            }
        }
    }
}
