// An entropy in memory.
ghost use Rattle.std.specs.Prelude.{◌≡◌, ◌≤◌, Some, None, OnOk, OnErr, IsErrOf, MatchResult, length, take, drop};
ghost use Rattle.qkd_base.specs.Faults.{Rose, one_more};
ghost use Rattle.net_model.specs.OctetSequence.{sequence_of};
ghost use Rattle.source_devices.specs.declared.shortage.Shortage.TheVariants.{Failed as ShortageFailed};
ghost use Rattle.source_devices.specs.Telling.{Draws};
ghost use Rattle.source_devices.specs.Forms.{draw_refusal, faults_after};

use crate::parts::copy_part;
use crate::{Entropy, Shortage};
use std::marker::Model;

/// An entropy over octets in memory. Its calls are numbered from 0, and those on a list fail if enough octets are left. An
/// error leaves the buffer as it was.
#[derive(Debug, Drop)]
pub struct MemEntropy {
    octets: Vec<u8>,
    at: usize,
    fails: Vec<u64>,
    calls: u64,
    faults: u64,
}

impl Model for MemEntropy {
    ghost use Rattle.std.specs.Prelude.{◌≤◌, drop, vec_len};
    ghost use Rattle.source_devices.specs.Forms.{EntropyForm};

    ghost Value = { EntropyForm };

    ghost view = { λ s. record { left = drop s.at s.octets.items; fails = s.fails.items; calls = s.calls; faults = s.faults } };

    ghost invariant = { λ s. s.at ≤ vec_len s.octets };
}

impl MemEntropy {
    /// An entropy with these octets. `fails` has the numbers of the calls that are to fail.
    pub fn new(octets: Vec<u8>, fails: Vec<u64>) -> Self
        ensures { result ≡ record { left = octets.items; fails = fails.items; calls = 0; faults = 0 } }
    {
        MemEntropy {
            octets,
            at: 0,
            fails,
            calls: 0,
            faults: 0,
        }
    }

    // Copies the next octets. Enough of them must be left.
    fn take(&mut self, into: &mut [u8])
        requires enough { length into.old ≤ length self.old.left }
        ensures given { into.new ≡ take (length into.old) self.old.left }
        ensures left { self.new ≡ record self.old { left = drop (length into.old) self.old.left } }
    {
        copy_part(&self.octets, self.at, into);
        self.at += into.len();
    }
}

impl Entropy for MemEntropy {
    ghost left = { λ s. Some (sequence_of s.left) };

    ghost faults = { λ s. s.faults };

    fn draw(&mut self, into: &mut [u8]) -> Result<(), Shortage>
        ensures drawn { Draws (Some (sequence_of self.old.left)) (Some (sequence_of self.new.left)) result (length into.old) into.new }
        ensures cause { IsErrOf result ShortageFailed → Rose self.old.faults self.new.faults }
        ensures later { self.old.faults ≤ self.new.faults }
        ensures calm { (IsErrOf result ShortageFailed → ⊥) → self.new.faults ≡ self.old.faults }
        ensures refused { MatchResult result (λ _. draw_refusal self.old (length into.old) ≡ None) (λ e. draw_refusal self.old (length into.old) ≡ Some e) }
        ensures given { OnOk result (self.new ≡ record self.old { left = drop (length into.old) self.old.left; calls = one_more self.old.calls }) }
        ensures kept { OnErr result (self.new ≡ record self.old { calls = one_more self.old.calls; faults = faults_after self.old.faults (draw_refusal self.old (length into.old)) }) }
        ensures buffer { OnErr result (into.new ≡ into.old) }
    {
        let call = self.calls;
        self.calls = call.saturating_add(1);
        if self.octets.len() - self.at < into.len() {
            return Err(Shortage::End);
        }
        if self.fails.contains(&call) {
            self.faults = self.faults.saturating_add(1);
            return Err(Shortage::Failed);
        }
        self.take(into);
        Ok(())
    }
}
