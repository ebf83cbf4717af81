// A device in memory.
ghost use Rattle.std.specs.Prelude.{◌≡◌, ◌≤◌, Some, None, OnErr, IsErrOf, MatchResult};
ghost use Rattle.qkd_base.specs.Faults.{Rose, one_more};
ghost use Rattle.net_model.specs.OctetSequence.{sequence_of};
ghost use Rattle.source_devices.specs.declared.shortage.Shortage.TheVariants.{Failed as ShortageFailed};
ghost use Rattle.source_devices.specs.Telling.{GivesBlock};
ghost use Rattle.source_devices.specs.Forms.{block_refusal, faults_after};

use crate::parts::copy_part;
use crate::{Device, Shortage};
use std::marker::Model;

/// A device over octets in memory. Its calls are numbered from 0, and those on a list fail if the octets have the block. An
/// error leaves the buffer as it was.
#[derive(Debug, Drop)]
pub struct MemDevice {
    octets: Vec<u8>,
    fails: Vec<u64>,
    calls: u64,
    faults: u64,
}

impl Model for MemDevice {
    ghost use Rattle.source_devices.specs.Forms.{DeviceForm};

    ghost Value = { DeviceForm };

    ghost view = { λ s. record { octets = s.octets.items; fails = s.fails.items; calls = s.calls; faults = s.faults } };
}

impl MemDevice {
    /// A device with these octets. `fails` has the numbers of the calls that are to fail.
    pub fn new(octets: Vec<u8>, fails: Vec<u64>) -> Self
        ensures { result ≡ record { octets = octets.items; fails = fails.items; calls = 0; faults = 0 } }
    {
        MemDevice {
            octets,
            fails,
            calls: 0,
            faults: 0,
        }
    }
}

impl Device for MemDevice {
    ghost told = { λ s. Some (sequence_of s.octets) };

    ghost faults = { λ s. s.faults };

    fn block(&mut self, number: u32, into: &mut [u8; 1024]) -> Result<(), Shortage>
        ensures block { GivesBlock (Some (sequence_of self.old.octets)) number result into.new }
        ensures told { Some (sequence_of self.new.octets) ≡ Some (sequence_of self.old.octets) }
        ensures cause { IsErrOf result ShortageFailed → Rose self.old.faults self.new.faults }
        ensures later { self.old.faults ≤ self.new.faults }
        ensures calm { (IsErrOf result ShortageFailed → ⊥) → self.new.faults ≡ self.old.faults }
        ensures refused { MatchResult result (λ _. block_refusal self.old number ≡ None) (λ e. block_refusal self.old number ≡ Some e) }
        ensures kept { self.new ≡ record self.old { calls = one_more self.old.calls; faults = faults_after self.old.faults (block_refusal self.old number) } }
        ensures buffer { OnErr result (into.new ≡ into.old) }
    {
        let call = self.calls;
        self.calls = call.saturating_add(1);
        let from = 1024 * number as usize;
        if self.octets.len() < 1024 + from {
            return Err(Shortage::End);
        }
        if self.fails.contains(&call) {
            self.faults = self.faults.saturating_add(1);
            return Err(Shortage::Failed);
        }
        copy_part(&self.octets, from, into);
        Ok(())
    }
}
