// What a disk in memory holds.
ghost use Rattle.std.specs.Prelude.{◌≡◌, ◌+◌, ◌^◌, ◌<◌, ◌≤◌, [], List, ℕ, length, take, drop, true, if◌then◌else◌, IsTrue, is_err, IfOk, OnOk, OnErr, None, Some};
ghost use Rattle.qkd_base.specs.Faults.{HasCause};
ghost use Rattle.disk_model.specs.Allowance.{no_room, after_room, after_write, after_sync};
ghost use Rattle.disk_model.specs.Calls.{MayWrite};
ghost use Rattle.disk_model.specs.History.{IsHistory, GrowsFrom, used_of, past_of};
ghost use Rattle.disk_model.specs.Images.{Torn, Follows, Only, Passes, StandsStill, overlaid};
ghost use Rattle.disk_model.specs.Plan.{fails_in, passage};
ghost use Rattle.disk_model.specs.Record.{after_settle};
ghost use Rattle.disk_model.specs.MemForm.{content_of, images_of, after_look, after_write_at, synced_in, with_room, with_arm, left_by};

use crate::history::History;
use crate::passage::{FaultPlan, Passage};
use crate::{Allowance, Arm, Armings, DiskFailed};
use qkd_base::Memory;
use std::alloc::Global;
use std::marker::Model;

/// What a disk in memory holds, and all that its calls do.
#[derive(Drop)]
pub(crate) struct HeldDisk {
    history: History,
    plan: FaultPlan,
    allowance: Allowance,
    armings: Armings,
}

impl Model for HeldDisk {
    ghost use Rattle.std.specs.Prelude.{length};
    ghost use Rattle.disk_model.specs.History.{used_of, past_of};
    ghost use Rattle.disk_model.specs.MemForm.{MemForm, IsMemory};

    ghost Value = { MemForm };

    ghost view = { λ d. record { first = d.history.first.items; used = used_of d.history; synced = length (past_of d.history); plan = d.plan; allowance = d.allowance; armings = d.armings } };

    ghost invariant = { λ d. IsMemory d.history d.allowance };
}

impl HeldDisk {
    /// A disk with this content, all of it synced. The list has the numbers of the calls that fail.
    pub fn new(alloc: Global, content: &[u8], fails: Vec<u64>) -> Result<Self, Memory>
        ensures { IfOk result (λ d. d ≡ record {
          first = content.now;
          used = [];
          synced = 0;
          plan = record { fails = fails.items; calls = 0; armed = None; since = 0; cut = None; faults = 0 };
          allowance = no_room;
          armings = record { count = 0; last = None };
        }) }
    {
        Ok(HeldDisk {
            history: History::new(alloc, content)?,
            plan: FaultPlan::new(fails),
            allowance: Allowance::new(),
            armings: Armings::new(),
        })
    }

    /// The content.
    pub fn content(&self) -> &[u8]
        ensures { result.now ≡ content_of self.now }
    {
        self.history.content.as_slice()
    }
}

// Records a sync. It is a used call if something was unsynced.
fn settle(history: &mut History, allowance: &mut Allowance)
    requires sound { IsHistory history.old }
    requires used { allowance.old.used < 16 }
    ensures sound { IsHistory history.new }
    ensures first { history.new.first ≡ history.old.first }
    ensures calls { used_of history.new ≡ after_settle allowance.old.unsynced (used_of history.old) }
    ensures synced { length (past_of history.new) ≡ (if allowance.old.unsynced then length (used_of history.old) + 1 else length (past_of history.old)) }
    ensures allowance { allowance.new ≡ after_sync allowance.old }
    ensures grows { GrowsFrom history.old history.new 0 0 }
{
    if allowance.unsynced {
        history.sync();
    }
    allowance.synced();
}

impl HeldDisk {
    pub fn len(&mut self) -> Result<u64, DiskFailed>
        ensures fails { is_err result ≡ fails_in (passage self.old.plan) }
        ensures cause { HasCause self.old.plan.faults self.new.plan.faults result }
        ensures calm { OnOk result (self.new.plan.faults ≡ self.old.plan.faults) }
        ensures len { IfOk result (λ n. n ≡ length (content_of self.old)) }
        ensures disk { self.new ≡ after_look self.old }
    {
        match self.plan.pass() {
            Passage::Passes => Ok(self.history.content.len() as u64),
            Passage::Fails => Err(DiskFailed),
            Passage::Cuts => Err(DiskFailed),
        }
    }

    pub fn read(&mut self, at: u64, into: &mut [u8]) -> Result<(), DiskFailed>
        requires { at + length into.old ≤ length (content_of self.old) }
        ensures fails { is_err result ≡ fails_in (passage self.old.plan) }
        ensures cause { HasCause self.old.plan.faults self.new.plan.faults result }
        ensures calm { OnOk result (self.new.plan.faults ≡ self.old.plan.faults) }
        ensures bytes { OnOk result (into.new ≡ take (length into.old) (drop at (content_of self.old))) }
        ensures disk { self.new ≡ after_look self.old }
    {
        match self.plan.pass() {
            Passage::Passes => {
                let at = at as usize;
                into.copy_from_slice(&self.history.content[at..at + into.len()]);
                Ok(())
            }
            Passage::Fails => Err(DiskFailed),
            Passage::Cuts => Err(DiskFailed),
        }
    }

    pub fn write_at(&mut self, at: u64, bytes: &[u8]) -> Result<(), DiskFailed>
        requires { MayWrite true (content_of self.old) self.old.allowance at (length bytes.now) }
        ensures fails { is_err result ≡ fails_in (passage self.old.plan) }
        ensures cause { HasCause self.old.plan.faults self.new.plan.faults result }
        ensures calm { OnOk result (self.new.plan.faults ≡ self.old.plan.faults) }
        ensures written { OnOk result (content_of self.new ≡ overlaid at bytes.now (content_of self.old)) }
        ensures others { Torn at (length bytes.now) (content_of self.old) (content_of self.new) }
        ensures images { Follows (Torn at (length bytes.now)) (images_of self.old (length self.old.used)) (images_of self.new (length self.new.used)) }
        ensures time { Passes (length self.old.used) (length self.new.used) (images_of self.old) (images_of self.new) }
        ensures disk { self.new ≡ after_write_at at bytes.now self.old }
    {
        self.allowance.wrote(bytes.len() as u64);
        match self.plan.pass() {
            Passage::Passes => {
                self.history.write(at as usize, bytes);
                Ok(())
            }
            Passage::Cuts => {
                self.history.write(at as usize, bytes);
                Err(DiskFailed)
            }
            Passage::Fails => Err(DiskFailed),
        }
    }

    pub fn sync(&mut self) -> Result<(), DiskFailed>
        requires { self.old.allowance.used < 16 }
        ensures fails { is_err result ≡ fails_in (passage self.old.plan) }
        ensures cause { HasCause self.old.plan.faults self.new.plan.faults result }
        ensures calm { OnOk result (self.new.plan.faults ≡ self.old.plan.faults) }
        ensures durable { OnOk result (Only (content_of self.old) (images_of self.new (length self.new.used))) }
        ensures content { content_of self.new ≡ content_of self.old }
        ensures images { (c : List ℕ) → images_of self.new (length self.new.used) c → images_of self.old (length self.old.used) c }
        ensures time { Passes (length self.old.used) (length self.new.used) (images_of self.old) (images_of self.new) }
        ensures disk { self.new ≡ synced_in (passage self.old.plan) self.old }
    {
        match self.plan.pass() {
            Passage::Passes => {
                settle(&mut self.history, &mut self.allowance);
                Ok(())
            }
            Passage::Fails => Err(DiskFailed),
            Passage::Cuts => Err(DiskFailed),
        }
    }

    pub fn room(&mut self, end: u64) -> Result<(), Memory>
        ensures ok { OnOk result (self.new ≡ with_room end self.old) }
        ensures err { OnErr result (self.new ≡ self.old) }
    {
        match self.history.room(end as usize) {
            Err(Memory) => Err(Memory),
            Ok(()) => {
                self.allowance.grant(end);
                Ok(())
            }
        }
    }

    pub fn arm(&mut self, arm: Arm)
        requires { self.old.armings.count < 2 ^ 32 }
        ensures { self.new ≡ with_arm arm self.old }
    {
        self.plan.arm(arm);
        self.armings.add(arm);
    }

    pub fn revive(&mut self)
        ensures image { images_of self.old (length self.old.used) (content_of self.new) }
        ensures images { (c : List ℕ) → images_of self.new (length self.new.used) c → images_of self.old (length self.old.used) c }
        ensures time { Passes (length self.old.used) (length self.new.used) (images_of self.old) (images_of self.new) }
        ensures disk { self.new ≡ left_by self.old.plan.cut self.old }
    {
        if let Some(image) = self.plan.revive() {
            self.history.revive(image);
        }
    }
}
