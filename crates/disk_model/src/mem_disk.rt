// A disk in memory.
ghost use Rattle.std.specs.Prelude.{◌≡◌, ◌+◌, ◌^◌, ◌<◌, ◌≤◌, [], List, ℕ, length, take, drop, true, is_err, IfOk, OnOk, OnErr, None};
ghost use Rattle.qkd_base.specs.Faults.{HasCause};
ghost use Rattle.disk_model.specs.Allowance.{no_room};
ghost use Rattle.disk_model.specs.Calls.{MayWrite};
ghost use Rattle.disk_model.specs.Images.{Torn, Follows, Only, Passes, overlaid};
ghost use Rattle.disk_model.specs.Plan.{fails_in, passage};
ghost use Rattle.disk_model.specs.MemForm.{content_of, images_of, after_look, after_write_at, synced_in, with_room, with_arm, left_by};

use crate::held_disk::HeldDisk;
use crate::{Arm, Disk, DiskFailed};
use qkd_base::Memory;
use std::alloc::Global;
use std::marker::Model;

/// A disk in memory. Its calls of `len`, `read`, `write_at` and `sync` are numbered from 1, and those whose numbers are
/// in the list `fails` fail. The images at each past moment follow from its used calls. Of those up to the last
/// sync only proofs know: they take no memory.
#[derive(Drop)]
pub struct MemDisk {
    // Each event of a manager moves its disk several times, so what the disk holds stays in one place.
    held: Box<HeldDisk>,
}

impl Model for MemDisk {
    ghost use Rattle.disk_model.specs.MemForm.{MemForm};

    ghost Value = { MemForm };

    ghost view = { λ d. d.held.value };
}

impl MemDisk {
    /// A disk with this content, all of it synced. The list has the numbers of the calls that fail.
    pub fn new(alloc: Global, content: &[u8], fails: Vec<u64>) -> Result<Self, Memory>
        ensures { IfOk result (λ d. d ≡ record {
          first = content.now;
          used = [];
          synced = 0;
          plan = record { fails = fails.items; calls = 0; armed = None; since = 0; cut = None; faults = 0 };
          allowance = no_room;
          armings = record { count = 0; last = None };
        }) }
    {
        let held = HeldDisk::new(alloc, content, fails)?;
        Ok(MemDisk {
            held: Box::new(alloc, held)?,
        })
    }

    /// The content.
    pub fn content(&self) -> &[u8]
        ensures { result.now ≡ content_of self.now }
    {
        self.held.content()
    }
}

impl Disk for MemDisk {
    ghost is_honest = { λ _. true };

    ghost content = { content_of };

    ghost moment = { λ d. length d.used };

    ghost image = { images_of };

    ghost faults = { λ d. d.plan.faults };

    ghost allowance = { λ d. d.allowance };

    ghost armings = { λ d. d.armings };

    ghost use Rattle.disk_model.specs.Laws.{content_is_image as is_image};

    ghost content_is_image = { λ d _. is_image d.first d.used };

    fn len(&mut self) -> Result<u64, DiskFailed>
        ensures fails { is_err result ≡ fails_in (passage self.old.plan) }
        ensures cause { HasCause self.old.plan.faults self.new.plan.faults result }
        ensures calm { OnOk result (self.new.plan.faults ≡ self.old.plan.faults) }
        ensures len { IfOk result (λ n. n ≡ length (content_of self.old)) }
        ensures disk { self.new ≡ after_look self.old }
    {
        self.held.len()
    }

    fn read(&mut self, at: u64, into: &mut [u8]) -> Result<(), DiskFailed>
        requires { at + length into.old ≤ length (content_of self.old) }
        ensures fails { is_err result ≡ fails_in (passage self.old.plan) }
        ensures cause { HasCause self.old.plan.faults self.new.plan.faults result }
        ensures calm { OnOk result (self.new.plan.faults ≡ self.old.plan.faults) }
        ensures bytes { OnOk result (into.new ≡ take (length into.old) (drop at (content_of self.old))) }
        ensures disk { self.new ≡ after_look self.old }
    {
        self.held.read(at, into)
    }

    fn write_at(&mut self, at: u64, bytes: &[u8]) -> Result<(), DiskFailed>
        requires { MayWrite true (content_of self.old) self.old.allowance at (length bytes.now) }
        ensures fails { is_err result ≡ fails_in (passage self.old.plan) }
        ensures cause { HasCause self.old.plan.faults self.new.plan.faults result }
        ensures calm { OnOk result (self.new.plan.faults ≡ self.old.plan.faults) }
        ensures written { OnOk result (content_of self.new ≡ overlaid at bytes.now (content_of self.old)) }
        ensures others { Torn at (length bytes.now) (content_of self.old) (content_of self.new) }
        ensures images { Follows (Torn at (length bytes.now)) (images_of self.old (length self.old.used)) (images_of self.new (length self.new.used)) }
        ensures time { Passes (length self.old.used) (length self.new.used) (images_of self.old) (images_of self.new) }
        ensures disk { self.new ≡ after_write_at at bytes.now self.old }
    {
        self.held.write_at(at, bytes)
    }

    fn sync(&mut self) -> Result<(), DiskFailed>
        requires { self.old.allowance.used < 16 }
        ensures fails { is_err result ≡ fails_in (passage self.old.plan) }
        ensures cause { HasCause self.old.plan.faults self.new.plan.faults result }
        ensures calm { OnOk result (self.new.plan.faults ≡ self.old.plan.faults) }
        ensures durable { OnOk result (Only (content_of self.old) (images_of self.new (length self.new.used))) }
        ensures content { content_of self.new ≡ content_of self.old }
        ensures images { (c : List ℕ) → images_of self.new (length self.new.used) c → images_of self.old (length self.old.used) c }
        ensures time { Passes (length self.old.used) (length self.new.used) (images_of self.old) (images_of self.new) }
        ensures disk { self.new ≡ synced_in (passage self.old.plan) self.old }
    {
        self.held.sync()
    }

    fn room(&mut self, end: u64) -> Result<(), Memory>
        ensures ok { OnOk result (self.new ≡ with_room end self.old) }
        ensures err { OnErr result (self.new ≡ self.old) }
    {
        self.held.room(end)
    }

    fn arm(&mut self, arm: Arm)
        requires { self.old.armings.count < 2 ^ 32 }
        ensures { self.new ≡ with_arm arm self.old }
    {
        self.held.arm(arm);
    }

    fn revive(&mut self)
        ensures image { images_of self.old (length self.old.used) (content_of self.new) }
        ensures images { (c : List ℕ) → images_of self.new (length self.new.used) c → images_of self.old (length self.old.used) c }
        ensures time { Passes (length self.old.used) (length self.new.used) (images_of self.old) (images_of self.new) }
        ensures disk { self.new ≡ left_by self.old.plan.cut self.old }
    {
        self.held.revive();
    }
}
