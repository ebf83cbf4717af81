// A disk of which a file keeps the octets.
ghost use Rattle.std.specs.Prelude.{◌≡◌, ◌+◌, ◌^◌, ◌<◌, ◌≤◌, List, ℕ, false, true, length, take, drop, None, Some, IfOk, OnOk, OnErr, IsTrue};
ghost use Rattle.qkd_base.specs.Faults.{HasCause, Rose};
ghost use Rattle.disk_model.specs.Allowance.{after_room, after_write, after_sync};
ghost use Rattle.disk_model.specs.Calls.{MayWrite};
ghost use Rattle.disk_model.specs.Images.{Torn, Follows, Only, Passes, StandsStill, overlaid};
ghost use Rattle.disk_model.specs.Kept.{Breaks};

use crate::{Arm, Armings, Disk, DiskFailed, OctetFile};
use qkd_base::Memory;
use std::marker::Model;

/// A disk of which a file keeps the octets, so that they outlive the process. Each write and each sync is the file's
/// first; reads are the disk's alone. A write that fails counts as made and not synced. Once a call has failed all later
/// ones fail, also behind `revive`, so that no later success hides a write that was lost. It is armed in name only: no
/// call of its own fails for that.
#[derive(Drop)]
pub struct KeptDisk<K, F> {
    disk: K,
    file: F,
    armings: Armings,
    faults: u64,
    broken: bool,
}

impl<K, F> Model for KeptDisk<K, F> {
    ghost use Rattle.disk_model.specs.Kept.{KeptForm};

    ghost Value = { KeptForm K F };

    ghost view = { λ d. record { disk = d.disk; file = d.file; armings = d.armings; faults = d.faults; broken = d.broken } };
}

impl<K, F> KeptDisk<K, F> {
    /// A disk of which this file has the octets.
    pub fn new(disk: K, file: F) -> Self
        ensures { result ≡ record { disk = disk; file = file; armings = record { count = 0; last = None }; faults = 0; broken = false } }
    {
        KeptDisk {
            disk,
            file,
            armings: Armings::new(),
            faults: 0,
            broken: false,
        }
    }

    // Counts a failure, behind which every call fails.
    fn fail(&mut self) -> DiskFailed
        ensures disk { self.new.disk ≡ self.old.disk }
        ensures file { self.new.file ≡ self.old.file }
        ensures armings { self.new.armings ≡ self.old.armings }
        ensures later { self.old.faults ≤ self.new.faults }
        ensures rose { Rose self.old.faults self.new.faults }
        ensures broken { self.new.broken ≡ true }
    {
        self.faults = self.faults.saturating_add(1);
        self.broken = true;
        DiskFailed
    }
}

impl<K: Disk, F: OctetFile> Disk for KeptDisk<K, F> {
    ghost is_honest = { λ d. K.is_honest d.disk };

    ghost content = { λ d. K.content d.disk };

    ghost moment = { λ d. K.moment d.disk };

    ghost image = { λ d. K.image d.disk };

    ghost faults = { λ d. d.faults };

    ghost allowance = { λ d. K.allowance d.disk };

    ghost armings = { λ d. d.armings };

    ghost content_is_image = { λ d honest. K.content_is_image d.disk honest };

    fn len(&mut self) -> Result<u64, DiskFailed>
        ensures len { IsTrue (K.is_honest self.old.disk) → IfOk result (λ n. n ≡ length (K.content self.old.disk)) }
        ensures content { K.content self.new.disk ≡ K.content self.old.disk }
        ensures time { StandsStill (K.moment self.old.disk) (K.moment self.new.disk) (K.image self.old.disk) (K.image self.new.disk) }
        ensures cause { HasCause self.old.faults self.new.faults result }
        ensures calm { OnOk result (self.new.faults ≡ self.old.faults) }
        ensures honest { K.is_honest self.new.disk ≡ K.is_honest self.old.disk }
        ensures allowance { K.allowance self.new.disk ≡ K.allowance self.old.disk }
        ensures armings { self.new.armings ≡ self.old.armings }
        ensures breaks { Breaks self.old.broken self.new.broken result }
        ensures file { self.new.file ≡ self.old.file }
    {
        match self.disk.len() {
            Ok(len) if !self.broken => Ok(len),
            _ => Err(self.fail()),
        }
    }

    fn read(&mut self, at: u64, into: &mut [u8]) -> Result<(), DiskFailed>
        requires { IsTrue (K.is_honest self.old.disk) → at + length into.old ≤ length (K.content self.old.disk) }
        ensures bytes { IsTrue (K.is_honest self.old.disk) → OnOk result (into.new ≡ take (length into.old) (drop at (K.content self.old.disk))) }
        ensures content { K.content self.new.disk ≡ K.content self.old.disk }
        ensures time { StandsStill (K.moment self.old.disk) (K.moment self.new.disk) (K.image self.old.disk) (K.image self.new.disk) }
        ensures cause { HasCause self.old.faults self.new.faults result }
        ensures calm { OnOk result (self.new.faults ≡ self.old.faults) }
        ensures honest { K.is_honest self.new.disk ≡ K.is_honest self.old.disk }
        ensures allowance { K.allowance self.new.disk ≡ K.allowance self.old.disk }
        ensures armings { self.new.armings ≡ self.old.armings }
        ensures breaks { Breaks self.old.broken self.new.broken result }
        ensures file { self.new.file ≡ self.old.file }
    {
        match self.disk.read(at, into) {
            Ok(()) if !self.broken => Ok(()),
            _ => Err(self.fail()),
        }
    }

    fn write_at(&mut self, at: u64, bytes: &[u8]) -> Result<(), DiskFailed>
        requires { MayWrite (K.is_honest self.old.disk) (K.content self.old.disk) (K.allowance self.old.disk) at (length bytes.now) }
        ensures written { IsTrue (K.is_honest self.old.disk) → OnOk result (K.content self.new.disk ≡ overlaid at bytes.now (K.content self.old.disk)) }
        ensures others { IsTrue (K.is_honest self.old.disk) → Torn at (length bytes.now) (K.content self.old.disk) (K.content self.new.disk) }
        ensures images { Follows (Torn at (length bytes.now)) (K.image self.old.disk (K.moment self.old.disk)) (K.image self.new.disk (K.moment self.new.disk)) }
        ensures time { Passes (K.moment self.old.disk) (K.moment self.new.disk) (K.image self.old.disk) (K.image self.new.disk) }
        ensures cause { HasCause self.old.faults self.new.faults result }
        ensures calm { OnOk result (self.new.faults ≡ self.old.faults) }
        ensures honest { K.is_honest self.new.disk ≡ K.is_honest self.old.disk }
        ensures allowance { K.allowance self.new.disk ≡ after_write (length bytes.now) (K.allowance self.old.disk) }
        ensures armings { self.new.armings ≡ self.old.armings }
        ensures breaks { Breaks self.old.broken self.new.broken result }
        ensures kept { IsTrue (K.is_honest self.old.disk) → F.octets self.old.file ≡ Some (K.content self.old.disk) →
            OnOk result (F.octets self.new.file ≡ Some (K.content self.new.disk)) }
    {
        let is_written = !self.broken && self.file.write_at(at, bytes).is_ok();
        match self.disk.write_at(at, bytes) {
            Ok(()) if is_written => Ok(()),
            _ => Err(self.fail()),
        }
    }

    fn sync(&mut self) -> Result<(), DiskFailed>
        requires { (K.allowance self.old.disk).used < 16 }
        ensures durable { IsTrue (K.is_honest self.old.disk) → OnOk result (Only (K.content self.old.disk) (K.image self.new.disk (K.moment self.new.disk))) }
        ensures content { K.content self.new.disk ≡ K.content self.old.disk }
        ensures images { (c : List ℕ) → K.image self.new.disk (K.moment self.new.disk) c → K.image self.old.disk (K.moment self.old.disk) c }
        ensures time { Passes (K.moment self.old.disk) (K.moment self.new.disk) (K.image self.old.disk) (K.image self.new.disk) }
        ensures cause { HasCause self.old.faults self.new.faults result }
        ensures calm { OnOk result (self.new.faults ≡ self.old.faults) }
        ensures honest { K.is_honest self.new.disk ≡ K.is_honest self.old.disk }
        ensures ok { OnOk result (K.allowance self.new.disk ≡ after_sync (K.allowance self.old.disk)) }
        ensures err { OnErr result (K.allowance self.new.disk ≡ K.allowance self.old.disk) }
        ensures armings { self.new.armings ≡ self.old.armings }
        ensures breaks { Breaks self.old.broken self.new.broken result }
        ensures octets { F.octets self.new.file ≡ F.octets self.old.file }
        ensures kept { OnOk result (F.durable self.new.file ≡ F.octets self.old.file) }
    {
        if self.broken || self.file.sync().is_err() {
            return Err(self.fail());
        }
        match self.disk.sync() {
            Ok(()) => Ok(()),
            Err(_) => Err(self.fail()),
        }
    }

    fn room(&mut self, end: u64) -> Result<(), Memory>
        ensures ok { OnOk result (K.allowance self.new.disk ≡ after_room end (K.allowance self.old.disk)) }
        ensures err { OnErr result (self.new ≡ self.old) }
        ensures content { K.content self.new.disk ≡ K.content self.old.disk }
        ensures time { StandsStill (K.moment self.old.disk) (K.moment self.new.disk) (K.image self.old.disk) (K.image self.new.disk) }
        ensures faults { self.new.faults ≡ self.old.faults }
        ensures honest { K.is_honest self.new.disk ≡ K.is_honest self.old.disk }
        ensures armings { self.new.armings ≡ self.old.armings }
        ensures broken { self.new.broken ≡ self.old.broken }
        ensures file { self.new.file ≡ self.old.file }
    {
        self.disk.room(end)
    }

    fn arm(&mut self, arm: Arm)
        requires { self.old.armings.count < 2 ^ 32 }
        ensures { self.new ≡ record self.old { armings = record { count = self.old.armings.count + 1; last = Some arm } } }
    {
        self.armings.add(arm);
    }

    fn revive(&mut self)
        ensures same { self.new ≡ self.old }
    {}
}
