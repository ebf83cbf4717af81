// The trait of disks, with what a crash may leave of one.
ghost use Rattle.std.specs.Prelude.{◌≡◌, ◌+◌, ◌^◌, ◌<◌, ◌≤◌, max, ℕ, Bool, List, length, take, drop, Some, IsTrue, IfOk, OnOk, OnErr};
ghost use Rattle.qkd_base.specs.Faults.{HasCause};
ghost use Rattle.disk_model.specs.Images.{Torn, Follows, Only, Passes, StandsStill, overlaid};
ghost use Rattle.disk_model.specs.Allowance.{after_room, after_write, after_sync};
ghost use Rattle.disk_model.specs.Calls.{MayWrite};
ghost use Rattle.disk_model.specs.declared.allowance.Allowance.{Allowance as Left};
ghost use Rattle.disk_model.specs.declared.arm.Armings.{Armings as Armed};

use crate::{Arm, DiskFailed};
use qkd_base::Memory;

/// A disk. If it is honest, its content and its images are as these contracts say. Of a disk that isn't, they say
/// nothing about either.
pub trait Disk {
    /// Whether the disk is honest. No call changes this.
    ghost is_honest: { Self → Bool };

    /// The octets that reads give.
    ghost content: { Self → List ℕ };

    /// How many moments have passed.
    ghost moment: { Self → ℕ };

    /// The contents that a crash may have left at a moment, from 0 up to the present one.
    ghost image: { Self → ℕ → List ℕ → Type 0 };

    /// How many calls have failed. A call that succeeds leaves the count as it is.
    ghost faults: { Self → ℕ };

    /// What may still be written before room is given again.
    ghost allowance: { Self → Left };

    /// How often the disk was armed, and the last fault that it was armed with.
    ghost armings: { Self → Armed };

    /// The length in octets.
    fn len(&mut self) -> Result<u64, DiskFailed>
        ensures len { IsTrue (is_honest self.old) → IfOk result (λ n. n ≡ length (content self.old)) }
        ensures content { content self.new ≡ content self.old }
        ensures time { StandsStill (moment self.old) (moment self.new) (image self.old) (image self.new) }
        ensures cause { HasCause (faults self.old) (faults self.new) result }
        ensures calm { OnOk result (faults self.new ≡ faults self.old) }
        ensures honest { is_honest self.new ≡ is_honest self.old }
        ensures allowance { allowance self.new ≡ allowance self.old }
        ensures armings { armings self.new ≡ armings self.old };

    /// Fills the buffer with the octets from place `at` on.
    fn read(&mut self, at: u64, into: &mut [u8]) -> Result<(), DiskFailed>
        requires { IsTrue (is_honest self.old) → at + length into.old ≤ length (content self.old) }
        ensures bytes { IsTrue (is_honest self.old) → OnOk result (into.new ≡ take (length into.old) (drop at (content self.old))) }
        ensures content { content self.new ≡ content self.old }
        ensures time { StandsStill (moment self.old) (moment self.new) (image self.old) (image self.new) }
        ensures cause { HasCause (faults self.old) (faults self.new) result }
        ensures calm { OnOk result (faults self.new ≡ faults self.old) }
        ensures honest { is_honest self.new ≡ is_honest self.old }
        ensures allowance { allowance self.new ≡ allowance self.old }
        ensures armings { armings self.new ≡ armings self.old };

    /// Writes octets at place `at`, over old octets and past the old end. Until a sync, a crash may leave any octets in
    /// this range. So may a failure.
    fn write_at(&mut self, at: u64, bytes: &[u8]) -> Result<(), DiskFailed>
        requires { MayWrite (is_honest self.old) (content self.old) (allowance self.old) at (length bytes.now) }
        ensures written { IsTrue (is_honest self.old) → OnOk result (content self.new ≡ overlaid at bytes.now (content self.old)) }
        ensures others { IsTrue (is_honest self.old) → Torn at (length bytes.now) (content self.old) (content self.new) }
        ensures images { Follows (Torn at (length bytes.now)) (image self.old (moment self.old)) (image self.new (moment self.new)) }
        ensures time { Passes (moment self.old) (moment self.new) (image self.old) (image self.new) }
        ensures cause { HasCause (faults self.old) (faults self.new) result }
        ensures calm { OnOk result (faults self.new ≡ faults self.old) }
        ensures honest { is_honest self.new ≡ is_honest self.old }
        ensures allowance { allowance self.new ≡ after_write (length bytes.now) (allowance self.old) }
        ensures armings { armings self.new ≡ armings self.old };

    /// Makes the content durable: after a sync that succeeds it is the only image.
    fn sync(&mut self) -> Result<(), DiskFailed>
        requires { (allowance self.old).used < 16 }
        ensures durable { IsTrue (is_honest self.old) → OnOk result (Only (content self.old) (image self.new (moment self.new))) }
        ensures content { content self.new ≡ content self.old }
        ensures images { (c : List ℕ) → image self.new (moment self.new) c → image self.old (moment self.old) c }
        ensures time { Passes (moment self.old) (moment self.new) (image self.old) (image self.new) }
        ensures cause { HasCause (faults self.old) (faults self.new) result }
        ensures calm { OnOk result (faults self.new ≡ faults self.old) }
        ensures honest { is_honest self.new ≡ is_honest self.old }
        ensures ok { OnOk result (allowance self.new ≡ after_sync (allowance self.old)) }
        ensures err { OnErr result (allowance self.new ≡ allowance self.old) }
        ensures armings { armings self.new ≡ armings self.old };

    /// Allocates the memory for writes up to this end, and for the record of the next 16 used calls.
    fn room(&mut self, end: u64) -> Result<(), Memory>
        ensures ok { OnOk result (allowance self.new ≡ after_room end (allowance self.old)) }
        ensures err { OnErr result (self.new ≡ self.old) }
        ensures content { content self.new ≡ content self.old }
        ensures time { StandsStill (moment self.old) (moment self.new) (image self.old) (image self.new) }
        ensures faults { faults self.new ≡ faults self.old }
        ensures honest { is_honest self.new ≡ is_honest self.old }
        ensures armings { armings self.new ≡ armings self.old };

    /// Sets a fault. It replaces an older one.
    fn arm(&mut self, arm: Arm)
        requires { (armings self.old).count < 2 ^ 32 }
        ensures armings { armings self.new ≡ record { count = (armings self.old).count + 1; last = Some arm } }
        ensures content { content self.new ≡ content self.old }
        ensures time { StandsStill (moment self.old) (moment self.new) (image self.old) (image self.new) }
        ensures faults { faults self.new ≡ faults self.old }
        ensures honest { is_honest self.new ≡ is_honest self.old }
        ensures allowance { allowance self.new ≡ allowance self.old };

    /// Revives the disk after a cut: its content is then the image that the cut left. Without a cut, nothing changes.
    fn revive(&mut self)
        ensures image { IsTrue (is_honest self.old) → image self.old (moment self.old) (content self.new) }
        ensures images { (c : List ℕ) → image self.new (moment self.new) c → image self.old (moment self.old) c }
        ensures time { Passes (moment self.old) (moment self.new) (image self.old) (image self.new) }
        ensures faults { faults self.new ≡ faults self.old }
        ensures honest { is_honest self.new ≡ is_honest self.old }
        ensures allowance { allowance self.new ≡ allowance self.old }
        ensures armings { armings self.new ≡ armings self.old };

    /// The content is one of the images.
    ghost content_is_image: { (disk : Self) → IsTrue (is_honest disk) → image disk (moment disk) (content disk) };
}
