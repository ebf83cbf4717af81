// Files that keep the octets of a disk.
ghost use Rattle.std.specs.Prelude.{◌≡◌, List, ℕ, Option, OnOk};
ghost use Rattle.disk_model.specs.Kept.{IsOverlaid};

use crate::DiskFailed;

/// A file that keeps the octets of a disk.
pub trait OctetFile {
    /// The octets that it has. `None` where contracts don't know them.
    ghost octets: { Self → Option (List ℕ) };

    /// The octets that it has for good, whatever crashes. `None` where contracts don't know them.
    ghost durable: { Self → Option (List ℕ) };

    /// Writes octets at place `at`, over old octets and past the old end.
    fn write_at(&mut self, at: u64, bytes: &[u8]) -> Result<(), DiskFailed>
        ensures octets { OnOk result (IsOverlaid at bytes.now (octets self.old) (octets self.new)) }
        ensures durable { durable self.new ≡ durable self.old };

    /// Makes the octets durable.
    fn sync(&mut self) -> Result<(), DiskFailed>
        ensures durable { OnOk result (durable self.new ≡ octets self.old) }
        ensures octets { octets self.new ≡ octets self.old };
}
