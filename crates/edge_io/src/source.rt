ghost use Rattle.std.specs.Prelude.{◌≡◌, List, ℕ, Option, OnOk};
ghost use Rattle.std.specs.Io.{ReadsAtMost};
ghost use Rattle.std.specs.Io.KnownBytes.{ReadConsumes};
ghost use Rattle.qkd_base.specs.Faults.{HasCause};

use crate::Failed;

/// A source gives bytes.
pub trait Source {
    /// The bytes that are left. `None` where contracts don't know them.
    ghost left: { Self → Option (List ℕ) };

    /// How often a read failed.
    ghost faults: { Self → ℕ };

    /// Reads the next bytes into the front of the buffer, and answers how many they are. If the answer is 0 and the
    /// buffer isn't empty, the input has ended. A failure takes no byte from the input, and may leave anything in the
    /// buffer.
    fn read(&mut self, into: &mut [u8]) -> Result<usize, Failed>
        ensures bound { ReadsAtMost result into.new }
        ensures bytes { ReadConsumes (left self.old) (left self.new) result into.new }
        ensures cause { HasCause (faults self.old) (faults self.new) result }
        ensures calm { OnOk result (faults self.new ≡ faults self.old) };
}
