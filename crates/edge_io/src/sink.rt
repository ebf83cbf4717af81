ghost use Rattle.std.specs.Prelude.{◌≡◌, List, ℕ, Option, None, OnOk, false};
ghost use Rattle.qkd_base.specs.Faults.{HasCause};
ghost use Rattle.edge_io.specs.Writes.{WritesAll, TakesPiece, IsUntold};

use crate::Failed;

/// A sink takes bytes.
pub trait Sink {
    /// The bytes that were taken. `None` where contracts don't know them.
    ghost taken: { Self → Option (List ℕ) };

    /// The pieces that were taken whole, one for each write that succeeded. `None` where contracts don't know them.
    ghost pieces: { Self → Option (List (List ℕ)) } = { λ _. None };

    /// How often a write failed.
    ghost faults: { Self → ℕ };

    /// Takes all of the bytes, as one piece. If it fails, a prefix of them was taken, and no piece.
    fn write_all(&mut self, bytes: &[u8]) -> Result<(), Failed>
        ensures bytes { WritesAll (taken self.old) (taken self.new) result bytes.now }
        ensures piece { TakesPiece (pieces self.old) (pieces self.new) result bytes.now }
        ensures cause { HasCause (faults self.old) (faults self.new) result }
        ensures calm { OnOk result (faults self.new ≡ faults self.old) };

    /// Whether anybody reads what the sink takes. If not, contracts know nothing of it, and the caller may leave out
    /// making texts for it.
    fn is_heard(&self) -> bool
        ensures { result ≡ false → IsUntold (taken self.now) (pieces self.now) }
    {
        true
    }
}
