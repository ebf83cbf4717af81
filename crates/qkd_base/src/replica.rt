// Copies, which fail if memory runs out.
ghost use Rattle.std.specs.Prelude.{◌≡◌, IfOk};

use crate::Memory;

/// A value that can be copied. Making the copy fails if memory runs out.
pub trait Replica: Sized {
    /// A copy, which is equal to the value.
    fn copy(&self) -> Result<Self, Memory>
        ensures { IfOk result (λ same. same ≡ self.now) };
}
