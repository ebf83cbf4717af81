// Errors of reading a field.
ghost use Rattle.std.specs.Prelude.{◌≡◌};
ghost use Rattle.frame_codec.specs.declared.fault.Fault.TheVariants.{Memory};

use std::alloc::AllocError;

/// Why a field was not read. `Left(n)`: the field doesn't fit or is cut off, and n octets are left from its first one on.
/// `Memory`: memory ran out.
#[derive(Clone, Copy, Debug, PartialEq, Eq)]
pub enum Fault {
    Left(usize),
    Memory,
}

impl From<qkd_base::Memory> for Fault {
    ghost from_gives = { λ _ e. e ≡ Memory };

    fn from(_: qkd_base::Memory) -> Self {
        Fault::Memory
    }
}
