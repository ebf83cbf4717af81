// Why a block isn't taken.
ghost use Rattle.std.specs.Prelude.{◌≡◌};
ghost use Rattle.link_segments.specs.declared.take_refusal.TakeRefusal.TheVariants.{Memory};

use std::alloc::AllocError;
use std::error::Error;
use std::fmt;

/// Why a block isn't taken. The lanes are unchanged.
#[derive(Clone, Copy, Debug, PartialEq, Eq)]
pub enum TakeRefusal {
    /// The end already holds all of the link's 1,024 blocks.
    Full,
    /// The block isn't the next one, which is the block of this number.
    OutOfOrder(u32),
    /// Memory ran out.
    Memory,
}

impl From<AllocError> for TakeRefusal {
    ghost from_gives = { λ _ e. e ≡ Memory };

    fn from(_: AllocError) -> Self {
        TakeRefusal::Memory
    }
}

impl fmt::Display for TakeRefusal {
    ghost use Rattle.std.specs.Prelude.{Some};
    ghost use Rattle.link_segments.specs.Sayings.{said_of};

    ghost output = { λ r. Some (said_of r) };

    fn fmt<W: fmt::Write>(&self, f: &mut fmt::Formatter<W>) -> fmt::Result {
        match self {
            TakeRefusal::Full => write!(f, "the link has 1024 blocks"),
            TakeRefusal::OutOfOrder(expected) => write!(f, "block {expected} is the next"),
            TakeRefusal::Memory => write!(f, "out of memory"),
        }
    }
}

impl Error for TakeRefusal {}
