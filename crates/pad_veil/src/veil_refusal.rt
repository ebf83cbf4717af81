// Errors of exchanging payloads.
ghost use Rattle.std.specs.Prelude.{◌≡◌};
ghost use Rattle.pad_veil.specs.declared.veil_refusal.VeilRefusal.TheVariants.{Memory};

use std::alloc::AllocError;
use std::error::Error;
use std::fmt;

/// Why the payloads of frames were not exchanged. Each error but `Memory` gives the place of the first frame with a fault,
/// counted from 0, and is that frame's first fault.
#[derive(Clone, Copy, Debug, PartialEq, Eq)]
pub enum VeilRefusal {
    /// The two payloads differ in length.
    Unequal(usize),
    /// The frame begins within the lane's first 8 bytes, its hash key, or ends past the end of the lane.
    Outside(usize),
    /// A byte that masks the frame's payload or tag masks that of an earlier frame too.
    Overlap(usize),
    /// Memory ran out.
    Memory,
}

impl From<AllocError> for VeilRefusal {
    ghost from_gives = { λ _ e. e ≡ Memory };

    fn from(_: AllocError) -> Self {
        VeilRefusal::Memory
    }
}

impl fmt::Display for VeilRefusal {
    ghost use Rattle.std.specs.Prelude.{Some};
    ghost use Rattle.pad_veil.specs.Sayings.{said_of};

    ghost output = { λ r. Some (said_of r) };

    fn fmt<W: fmt::Write>(&self, f: &mut fmt::Formatter<W>) -> fmt::Result {
        match self {
            VeilRefusal::Unequal(place) => write!(f, "frame {place} has payloads of two lengths"),
            VeilRefusal::Outside(place) => write!(f, "frame {place} lies outside of the lane"),
            VeilRefusal::Overlap(place) => write!(f, "frame {place} meets an earlier one"),
            VeilRefusal::Memory => write!(f, "out of memory"),
        }
    }
}

impl Error for VeilRefusal {}
