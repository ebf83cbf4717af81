// Why keys aren't counted.
ghost use Rattle.std.specs.Prelude.{◌≡◌};
ghost use Rattle.tag_bound.specs.declared.refusal.RootRefusal.TheVariants.{Memory};

use qkd_base::Memory;
use std::error::Error;
use std::fmt;

/// Why keys aren't counted. The cases are tried in this order.
#[derive(Clone, Copy, Debug, PartialEq, Eq)]
pub enum RootRefusal {
    /// A text has more than 600 octets.
    TooLong,
    /// The texts are equal: every key gives them the difference 0.
    Equal,
    /// The first place, counted from 0, of a key that is at an earlier place, too.
    Repeated(usize),
    /// Memory ran out.
    Memory,
}

impl From<Memory> for RootRefusal {
    ghost from_gives = { λ _ e. e ≡ Memory };

    fn from(_: Memory) -> Self {
        RootRefusal::Memory
    }
}

impl fmt::Display for RootRefusal {
    ghost use Rattle.std.specs.Prelude.{Some};
    ghost use Rattle.tag_bound.specs.Sayings.{said_of};

    ghost output = { λ r. Some (said_of r) };

    fn fmt<W: fmt::Write>(&self, f: &mut fmt::Formatter<W>) -> fmt::Result {
        match self {
            RootRefusal::TooLong => write!(f, "a text has more than 600 octets"),
            RootRefusal::Equal => write!(f, "the texts are equal"),
            RootRefusal::Repeated(place) => write!(f, "the key at place {place} is repeated"),
            RootRefusal::Memory => write!(f, "out of memory"),
        }
    }
}

impl Error for RootRefusal {}
