// Why a manager isn't started.
use std::error::Error;
use std::fmt;

/// Why a manager wasn't started.
#[derive(Clone, Copy, Debug, PartialEq, Eq)]
pub enum RecoverRefusal {
    /// The disk failed.
    Stopped,
    /// The disk has no journal, or a journal with a batch that can't be read. The number is the offset of the first
    /// octet that can't be a journal's, or of that batch's gate.
    Foreign(u64),
    /// Out of memory. No checkpoint was begun.
    Memory,
}

impl fmt::Display for RecoverRefusal {
    ghost use Rattle.std.specs.Prelude.{Some};
    ghost use Rattle.kme_journal.specs.Sayings.{said_of};

    ghost output = { λ r. Some (said_of r) };

    fn fmt<W: fmt::Write>(&self, f: &mut fmt::Formatter<W>) -> fmt::Result {
        match self {
            RecoverRefusal::Stopped => write!(f, "the disk failed"),
            RecoverRefusal::Foreign(place) => write!(f, "no journal at octet {place}"),
            RecoverRefusal::Memory => write!(f, "out of memory"),
        }
    }
}

impl Error for RecoverRefusal {}
