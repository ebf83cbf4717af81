use std::error::Error;
use std::fmt;

/// Why a body of records was refused.
#[derive(Clone, Copy, Debug, PartialEq, Eq)]
pub enum RecordRefusal {
    /// The octets aren't the encoding of a batch. The place, counted from 0, is that of the first octet of the field that
    /// doesn't fit or is cut off, or of the first octet after the last record.
    NotARecord(usize),
    /// Out of memory.
    Memory,
}

impl fmt::Display for RecordRefusal {
    ghost use Rattle.std.specs.Prelude.{Some};
    ghost use Rattle.journal_records.specs.Sayings.{said_of};

    ghost output = { λ r. Some (said_of r) };

    fn fmt<W: fmt::Write>(&self, f: &mut fmt::Formatter<W>) -> fmt::Result {
        match self {
            RecordRefusal::NotARecord(place) => write!(f, "no records, from octet {place} on"),
            RecordRefusal::Memory => write!(f, "out of memory"),
        }
    }
}

impl Error for RecordRefusal {}
