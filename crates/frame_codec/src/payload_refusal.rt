// Errors of reading a payload.
use std::error::Error;
use std::fmt;

/// Why no payload was read from octets.
#[derive(Clone, Copy, Debug, PartialEq, Eq)]
pub enum PayloadRefusal {
    /// The octets aren't the spelling of a payload. The place, counted from 0, is the first octet of the field that doesn't
    /// fit or is cut off, or the first octet behind the last field.
    NotAPayload(usize),
    /// Memory ran out. The octets are a payload.
    Memory,
}

impl fmt::Display for PayloadRefusal {
    ghost use Rattle.std.specs.Prelude.{Some};
    ghost use Rattle.frame_codec.specs.Sayings.{said_of};

    ghost output = { λ r. Some (said_of r) };

    fn fmt<W: fmt::Write>(&self, f: &mut fmt::Formatter<W>) -> fmt::Result {
        match self {
            PayloadRefusal::NotAPayload(place) => write!(f, "no payload, from octet {place} on"),
            PayloadRefusal::Memory => write!(f, "out of memory"),
        }
    }
}

impl Error for PayloadRefusal {}
