// The error of a lane that has too few bytes.
use std::error::Error;
use std::fmt;

/// The lane has fewer bytes than were asked for.
#[derive(Clone, Copy, Debug, PartialEq, Eq)]
pub struct NoBits {
    /// How many bytes of the lane were received.
    pub have: u64,
}

impl fmt::Display for NoBits {
    ghost use Rattle.std.specs.Prelude.{Some};
    ghost use Rattle.link_segments.specs.Sayings.{lack_said};

    ghost output = { λ r. Some (lack_said r) };

    fn fmt<W: fmt::Write>(&self, f: &mut fmt::Formatter<W>) -> fmt::Result {
        write!(f, "no bits past {}", self.have)
    }
}

impl Error for NoBits {}
