// The error of a claim for which there are too few bytes.
use std::error::Error;
use std::fmt;

/// There are too few bytes before the end for the claim.
#[derive(Clone, Copy, Debug, PartialEq, Eq)]
pub struct Short {
    /// The place where the claim would begin.
    pub used: u64,
    /// The end that the claim must not pass.
    pub end: u64,
}

impl fmt::Display for Short {
    ghost use Rattle.std.specs.Prelude.{Some};
    ghost use Rattle.pad_ledger.specs.Sayings.{said_of};

    ghost output = { λ r. Some (said_of r) };

    fn fmt<W: fmt::Write>(&self, f: &mut fmt::Formatter<W>) -> fmt::Result {
        write!(f, "short of bytes: {} of {} are used", self.used, self.end)
    }
}

impl Error for Short {}
