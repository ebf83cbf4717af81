// An outside call that failed.
use std::error::Error;
use std::fmt;

/// The error of a read, a write, an accept or an opening that failed. The object's count of faults rose.
#[derive(Clone, Copy, Debug, PartialEq, Eq)]
pub struct Failed;

impl fmt::Display for Failed {
    ghost use Rattle.std.specs.Prelude.{Some, codes};

    ghost output = { λ _. Some (codes "the call failed") };

    fn fmt<W: fmt::Write>(&self, f: &mut fmt::Formatter<W>) -> fmt::Result {
        write!(f, "the call failed")
    }
}

impl Error for Failed {}
