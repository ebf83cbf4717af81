// Errors of devices and entropies.
use std::error::Error;
use std::fmt;

/// Why a device or an entropy gave no octets.
#[derive(Clone, Copy, Debug, PartialEq, Eq)]
pub enum Shortage {
    /// The call failed. The count of faults rose by one, unless it was at its greatest.
    Failed,
    /// The list has too few octets left.
    End,
}

impl fmt::Display for Shortage {
    ghost use Rattle.std.specs.Prelude.{Some};
    ghost use Rattle.source_devices.specs.Sayings.{shortage_said};

    ghost output = { λ r. Some (shortage_said r) };

    fn fmt<W: fmt::Write>(&self, f: &mut fmt::Formatter<W>) -> fmt::Result {
        match self {
            Shortage::Failed => write!(f, "the call failed"),
            Shortage::End => write!(f, "the list is at its end"),
        }
    }
}

impl Error for Shortage {}
