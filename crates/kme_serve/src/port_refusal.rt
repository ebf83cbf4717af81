use std::error::Error;
use std::fmt;

/// Why the listeners were not opened.
#[derive(Clone, Copy, Debug, PartialEq, Eq)]
pub enum DoorRefusal {
    /// A port or a listener failed. The listeners opened before were given back.
    Listen,
    /// Out of memory. No port was asked for.
    Memory,
}

impl fmt::Display for DoorRefusal {
    fn fmt<W: fmt::Write>(&self, f: &mut fmt::Formatter<W>) -> fmt::Result {
        let text = match self {
            DoorRefusal::Listen => "listen fault",
            DoorRefusal::Memory => "out of memory",
        };
        write!(f, "{text}")
    }
}

impl Error for DoorRefusal {}
