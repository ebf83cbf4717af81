use std::error::Error;
use std::fmt;

/// Why some connections were not served.
#[derive(Clone, Copy, Debug, PartialEq, Eq)]
pub enum ServeRefusal {
    /// A listener failed. The connections that it had accepted before are served to their end, and so are those of the other
    /// listeners.
    Listen,
    /// Out of memory. Nothing was done.
    Memory,
}

impl fmt::Display for ServeRefusal {
    fn fmt<W: fmt::Write>(&self, f: &mut fmt::Formatter<W>) -> fmt::Result {
        let text = match self {
            ServeRefusal::Listen => "listen fault",
            ServeRefusal::Memory => "out of memory",
        };
        write!(f, "{text}")
    }
}

impl Error for ServeRefusal {}
