// Why a served scenario ends before all is done.
use run_lines::Stop;
use std::error::Error;
use std::fmt;

/// Why a served scenario ends before all is done.
#[derive(Clone, Copy, Debug, PartialEq, Eq)]
pub enum ServeStop {
    /// The scenario's lines ended for this cause, or the writing of the last line did.
    Stopped(Stop),
    /// A port or a listener failed.
    Listen,
}

impl fmt::Display for ServeStop {
    fn fmt<W: fmt::Write>(&self, f: &mut fmt::Formatter<W>) -> fmt::Result {
        match self {
            ServeStop::Stopped(stop) => write!(f, "{stop}"),
            ServeStop::Listen => write!(f, "a port or a listener failed"),
        }
    }
}

impl Error for ServeStop {}
