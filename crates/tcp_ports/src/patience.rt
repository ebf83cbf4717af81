use std::time::Duration;

/// How long a connection may let its worker wait.
#[derive(Clone, Copy, Debug, PartialEq, Eq)]
pub struct Patience {
    /// For the first octet of a request, counted from the answer to the one before. A connection that is new may be silent for as
    /// long.
    pub silence: Duration,
    /// For the rest of a request, counted from its first octet, and for all of a write to be taken.
    pub request: Duration,
    /// For the first octet of a new connection, where no more connections can be accepted beside it.
    pub crowd: Duration,
}
