use std::io;
use std::time::{Clock, Duration, Instant};

/// A time by which something has to be done.
#[derive(Clone, Copy, Debug)]
pub(crate) struct Deadline {
    since: Instant,
    limit: Duration,
}

impl Deadline {
    /// The time that is `limit` from now.
    pub fn new<C: Clock>(clock: &C, limit: Duration) -> io::Result<Self> {
        Ok(Deadline {
            since: Instant::now(clock)?,
            limit,
        })
    }

    /// The time that is left.
    pub fn left<C: Clock>(&self, clock: &C) -> io::Result<Duration> {
        Ok(self.limit.saturating_sub(self.since.elapsed(clock)?))
    }
}
