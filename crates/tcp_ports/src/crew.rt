use std::io;
use std::io::ErrorKind;
use std::sync::atomic::{AtomicBool, AtomicU64, Ordering};
use std::thread::sleep;
use std::time::{Clock, Duration};

// How many times, and milliseconds apart, a listener looks whether all others have a thread too.
const LOOKS: u32 = 1000;

const LOOK: u64 = 10;

/// What the listeners of a program share: how many they are, how many have a thread to serve them, and whether one has failed.
#[derive(Drop)]
pub struct Crew {
    listeners: AtomicU64,
    ready: AtomicU64,
    failed: AtomicBool,
}

impl Crew {
    /// No listener so far.
    pub fn new() -> Self {
        Crew {
            listeners: AtomicU64::new(0),
            ready: AtomicU64::new(0),
            failed: AtomicBool::new(false),
        }
    }

    /// Counts one more listener.
    pub(crate) fn add(&self) {
        self.listeners.fetch_add(1, Ordering::SeqCst);
    }

    /// Tells all listeners that one has failed. From then on none accepts a connection.
    pub(crate) fn fail(&self) {
        self.failed.store(true, Ordering::SeqCst);
    }

    /// An error if a listener has failed.
    pub(crate) fn check(&self) -> io::Result<()> {
        if self.failed.load(Ordering::SeqCst) {
            return Err(io::Error::from(ErrorKind::Other));
        }
        Ok(())
    }

    /// A listener has a thread, and waits until each other one has a thread too. The error says that one hasn't after ten seconds,
    /// or that one has failed.
    pub(crate) fn muster<C: Clock>(&self, clock: &C) -> io::Result<()> {
        self.ready.fetch_add(1, Ordering::SeqCst);
        for _ in 0..LOOKS {
            self.check()?;
            if self.ready.load(Ordering::SeqCst) == self.listeners.load(Ordering::SeqCst) {
                return Ok(());
            }
            sleep(clock, Duration::from_millis(LOOK));
        }
        Err(io::Error::from(ErrorKind::Other))
    }
}
