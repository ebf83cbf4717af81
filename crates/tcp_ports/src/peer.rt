use crate::Log;
use crate::stream::Stream;
use crate::talk::Talk;
use qkd_base::{Memory, Octets};
use std::alloc::Global;
use std::sync::atomic::{AtomicU64, Ordering};
use std::sync::{Mutex, Wait};
use std::time::{Clock, Duration};
use std::{io, mem};

/// A connection, as its reader and its writer share it.
#[derive(Drop)]
pub(crate) struct Peer {
    pub stream: Stream,
    // How many pieces were written whole.
    written: AtomicU64,
    // How many nanoseconds the system lets a read and a write wait. 0 as long as it wasn't told.
    read_wait: AtomicU64,
    write_wait: AtomicU64,
    // Octets that came and are left to the next worker.
    left: Mutex<Octets>,
    // What is told of the connection, if there is a log.
    talk: Option<Mutex<Talk>>,
}

// Notes a wait. The answer is whether another one was noted before.
fn changes(noted: &AtomicU64, wait: Duration) -> bool {
    let nanos = u64::try_from(wait.as_nanos()).unwrap_or(u64::MAX);
    if noted.load(Ordering::SeqCst) == nanos {
        return false;
    }
    noted.store(nanos, Ordering::SeqCst);
    true
}

impl Peer {
    pub fn new(alloc: Global, stream: Stream, talk: Option<Talk>) -> Self {
        Peer {
            stream,
            written: AtomicU64::new(0),
            read_wait: AtomicU64::new(0),
            write_wait: AtomicU64::new(0),
            left: Mutex::new(Octets::new(alloc)),
            talk: match talk {
                Some(talk) => Some(Mutex::new(talk)),
                None => None,
            },
        }
    }

    /// How many pieces were written whole.
    pub fn written(&self) -> u64 {
        self.written.load(Ordering::SeqCst)
    }

    /// Counts a piece that was written whole.
    pub fn count_piece(&self) {
        self.written.fetch_add(1, Ordering::SeqCst);
    }

    /// Lets the system's reads wait no longer than that.
    pub fn limit_read(&self, wait: Duration) -> io::Result<()> {
        if changes(&self.read_wait, wait) {
            self.stream.set_read_timeout(wait)?;
        }
        Ok(())
    }

    /// Lets the system's writes wait no longer than that.
    pub fn limit_write(&self, wait: Duration) -> io::Result<()> {
        if changes(&self.write_wait, wait) {
            self.stream.set_write_timeout(wait)?;
        }
        Ok(())
    }

    /// Leaves octets that came to the next worker.
    pub fn leave<R: Wait>(&self, rt: &R, octets: &[u8]) -> Result<(), Memory> {
        self.left.lock(rt).extend(octets)
    }

    /// Takes the octets that the worker before has left.
    pub fn take_left<R: Wait>(&self, rt: &R, alloc: Global) -> Octets {
        mem::replace(&mut *self.left.lock(rt), Octets::new(alloc))
    }

    /// Octets came from the peer.
    pub fn hear<R: Wait>(&self, rt: &R, octets: &[u8]) {
        if let Some(talk) = &self.talk {
            talk.lock(rt).hear(octets);
        }
    }

    /// Octets go to the peer, or don't since it has stopped to take any.
    pub fn say<R: Clock + Wait + Eprint>(&self, rt: &R, log: &Log, octets: &[u8], cut: bool) {
        if let Some(talk) = &self.talk {
            talk.lock(rt).say(rt, log, octets, cut);
        }
    }
}
