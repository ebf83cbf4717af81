use crate::Service;
use crate::deadline::Deadline;
use crate::peer::Peer;
use std::alloc::Global;
use std::io;
use std::io::{ErrorKind, Write};
use std::sync::{Arc, Wait};
use std::time::{Clock, Duration};

/// Writes to a peer. A write fails where the peer doesn't take all up to the next flush in time.
#[derive(Drop)]
pub struct PeerWriter<'a, R> {
    rt: &'a R,
    peer: Arc<Peer, Global>,
    service: Service<'a>,
    // By when what is written must be taken. After a flush there is none.
    deadline: Option<Deadline>,
}

impl<'a, R: Clock> PeerWriter<'a, R> {
    pub(crate) fn new(rt: &'a R, peer: Arc<Peer, Global>, service: Service<'a>) -> Self {
        PeerWriter {
            rt,
            peer,
            service,
            deadline: None,
        }
    }

    // How long the next write may wait. The first one begins the time.
    fn left(&mut self) -> io::Result<Duration> {
        match self.deadline {
            Some(deadline) => deadline.left(self.rt),
            None => {
                self.deadline = Some(Deadline::new(self.rt, self.service.patience.request)?);
                Ok(self.service.patience.request)
            }
        }
    }
}

impl<R: Clock + Wait + Eprint> PeerWriter<'_, R> {
    // Tells the log, if there is one, of octets that went, or were cut.
    fn tell(&self, octets: &[u8], cut: bool) {
        if let Some(log) = self.service.log {
            self.peer.say(self.rt, log, octets, cut);
        }
    }
}

impl<R: Clock + Wait + Eprint> Write for PeerWriter<'_, R> {
    fn write(&mut self, bytes: &[u8]) -> io::Result<usize> {
        for _ in 0..u64::MAX {
            let wait = self.left()?;
            if wait.is_zero() {
                self.tell(bytes, true);
                return Err(io::Error::from(ErrorKind::TimedOut));
            }
            self.peer.limit_write(wait)?;
            match self.peer.stream.write(bytes) {
                Ok(count) => {
                    self.tell(&bytes[..count], false);
                    return Ok(count);
                }
                Err(error) if error.kind() == ErrorKind::Interrupted => self.deadline = None,
                Err(error) => {
                    self.tell(bytes, true);
                    return Err(error);
                }
            }
        }
        Err(io::Error::from(ErrorKind::Interrupted))
    }

    fn flush(&mut self) -> io::Result<()> {
        self.deadline = None;
        self.peer.count_piece();
        Ok(())
    }
}
