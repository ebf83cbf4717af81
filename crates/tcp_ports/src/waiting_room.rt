// The connections of a port that no worker has.
ghost use Rattle.std.specs.Prelude.{◌≤◌, ◌<◌, IfOk};

use crate::Patience;
use crate::entrance::Entrance;
use crate::peer::Peer;
use crate::talk::Talk;
use libc::EMFILE;
use libc::net::POLLIN;
use libc::types::pollfd;
use std::alloc::Global;
use std::io;
use std::io::ErrorKind;
use std::os::fd::RawFd;
use std::sync::Arc;
use std::time::{Clock, Duration, Instant};

// The most connections that wait, beyond which none is accepted.
const ROOM: usize = 128;

// The most connections that wait, with those that workers gave back.
const SEATS: usize = 160;

// What a wait asks besides, in places before those of the connections: the bell, and the entrance.
const BEFORE: usize = 2;

const ENTRANCE: usize = 1;

/// The most places of what a wait asks.
pub(crate) const ASKED: usize = 162;

// The most milliseconds of one wait, behind which it is looked whether another listener has failed.
const LOOK: u64 = 500;

/// The milliseconds until what failed is tried again, as an accept where descriptors or memory were wanting.
pub(crate) const RETRY: u64 = 50;

/// Stands for a descriptor where none is asked.
pub(crate) const NOBODY: RawFd = -1;

// The system's numbers of errors for which the table of open files is full, and the memory of sockets.
const ENFILE: i32 = 23;

const ENOBUFS: i32 = 105;

// A connection that was accepted or given back and has said nothing since, as far as is known.
#[derive(Drop)]
struct Waiting {
    peer: Arc<Peer, Global>,
    since: Instant,
    // Whether a worker can take it up.
    ready: bool,
}

// How the system answered an accept.
#[derive(Clone, Copy)]
enum Admitted {
    // A connection came, or one went before it was accepted.
    One,
    // None waits.
    Nobody,
    // Descriptors or memory are wanting.
    Crowd,
}

/// An entrance, and those of its connections that no worker has. A worker gets a connection once an octet is there, its peer has
/// ended it, or its peer was silent for too long.
#[derive(Drop)]
pub(crate) struct WaitingRoom {
    alloc: Global,
    // None once the port is closed.
    entrance: Option<Entrance>,
    patience: Patience,
    // The node of the port, where its connections are told of.
    told: Option<u16>,
    // Whether some may have to stay at the system's door.
    crowded: bool,
    // Those that wait longest come first.
    waiting: Vec<Waiting>,
}

/// What a descriptor is asked.
pub(crate) fn asks(fd: RawFd) -> pollfd {
    pollfd {
        fd,
        events: POLLIN,
        revents: 0,
    }
}

// What an accept that failed tells. Any other error is one of the listener.
fn told_by(error: io::Error) -> io::Result<Admitted> {
    match (error.kind(), error.raw_os_error()) {
        (ErrorKind::WouldBlock, _) => Ok(Admitted::Nobody),
        (ErrorKind::Interrupted, _) => Ok(Admitted::One),
        (ErrorKind::ConnectionAborted, _) => Ok(Admitted::One),
        (ErrorKind::ConnectionReset, _) => Ok(Admitted::One),
        (ErrorKind::OutOfMemory, _) => Ok(Admitted::Crowd),
        (_, Some(EMFILE | ENFILE | ENOBUFS)) => Ok(Admitted::Crowd),
        _ => Err(error),
    }
}

impl WaitingRoom {
    /// The waiting room of an entrance, with nobody in it. Where its connections are told of, they are those of this node.
    pub fn new(
        alloc: Global,
        entrance: Entrance,
        patience: Patience,
        told: Option<u16>,
    ) -> io::Result<Self> {
        entrance.set_nonblocking()?;
        Ok(WaitingRoom {
            alloc,
            entrance: Some(entrance),
            patience,
            told,
            crowded: false,
            waiting: Vec::with_capacity(alloc, SEATS)?,
        })
    }

    /// How many connections wait.
    pub fn len(&self) -> usize {
        self.waiting.len()
    }

    /// Takes the connection that waits longest of those that a worker can take up.
    pub fn take(&mut self) -> Option<Arc<Peer, Global>> {
        for place in 0..self.waiting.len() {
            if self.waiting[place].ready {
                return Some(self.waiting.remove(place).peer);
            }
        }
        None
    }

    /// A worker gives a connection back. Where memory is wanting, it ends.
    pub fn give_back<C: Clock>(&mut self, clock: &C, peer: Arc<Peer, Global>) {
        // The connection is closed as it is dropped.
        let _ = self.seat(clock, peer);
    }

    /// Closes the port, and the connections that wait.
    pub fn close(&mut self) {
        self.entrance = None;
        self.waiting.clear();
    }

    // Has a connection wait.
    fn seat<C: Clock>(&mut self, clock: &C, peer: Arc<Peer, Global>) -> io::Result<()> {
        let since = Instant::now(clock)?;
        self.waiting.push(Waiting {
            peer,
            since,
            ready: false,
        })?;
        Ok(())
    }

    // Takes in who waits at the system's door. The answer is whether some may have to stay there.
    fn admit<C: Clock>(&mut self, clock: &C) -> io::Result<bool> {
        for _ in self.waiting.len()..ROOM {
            match self.admit_one(clock)? {
                Admitted::One => {}
                Admitted::Nobody => return Ok(false),
                Admitted::Crowd => return Ok(true),
            }
        }
        Ok(true)
    }

    // Takes in one connection. Each write at it is sent at once, since a peer that sent several requests may wait for all
    // responses before it sends more.
    fn admit_one<C: Clock>(&mut self, clock: &C) -> io::Result<Admitted> {
        let Some(entrance) = &self.entrance else {
            return Err(io::Error::from(ErrorKind::NotConnected));
        };
        let stream = match entrance.accept() {
            Ok(stream) => stream,
            Err(error) => return told_by(error),
        };
        if stream.set_nodelay().is_err() {
            return Ok(Admitted::One);
        }
        let talk = match self.told {
            Some(node) => Some(Talk::new(self.alloc, node)),
            None => None,
        };
        let Ok(peer) = Arc::new(self.alloc, Peer::new(self.alloc, stream, talk)) else {
            return Ok(Admitted::Crowd);
        };
        match self.seat(clock, peer) {
            Ok(()) => Ok(Admitted::One),
            Err(error) if error.kind() == ErrorKind::OutOfMemory => Ok(Admitted::Crowd),
            Err(error) => Err(error),
        }
    }

    // How long a connection may be silent.
    fn patience(&self) -> Duration {
        if self.crowded {
            self.patience.crowd
        } else {
            self.patience.silence
        }
    }

    /// Writes what a wait is for behind the first place of a list: a new connection, unless none can be accepted, and an octet or the
    /// end of each that waits. The answer is how many places are written, and how long to wait.
    pub fn ask<C: Clock>(
        &mut self,
        clock: &C,
        asked: &mut [pollfd; ASKED],
    ) -> io::Result<(usize, Duration)>
        ensures { IfOk result (λ wait. wait.0 ≤ 162) }
    {
        if self.crowded {
            self.crowded = self.admit(clock)?;
        }
        asked[ENTRANCE] = match &self.entrance {
            Some(entrance) if !self.crowded => asks(entrance.as_raw_fd()),
            _ => asks(NOBODY),
        };
        let count = self.waiting.len().min(SEATS);
        for place in 0..count {
            asked[BEFORE + place] = asks(self.waiting[place].peer.stream.as_raw_fd());
        }
        let longest = Duration::from_millis(if self.crowded { RETRY } else { LOOK });
        let left = match self.waiting.first() {
            Some(first) => self.patience().saturating_sub(first.since.elapsed(clock)?),
            None => longest,
        };
        Ok((BEFORE + count, left.min(longest)))
    }

    /// Takes what a wait has told, in the list that it was asked by. Who was given back meanwhile is behind those that it asked for.
    pub fn hear<C: Clock>(&mut self, clock: &C, told: &[pollfd]) -> io::Result<()> {
        for (waiting, answer) in self.waiting.iter_mut().zip(told.iter().skip(BEFORE)) {
            waiting.ready = answer.revents != 0;
        }
        if told.get(ENTRANCE).is_some_and(|answer| answer.revents != 0) {
            self.crowded = self.admit(clock)?;
        }
        self.end_late(clock)
    }

    // Ends the input of each connection that was silent for too long. Its worker will find that it has ended.
    fn end_late<C: Clock>(&mut self, clock: &C) -> io::Result<()> {
        let patience = self.patience();
        let now = Instant::now(clock)?;
        for waiting in &mut self.waiting {
            if now.duration_since(waiting.since) < patience {
                break;
            }
            if !waiting.ready {
                // It may have ended before.
                let _ = waiting.peer.stream.end_input();
                waiting.ready = true;
            }
        }
        Ok(())
    }
}
