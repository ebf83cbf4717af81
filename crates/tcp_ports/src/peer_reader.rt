// Reading what a peer sends.
ghost use Rattle.std.specs.Prelude.{◌≡◌, ◌≤◌, OnOk, OnErr, length};
ghost use Rattle.std.specs.Counts.{IsPrefixLen};
ghost use Rattle.std.specs.Io.{ReadsAtMost};
ghost use Rattle.std.specs.Io.KnownBytes.{ReadConsumes};
ghost use Rattle.qkd_base.specs.Faults.{HasCause, one_more};
ghost use Rattle.tcp_ports.specs.Tcp.{untold_octets};

use crate::Patience;
use crate::deadline::Deadline;
use crate::hall::Hall;
use crate::peer::Peer;
use crate::request_ends::RequestEnds;
use edge_io::{Ended, Failed, Source};
use qkd_base::Octets;
use std::alloc::Global;
use std::io;
use std::io::ErrorKind;
use std::marker::Model;
use std::sync::{Arc, Wait};
use std::time::{Clock, Duration};

// The most answers of a turn before it is looked whether a new connection has come, where none was seen.
const TURN: u64 = 32;

// The milliseconds that a worker waits for the next request of its connection, where connections take turns.
const STAY: u64 = 4;

/// Reads what a peer sends. Its input has ended, too, where the peer is silent for too long between two requests, or a request isn't
/// whole in time. Each answer that is written ends a request. Where connections take turns, the input of a turn ends between two
/// requests, as others call or the peer is silent.
#[derive(Drop)]
pub struct PeerReader<'a, R> {
    rt: &'a R,
    hall: Arc<Hall, Global>,
    peer: Arc<Peer, Global>,
    patience: Patience,
    ends: RequestEnds,
    // Octets that the turn before has left, and how many of them were read.
    left: Octets,
    taken: usize,
    // Whether octets are left to the next turn, so that this one ends with the request before them.
    leaves: bool,
    // By when the request that has begun must be whole.
    deadline: Option<Deadline>,
    // How many answers were written as the turn began, at the last read, and as the turn ended between two requests.
    before: u64,
    answers: u64,
    rest: Option<u64>,
    faults: u64,
}

impl<'a, R> Model for PeerReader<'a, R> {
    ghost use Rattle.std.specs.Prelude.{ℕ};

    ghost Value = { ℕ };

    ghost view = { λ s. s.faults };
}

impl<'a, R: Clock + Wait> PeerReader<'a, R> {
    pub(crate) fn new(
        rt: &'a R,
        alloc: Global,
        hall: Arc<Hall, Global>,
        peer: Arc<Peer, Global>,
        patience: Patience,
    ) -> Self
        ensures { result ≡ 0 }
    {
        let before = peer.written();
        let left = peer.take_left(rt, alloc);
        PeerReader {
            rt,
            hall,
            peer,
            patience,
            ends: RequestEnds::new(alloc),
            left,
            taken: 0,
            leaves: false,
            deadline: None,
            before,
            answers: before,
            rest: None,
            faults: 0,
        }
    }

    /// The connection, if its turn has ended between two requests, and nothing was written behind that.
    pub(crate) fn into_rest(self, ended: Ended) -> Option<Arc<Peer, Global>> {
        let PeerReader { peer, rest, .. } = self;
        if ended == Ended::Closed && rest == Some(peer.written()) {
            Some(peer)
        } else {
            None
        }
    }

    // Whether others call, behind at least one answer of the turn.
    fn is_called(&self) -> bool {
        let answers = self.peer.written().saturating_sub(self.before);
        answers > 0 && self.hall.calls(answers >= TURN)
    }

    // How long the next read may wait.
    fn wait(&mut self) -> io::Result<Duration>
        ensures { self.new ≡ self.old }
    {
        let written = self.peer.written();
        if written != self.answers {
            self.answers = written;
            self.deadline = None;
        }
        if self.ends.is_between() {
            return Ok(if self.hall.takes_turns() {
                Duration::from_millis(STAY).min(self.patience.silence)
            } else {
                self.patience.silence
            });
        }
        match self.deadline {
            Some(deadline) => deadline.left(self.rt),
            None => self.begin(),
        }
    }

    // Gives the request that has begun all its time.
    fn begin(&mut self) -> io::Result<Duration>
        ensures { self.new ≡ self.old }
    {
        self.deadline = Some(Deadline::new(self.rt, self.patience.request)?);
        Ok(self.patience.request)
    }

    // Reads what the turn before has left.
    fn read_left(&mut self, into: &mut [u8]) -> usize
        ensures count { IsPrefixLen result into.new }
        ensures same { self.new ≡ self.old }
    {
        let Some(rest) = self.left.as_slice().get(self.taken..) else {
            return 0;
        };
        let count = rest.len().min(into.len());
        into[..count].copy_from_slice(&rest[..count]);
        self.taken += count;
        count
    }

    // How many of the octets that came the turn takes. Where others call, those of a request that isn't whole are left to the next
    // turn, also of the first read: the requests before them are answered in this one.
    fn part(&mut self, octets: &[u8]) -> usize
        ensures count { result ≤ length octets.now }
        ensures same { self.new ≡ self.old }
    {
        let end = self.ends.take(octets);
        if end > 0 && end < octets.len() && self.hall.calls(false) {
            if self.peer.leave(self.rt, &octets[end..]).is_ok() {
                self.leaves = true;
                return end;
            }
        }
        octets.len()
    }

    // Reads once, or tells that the input has ended.
    fn next(&mut self, into: &mut [u8]) -> io::Result<usize>
        ensures count { ReadsAtMost result into.new }
        ensures same { self.new ≡ self.old }
    {
        self.rest = None;
        let left = self.read_left(into);
        if left > 0 {
            return Ok(self.part(&into[..left]));
        }
        if self.leaves || (self.ends.is_between() && self.is_called()) {
            return Ok(self.end_turn());
        }
        'reads: for _ in 0..u64::MAX {
            let wait = self.wait()?;
            if wait.is_zero() {
                return Ok(0);
            }
            self.peer.limit_read(wait)?;
            match self.peer.stream.read(into) {
                Ok(count) => {
                    self.peer.hear(self.rt, &into[..count]);
                    return Ok(self.part(&into[..count]));
                }
                Err(error) => match error.kind() {
                    // The process was stopped meanwhile, so the peer gets all its time again.
                    ErrorKind::Interrupted => self.deadline = None,
                    ErrorKind::WouldBlock => return Ok(self.give_up()),
                    _ => return Err(error),
                },
            }
        }
        Err(io::Error::from(ErrorKind::Interrupted))
    }

    // Nothing came in time. Between two requests that ends the turn.
    fn give_up(&mut self) -> usize
        ensures none { result ≡ 0 }
        ensures same { self.new ≡ self.old }
    {
        if self.hall.takes_turns() && self.ends.is_between() {
            return self.end_turn();
        }
        0
    }

    // The turn ends between two requests.
    fn end_turn(&mut self) -> usize
        ensures none { result ≡ 0 }
        ensures same { self.new ≡ self.old }
    {
        self.rest = Some(self.peer.written());
        0
    }
}

impl<R: Clock + Wait> Source for PeerReader<'_, R> {
    ghost left = { λ _. untold_octets };

    ghost faults = { λ s. s };

    fn read(&mut self, into: &mut [u8]) -> Result<usize, Failed>
        ensures bound { ReadsAtMost result into.new }
        ensures bytes { ReadConsumes untold_octets untold_octets result into.new }
        ensures cause { HasCause self.old self.new result }
        ensures calm { OnOk result (self.new ≡ self.old) }
        ensures once { OnErr result (self.new ≡ one_more self.old) }
    {
        match self.next(into) {
            Ok(count) => Ok(count),
            Err(_) => {
                self.faults = self.faults.saturating_add(1);
                Err(Failed)
            }
        }
    }
}
