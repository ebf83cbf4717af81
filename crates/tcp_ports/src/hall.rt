use crate::Crew;
use crate::bell::Bell;
use crate::peer::Peer;
use crate::waiting_room::{ASKED, NOBODY, RETRY, WaitingRoom, asks};
use libc::net::poll;
use std::alloc::Global;
use std::io;
use std::sync::atomic::{AtomicBool, AtomicU64, Ordering};
use std::sync::{Arc, Mutex, Wait};
use std::thread::sleep;
use std::time::{Clock, Duration};

/// The waiting room of a port, as its listeners share it. Where connections take turns, a worker gives one back between two
/// requests.
#[derive(Drop)]
pub(crate) struct Hall {
    room: Mutex<WaitingRoom>,
    // Whose turn it is to wait: one worker does at a time.
    turn: Mutex<()>,
    // None where connections take no turns.
    bell: Option<Bell>,
    // Whether a worker waits, and so takes up at once who speaks.
    watched: AtomicBool,
    // How many connections are in the room.
    seated: AtomicU64,
    // How many listeners have connections left to serve.
    listeners: AtomicU64,
}

// A time in milliseconds, rounded up.
fn millis(time: Duration) -> i32 {
    i32::try_from(time.as_millis())
        .unwrap_or(i32::MAX)
        .saturating_add(1)
}

impl Hall {
    /// The hall of a port without listeners. With a bell its connections take turns.
    pub fn new(room: WaitingRoom, bell: Option<Bell>) -> Self {
        Hall {
            room: Mutex::new(room),
            turn: Mutex::new(()),
            bell,
            watched: AtomicBool::new(false),
            seated: AtomicU64::new(0),
            listeners: AtomicU64::new(0),
        }
    }

    /// Counts one more listener.
    pub fn add(&self) {
        self.listeners.fetch_add(1, Ordering::SeqCst);
    }

    /// Whether connections take turns.
    pub fn takes_turns(&self) -> bool {
        self.bell.is_some()
    }

    /// Whether a worker that is between two requests of a connection is to look for others: no worker waits for them, and some are
    /// there, or may have come since it looked last if that is long ago.
    pub fn calls(&self, long: bool) -> bool {
        self.takes_turns()
            && !self.watched.load(Ordering::SeqCst)
            && (long || self.seated.load(Ordering::SeqCst) > 0)
    }

    /// The next connection that a worker can take up. One listener waits for it at a time.
    pub fn next<R: Clock + Wait>(&self, rt: &R, crew: &Crew) -> io::Result<Arc<Peer, Global>> {
        let _turn = self.turn.lock(rt);
        for _ in rt.forever() {
            crew.check()?;
            match self.take(rt) {
                Some(peer) => return Ok(peer),
                None => self.watch(rt)?,
            }
        }
        unreachable!()
    }

    /// A worker gives a connection back, which may speak at once.
    pub fn give_back<R: Clock + Wait>(&self, rt: &R, peer: Arc<Peer, Global>) {
        let mut room = self.room.lock(rt);
        room.give_back(rt, peer);
        self.count(&room);
        if let Some(bell) = &self.bell {
            if self.watched.load(Ordering::SeqCst) {
                bell.ring();
            }
        }
    }

    /// A listener has served all its connections. The last one closes the port.
    pub fn leave<R: Wait>(&self, rt: &R) {
        if self.listeners.fetch_sub(1, Ordering::SeqCst) == 1 {
            let mut room = self.room.lock(rt);
            room.close();
        }
    }

    // Tells all workers how many connections are in the room.
    fn count(&self, room: &WaitingRoom) {
        self.seated.store(room.len() as u64, Ordering::SeqCst);
    }

    // Takes a connection that a worker can take up, if there is one.
    fn take<R: Wait>(&self, rt: &R) -> Option<Arc<Peer, Global>> {
        let mut room = self.room.lock(rt);
        let peer = room.take();
        self.count(&room);
        peer
    }

    // Waits until a connection says something or ends, a new one comes, or one is given back, but not for long.
    fn watch<R: Clock + Wait>(&self, rt: &R) -> io::Result<()> {
        let mut asked = [asks(NOBODY); ASKED];
        if let Some(bell) = &self.bell {
            asked[0] = asks(bell.as_raw_fd());
        }
        let (count, time) = {
            let mut room = self.room.lock(rt);
            let wait = room.ask(rt, &mut asked)?;
            self.count(&room);
            self.watched.store(true, Ordering::SeqCst);
            wait
        };
        let told = &mut asked[..count];
        if poll(told, millis(time)) < 0 {
            sleep(rt, Duration::from_millis(RETRY));
        }
        let mut room = self.room.lock(rt);
        self.watched.store(false, Ordering::SeqCst);
        if let Some(bell) = &self.bell {
            if told.first().is_some_and(|answer| answer.revents != 0) {
                bell.hear();
            }
        }
        let heard = room.hear(rt, told);
        self.count(&room);
        heard
    }
}
