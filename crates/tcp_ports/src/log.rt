use crate::answer::Answer;
use jiff::Timestamp;
use std::io;
use std::sync::{Mutex, Wait};
use std::time::Clock;

/// Tells on standard error, a line each, of requests and of ports. A line has the time first, and never a key's bytes. Where it
/// can't be written, nothing is told.
#[derive(Drop)]
pub struct Log {
    // Whose turn it is to write a line: lines of several threads don't mix.
    turn: Mutex<()>,
}

impl Log {
    pub fn new() -> Self {
        Log {
            turn: Mutex::new(()),
        }
    }

    /// A node's port is open, at this address.
    pub(crate) fn opened<R: Clock + Wait + Eprint>(&self, rt: &R, node: u16, address: &str) {
        let _turn = self.turn.lock(rt);
        let _ = match Timestamp::now(rt) {
            Ok(time) => eprintln!(rt; "{time:.3} node {node} listens at {address}"),
            Err(_) => eprintln!(rt; "- node {node} listens at {address}"),
        };
    }

    /// A request to a node was answered, or its answer was cut. `asked` says who asked for what.
    pub(crate) fn answered<R: Clock + Wait + Eprint>(
        &self,
        rt: &R,
        node: u16,
        asked: &str,
        answer: Answer,
        cut: bool,
    ) {
        let Answer { status, keys } = answer;
        let end = if cut { " cut" } else { "" };
        let _turn = self.turn.lock(rt);
        let _ = match Timestamp::now(rt) {
            Ok(time) => eprintln!(rt; "{time:.3} node {node} {asked} {status} keys {keys}{end}"),
            Err(_) => eprintln!(rt; "- node {node} {asked} {status} keys {keys}{end}"),
        };
    }
}
