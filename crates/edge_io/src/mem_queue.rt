// The connections that wait for a listener in memory.
ghost use Rattle.std.specs.Prelude.{◌≡◌, IfOk};

use crate::{MemConnection, MemFinished};
use qkd_base::Memory;
use std::alloc::Global;
use std::collections::VecDeque;
use std::marker::Model;

/// The connections that wait for one listener, with room to keep them when they are finished. The list `fails` has the
/// numbers of the listener's calls that fail.
#[derive(Debug, Drop)]
pub struct MemQueue {
    pub(crate) waiting: VecDeque<MemConnection>,
    pub(crate) done: Vec<MemFinished>,
    pub(crate) fails: Vec<u64>,
}

impl Model for MemQueue {
    ghost use Rattle.std.specs.Prelude.{◌≡◌, ◌≤◌, [], vec_capacity};
    ghost use Rattle.std.specs.VecDeque.{deque_len};
    ghost use Rattle.edge_io.specs.Doors.{QueueForm};

    ghost Value = { QueueForm };

    ghost view = { λ q. record { waiting = q.waiting.items; fails = q.fails.items } };

    ghost invariant = { λ q. (deque_len q.waiting ≤ vec_capacity q.done) × (q.done.items ≡ []) };
}

impl MemQueue {
    /// The queue of these connections, in order.
    pub fn new(alloc: Global, waiting: Vec<MemConnection>, fails: Vec<u64>) -> Result<Self, Memory>
        ensures { IfOk result (λ q. q ≡ record { waiting = waiting.items; fails = fails.items }) }
    {
        let done = Vec::with_capacity(alloc, waiting.len())?;
        Ok(MemQueue {
            waiting: VecDeque::from(waiting),
            done,
            fails,
        })
    }
}
