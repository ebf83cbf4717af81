// A listener in memory.
ghost use Rattle.std.specs.Prelude.{◌≡◌, ◌+◌, ◌<◌, ◌^◌, ◌==◌, ◌||◌, ◌++◌, ◌∷◌, [], Some, length, is_err, OnOk, OnErr, IfOk, MatchResult, IsSome};
ghost use Rattle.qkd_base.specs.Faults.{HasCause, one_more};
ghost use Rattle.edge_io.specs.Writes.{Adds};
ghost use Rattle.edge_io.specs.Forms.{is_listed};
ghost use Rattle.edge_io.specs.Connections.{Finished, IsNext, IsFirstQueue, IsNewDoor};
ghost use Rattle.edge_io.specs.Doors.{ConnectionForm, QueueForm, source_of, sink_of, door_of, listener_of, sent_of, queues_of};

use crate::{
    Ended, Failed, Listener, MemConnection, MemFinished, MemQueue, MemSink, MemSocket, MemSource,
};
use std::collections::VecDeque;
use std::marker::Model;

/// A listener whose connections are in memory. Its calls of `accept` and `twin` are numbered together from 0. A call
/// fails if its number is in the list `fails`. An accept also fails if no connection waits, and a twin if no queue is
/// left for it. A call that fails changes only the counts of calls and faults. A twin has no twins of its own.
#[derive(Debug, Drop)]
pub struct MemListener {
    port: u16,
    waiting: VecDeque<MemConnection>,
    done: Vec<MemFinished>,
    twins: VecDeque<MemQueue>,
    accepted: u64,
    fails: Vec<u64>,
    calls: u64,
    faults: u64,
}

impl Model for MemListener {
    ghost use Rattle.std.specs.Prelude.{◌≤◌, ◌+◌, ◌^◌, Some, map, vec_capacity};
    ghost use Rattle.std.specs.VecDeque.{deque_len};
    ghost use Rattle.edge_io.specs.Connections.{Finished};
    ghost use Rattle.edge_io.specs.Doors.{ListenerForm};

    ghost Value = { ListenerForm };

    ghost use Rattle.edge_io.specs.Done.{done_of};

    ghost view = { λ s. record { port = s.port; waiting = s.waiting.items; done = done_of s.done.items; twins = s.twins.items; accepted = s.accepted; fails = s.fails.items; calls = s.calls; faults = s.faults } };

    ghost invariant = { λ s. (s.accepted + deque_len s.waiting ≤ vec_capacity s.done) × (s.accepted ≤ 2 ^ 48) };
}

impl MemListener {
    ghost use Rattle.edge_io.specs.Done.{done_of};

    // A listener before its first call.
    fn of_queue(port: u16, queue: MemQueue, twins: VecDeque<MemQueue>) -> Self
        ensures { result ≡ door_of port queue twins.items }
    {
        let MemQueue {
            waiting,
            done,
            fails,
        } = queue;
        MemListener {
            port,
            waiting,
            done,
            twins,
            accepted: 0,
            fails,
            calls: 0,
            faults: 0,
        }
    }

    /// The listener of this socket's port.
    pub fn new(socket: MemSocket) -> Self
        ensures { result ≡ listener_of socket }
    {
        let MemSocket { port, first, twins } = socket;
        MemListener::of_queue(port, first, twins)
    }

    /// The finished connections, in order.
    pub fn done(&self) -> &[MemFinished]
        ensures { done_of result.now ≡ self.now.done }
    {
        self.done.as_slice()
    }
}

impl Listener for MemListener {
    type In = MemSource;

    type Out = MemSink;

    ghost port = { λ s. s.port };

    ghost accepted = { λ s. s.accepted };

    ghost finished = { λ s. length s.done };

    ghost waiting = { λ s. Some (sent_of s.waiting) };

    ghost twins = { λ s. Some (queues_of s.twins) };

    ghost done = { λ s. Some s.done };

    ghost faults = { λ s. s.faults };

    fn accept(&mut self) -> Result<(MemSource, MemSink), Failed>
        requires few { self.old.accepted < 2 ^ 48 }
        ensures next { MatchResult result
            (λ ends. (self.new.accepted ≡ self.old.accepted + 1) × IsNext (Some (sent_of self.old.waiting)) (Some (sent_of self.new.waiting)) (Some ends.0.left) (Some ends.1.taken))
            (λ _. (self.new.accepted ≡ self.old.accepted) × (Some (sent_of self.new.waiting) ≡ Some (sent_of self.old.waiting))) }
        ensures fresh { IfOk result (λ ends. (ends.0.faults ≡ 0) × (ends.1.faults ≡ 0)) }
        ensures cause { HasCause self.old.faults self.new.faults result }
        ensures calm { OnOk result (self.new.faults ≡ self.old.faults) }
        ensures same { (self.new.port ≡ self.old.port) × (length self.new.done ≡ length self.old.done) × (Some (queues_of self.new.twins) ≡ Some (queues_of self.old.twins)) × (Some self.new.done ≡ Some self.old.done) }
        ensures listed { is_err result ≡ (is_listed self.old.fails self.old.calls || (length self.old.waiting == 0)) }
        ensures kept { OnErr result (self.new ≡ record self.old { calls = one_more self.old.calls; faults = one_more self.old.faults }) }
        ensures came { IfOk result (λ ends. (c : ConnectionForm) × (self.old.waiting ≡ c ∷ self.new.waiting) × (ends ≡ (source_of c, sink_of c))
            × (self.new ≡ record self.old { waiting = self.new.waiting; accepted = self.old.accepted + 1; calls = one_more self.old.calls })) }
    {
        let call = self.calls;
        self.calls = call.saturating_add(1);
        if !self.fails.contains(&call) {
            if let Some(connection) = self.waiting.pop_front() {
                self.accepted += 1;
                return Ok(connection.into_ends());
            }
        }
        self.faults = self.faults.saturating_add(1);
        Err(Failed)
    }

    fn finish(&mut self, source: MemSource, sink: MemSink, ended: Ended)
        requires open { length self.old.done < self.old.accepted }
        ensures finished { length self.new.done ≡ length self.old.done + 1 }
        ensures done { Adds (Some self.old.done) (Some self.new.done) (record {
          left = Some source.left;
          taken = Some sink.taken;
          read_faults = source.faults;
          write_faults = sink.faults;
          ended = ended;
        } ∷ []) }
        ensures same { (self.new.port ≡ self.old.port) × (self.new.accepted ≡ self.old.accepted) × (Some (sent_of self.new.waiting) ≡ Some (sent_of self.old.waiting)) × (Some (queues_of self.new.twins) ≡ Some (queues_of self.old.twins)) × (self.new.faults ≡ self.old.faults) }
        ensures kept { self.new ≡ record self.old { done = self.new.done } }
    {
        self.done.push_reserved(MemFinished {
            source,
            sink,
            ended,
        });
    }

    fn twin(&mut self) -> Result<MemListener, Failed>
        ensures twin { IfOk result (λ d. IsNewDoor (IsSome (Some (sent_of self.old.waiting)) × IsSome (Some self.old.done)) self.old.port d.port d.accepted (length d.done) d.faults (Some (sent_of d.waiting)) (Some d.done)) }
        ensures queue { MatchResult result (λ d. IsFirstQueue (Some (queues_of self.old.twins)) (Some (sent_of d.waiting)) (Some (queues_of self.new.twins))) (λ _. Some (queues_of self.new.twins) ≡ Some (queues_of self.old.twins)) }
        ensures cause { HasCause self.old.faults self.new.faults result }
        ensures calm { OnOk result (self.new.faults ≡ self.old.faults) }
        ensures same { (self.new.port ≡ self.old.port) × (self.new.accepted ≡ self.old.accepted) × (length self.new.done ≡ length self.old.done) × (Some (sent_of self.new.waiting) ≡ Some (sent_of self.old.waiting)) × (Some self.new.done ≡ Some self.old.done) }
        ensures listed { is_err result ≡ (is_listed self.old.fails self.old.calls || (length self.old.twins == 0)) }
        ensures kept { OnErr result (self.new ≡ record self.old { calls = one_more self.old.calls; faults = one_more self.old.faults }) }
        ensures came { IfOk result (λ d. (q : QueueForm) × (self.old.twins ≡ q ∷ self.new.twins) × (d ≡ door_of self.old.port q [])
            × (self.new ≡ record self.old { twins = self.new.twins; calls = one_more self.old.calls })) }
    {
        let call = self.calls;
        self.calls = call.saturating_add(1);
        if !self.fails.contains(&call) {
            if let Some(queue) = self.twins.pop_front() {
                let none = VecDeque::new(*self.twins.allocator());
                return Ok(MemListener::of_queue(self.port, queue, none));
            }
        }
        self.faults = self.faults.saturating_add(1);
        Err(Failed)
    }
}
