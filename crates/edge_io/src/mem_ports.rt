// The ports of a machine, in memory.
ghost use Rattle.std.specs.Prelude.{◌≡◌, ◌<◌, ◌||◌, ◌++◌, ◌∷◌, [], Some, length, is_err, is_none, OnOk, OnErr, IfOk, IsSome, IsNone, IfSome, ℕ, option_map, position};
ghost use Rattle.qkd_base.specs.Faults.{HasCause, one_more};
ghost use Rattle.edge_io.specs.Writes.{Adds};
ghost use Rattle.edge_io.specs.Forms.{is_listed};
ghost use Rattle.edge_io.specs.Connections.{IsFirstQueue, IsNewDoor};
ghost use Rattle.edge_io.specs.Doors.{listener_of, sent_of, has_port, socket_at, sockets_without, queues_of, queues_told};

use crate::{Failed, MemListener, MemSocket, Ports};
use qkd_base::Memory;
use std::alloc::Global;
use std::marker::Model;

const MOST: usize = 65536;

/// The ports of a machine, in memory. Openings are numbered from 0. An opening fails if its number is in the list
/// `fails`, or if no socket of its port is left. There is room for 65,536 ports that were asked for and for 65,536
/// listeners that came back.
#[derive(Debug, Drop)]
pub struct MemPorts {
    sockets: Vec<MemSocket>,
    asked: Vec<u16>,
    back: Vec<MemListener>,
    fails: Vec<u64>,
    calls: u64,
    faults: u64,
}

impl Model for MemPorts {
    ghost use Rattle.std.specs.Prelude.{◌≤◌, vec_capacity};
    ghost use Rattle.edge_io.specs.Doors.{PortsForm};

    ghost Value = { PortsForm };

    ghost view = { λ s. record { sockets = s.sockets.items; asked = s.asked.items; back = s.back.items; fails = s.fails.items; calls = s.calls; faults = s.faults } };

    ghost invariant = { λ s. (65536 ≤ vec_capacity s.asked) × (65536 ≤ vec_capacity s.back) };
}

impl MemPorts {
    /// The ports of these sockets. The list has the numbers of the openings that fail.
    pub fn new(alloc: Global, sockets: Vec<MemSocket>, fails: Vec<u64>) -> Result<Self, Memory>
        ensures { IfOk result (λ p. p ≡ record { sockets = sockets.items; asked = []; back = []; fails = fails.items; calls = 0; faults = 0 }) }
    {
        let asked = Vec::with_capacity(alloc, MOST)?;
        let back = Vec::with_capacity(alloc, MOST)?;
        Ok(MemPorts {
            sockets,
            asked,
            back,
            fails,
            calls: 0,
            faults: 0,
        })
    }

    /// The ports that were asked for, in order.
    pub fn asked(&self) -> &[u16]
        ensures { result.now ≡ self.now.asked }
    {
        self.asked.as_slice()
    }

    /// The listeners that came back, in order.
    pub fn back(&self) -> &[MemListener]
        ensures { result.now ≡ self.now.back }
    {
        self.back.as_slice()
    }
}

// The place of the first socket of this port.
fn place_of(sockets: &[MemSocket], port: u16) -> Option<usize>
    ensures { result ≡ position (has_port port) sockets.now }
{
    sockets.iter().position(|socket| socket.port() == port)
}

// Removes the first socket of this port from a list.
#[tactic(auto, using(crate::proofs::Sockets::found, crate::proofs::Sockets::found_rest, crate::proofs::Sockets::found_passes, crate::proofs::Sockets::missed, crate::proofs::Sockets::missed_rest))]
fn take_socket(sockets: &mut Vec<MemSocket>, port: u16) -> Option<MemSocket>
    ensures first { result ≡ socket_at port sockets.old.items }
    ensures rest { sockets.new.items ≡ sockets_without port sockets.old.items }
    ensures none { IsNone result → sockets.new.items ≡ sockets.old.items }
    ensures some { IfSome result (λ socket. socket.port ≡ port) }
{
    match place_of(sockets, port) {
        Some(place) => Some(sockets.remove(place)),
        None => None,
    }
}

impl Ports for MemPorts {
    type Door = MemListener;

    ghost asked = { λ s. Some s.asked };

    ghost back = { λ s. Some s.back };

    ghost queues = { λ s. queues_told s.sockets };

    ghost faults = { λ s. s.faults };

    fn open(&mut self, port: u16) -> Result<MemListener, Failed>
        requires few { length self.old.asked < 65536 }
        ensures asked { Adds (Some self.old.asked) (Some self.new.asked) (port ∷ []) }
        ensures door { IfOk result (λ d. IsNewDoor (IsSome (Some self.old.asked)) port d.port d.accepted (length d.done) d.faults (Some (sent_of d.waiting)) (Some d.done)) }
        ensures queue { IfOk result (λ d. IsFirstQueue (queues_told self.old.sockets port) (Some (sent_of d.waiting)) (Some (queues_of d.twins))) }
        ensures refused { OnErr result (queues_told self.new.sockets ≡ queues_told self.old.sockets) }
        ensures others { (other : ℕ) → ¬ (other ≡ port) → queues_told self.new.sockets other ≡ queues_told self.old.sockets other }
        ensures cause { HasCause self.old.faults self.new.faults result }
        ensures calm { OnOk result (self.new.faults ≡ self.old.faults) }
        ensures same { Some self.new.back ≡ Some self.old.back }
        ensures listed { is_err result ≡ (is_listed self.old.fails self.old.calls || is_none (socket_at port self.old.sockets)) }
        ensures kept { OnErr result (self.new ≡ record self.old { asked = self.old.asked ++ port ∷ []; calls = one_more self.old.calls; faults = one_more self.old.faults }) }
        ensures opened { IfOk result (λ d. (option_map listener_of (socket_at port self.old.sockets) ≡ Some d)
            × (self.new ≡ record self.old { sockets = sockets_without port self.old.sockets; asked = self.old.asked ++ port ∷ []; calls = one_more self.old.calls })) }
    {
        let call = self.calls;
        self.calls = call.saturating_add(1);
        self.asked.push_reserved(port);
        if !self.fails.contains(&call) {
            if let Some(socket) = take_socket(&mut self.sockets, port) {
                return Ok(MemListener::new(socket));
            }
        }
        self.faults = self.faults.saturating_add(1);
        Err(Failed)
    }

    fn shut(&mut self, door: MemListener)
        requires few { length self.old.back < 65536 }
        ensures back { Adds (Some self.old.back) (Some self.new.back) (door ∷ []) }
        ensures same { (Some self.new.asked ≡ Some self.old.asked) × (queues_told self.new.sockets ≡ queues_told self.old.sockets) × (self.new.faults ≡ self.old.faults) }
        ensures kept { self.new ≡ record self.old { back = self.old.back ++ door ∷ [] } }
    {
        self.back.push_reserved(door);
    }
}
