// A sink in memory.
ghost use Rattle.std.specs.Prelude.{◌≡◌, ◌+◌, ◌++◌, ◌∷◌, [], IfOk, OnOk, OnErr, is_err, Some, length, nat_lt, nat_le, ◌||◌};
ghost use Rattle.qkd_base.specs.Faults.{HasCause, one_more};
ghost use Rattle.edge_io.specs.Writes.{WritesAll, TakesPiece};
ghost use Rattle.edge_io.specs.Forms.{write_fails};

use crate::{Failed, Sink};
use qkd_base::Memory;
use std::alloc::Global;
use std::marker::Model;

/// A sink in memory, with room for a number of bytes and for as many pieces. Its memory is allocated when it is made.
/// Calls are numbered from 0. A call fails if its number is in the list `fails`, or if the room doesn't suffice. A call
/// that fails takes nothing.
#[derive(Debug, Drop)]
pub struct MemSink {
    bytes: Vec<u8>,
    // The length of each piece.
    lengths: Vec<usize>,
    room: usize,
    fails: Vec<u64>,
    calls: u64,
    faults: u64,
}

impl Model for MemSink {
    ghost use Rattle.std.specs.Prelude.{◌≡◌, ◌≤◌, vec_len, vec_capacity, sum};
    ghost use Rattle.edge_io.specs.Forms.{SinkForm};
    ghost use Rattle.edge_io.specs.Writes.{cut};

    ghost Value = { SinkForm };

    ghost view = { λ s. record { taken = s.bytes.items; pieces = cut s.lengths.items s.bytes.items; room = s.room; fails = s.fails.items; calls = s.calls; faults = s.faults } };

    ghost invariant = { λ s. (s.room ≤ vec_capacity s.bytes) × (vec_len s.bytes ≤ s.room) × (s.room ≤ vec_capacity s.lengths) × (vec_len s.lengths ≤ s.room)
        × (sum s.lengths.items ≡ vec_len s.bytes) };
}

impl MemSink {
    /// An empty sink with room for `room` bytes and as many pieces. The list has the numbers of the calls that fail.
    pub fn new(alloc: Global, room: usize, fails: Vec<u64>) -> Result<Self, Memory>
        ensures { IfOk result (λ sink. sink ≡ record { taken = []; pieces = []; room = room; fails = fails.items; calls = 0; faults = 0 }) }
    {
        let bytes = Vec::with_capacity(alloc, room)?;
        let lengths = Vec::with_capacity(alloc, room)?;
        Ok(MemSink {
            bytes,
            lengths,
            room,
            fails,
            calls: 0,
            faults: 0,
        })
    }

    /// The bytes that were taken.
    pub fn taken(&self) -> &[u8]
        ensures { result.now ≡ self.now.taken }
    {
        self.bytes.as_slice()
    }

    // Whether the room doesn't suffice for a piece of this many bytes.
    #[tactic(auto, using(crate::proofs::Cuts::length_cut))]
    fn passes_room(&self, more: usize) -> bool
        ensures passes { result ≡ (nat_lt self.now.room (length self.now.taken + more) || nat_le self.now.room (length self.now.pieces)) }
    {
        more > self.room - self.bytes.len() || self.lengths.len() >= self.room
    }

    /// How many pieces were taken.
    #[tactic(auto, using(crate::proofs::Cuts::length_cut))]
    pub fn pieces(&self) -> usize
        ensures { result ≡ length self.now.pieces }
    {
        self.lengths.len()
    }
}

impl Sink for MemSink {
    ghost taken = { λ s. Some s.taken };

    ghost pieces = { λ s. Some s.pieces };

    ghost faults = { λ s. s.faults };

    #[tactic(auto, using(crate::proofs::Cuts::length_cut, crate::proofs::Cuts::cut_more, crate::proofs::Cuts::sum_more))]
    fn write_all(&mut self, bytes: &[u8]) -> Result<(), Failed>
        ensures bytes { WritesAll (Some self.old.taken) (Some self.new.taken) result bytes.now }
        ensures piece { TakesPiece (Some self.old.pieces) (Some self.new.pieces) result bytes.now }
        ensures cause { HasCause self.old.faults self.new.faults result }
        ensures calm { OnOk result (self.new.faults ≡ self.old.faults) }
        ensures listed { is_err result ≡ write_fails self.old (length bytes.now) }
        ensures kept { OnErr result (self.new ≡ record self.old { calls = one_more self.old.calls; faults = one_more self.old.faults }) }
        ensures added { OnOk result (self.new ≡ record self.old { taken = self.old.taken ++ bytes.now; pieces = self.old.pieces ++ bytes.now ∷ []; calls = one_more self.old.calls }) }
    {
        let call = self.calls;
        self.calls = call.saturating_add(1);
        if self.fails.contains(&call) || self.passes_room(bytes.len()) {
            self.faults = self.faults.saturating_add(1);
            return Err(Failed);
        }
        self.bytes.extend_from_slice(bytes).unwrap();
        self.lengths.push_reserved(bytes.len());
        Ok(())
    }
}
