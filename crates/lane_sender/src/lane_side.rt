// A lane at its sender, with a single owner.
ghost use Rattle.std.specs.Prelude.{◌≡◌, ◌+◌, ◌≤◌, ◌<◌, ◌^◌, ◌++◌, [], length, take, drop, Ok, Err, OnOk, OnErr, MatchResult, IsErrOf};
ghost use Rattle.net_model.specs.Facts.{IsWellFormed};
ghost use Rattle.frame_codec.specs.Payload.{IsPayload};
ghost use Rattle.hop_frames.specs.Frame.{hash_key};
ghost use Rattle.pad_ledger.specs.Ledger.{received_more};
ghost use Rattle.qkd_base.specs.Faults.{Rose};
ghost use Rattle.source_devices.specs.Frames.{TakesFrame};
ghost use Rattle.source_devices.specs.declared.wire.WireFailed.TheVariants.{Fault};
ghost use Rattle.lane_sender.specs.Lane.{IsLaneOf, burnt_to, claimed, reaching, frame_need, next_frame, counts_of};
ghost use Rattle.lane_sender.specs.Sending.{sent, sent_frame, answer_of, TakesNumbered, TakesRepeat};

use crate::claimed::{claimed_of, seal_at};
use crate::sent::answered;
use crate::{Claimed, Sent};
use net_model::{Counts4, Order, Repeat, spelled_len};
use pad_ledger::PadLedger;
use qkd_base::{FrameOctets, Lane, Memory};
use source_devices::{Wire, WireFailed};
use std::alloc::Global;
use std::marker::Model;

/// One lane at its sender: its bytes, what became of each, and the wire that carries its frames (SECOQC quantum
/// point-to-point link). It has a single owner, which claims bytes, seals a frame and puts it on the wire in one call.
#[derive(Debug, Drop)]
pub struct LaneSide<X: Wire> {
    lane: Lane,
    bytes: Vec<u8>,
    ledger: PadLedger,
    wire: X,
}

impl<X: Wire> Model for LaneSide<X> {
    ghost use Rattle.lane_sender.specs.Lane.{LaneForm, IsLaneOf};

    ghost Value = { LaneForm X };

    ghost view = { λ s. record { lane = s.lane; bytes = s.bytes.items; ledger = s.ledger; wire = s.wire } };

    ghost invariant = { λ s. IsLaneOf s.bytes.items s.ledger };
}

impl<X: Wire> LaneSide<X> {
    /// A lane without bytes. The call allocates nothing.
    pub fn new(alloc: Global, lane: Lane, wire: X) -> Self
        ensures { result ≡ record { lane = lane; bytes = []; ledger = record { used = 0; end = 0; received = 0; burnt = 0 }; wire = wire } }
    {
        LaneSide {
            lane,
            bytes: Vec::new(alloc),
            ledger: PadLedger::new(),
            wire,
        }
    }

    /// The lane.
    pub fn lane(&self) -> Lane
        ensures { result ≡ self.now.lane }
    {
        self.lane
    }

    /// The bytes that the lane has received so far.
    pub fn bytes(&self) -> &[u8]
        ensures { result.now ≡ self.now.bytes }
    {
        &self.bytes
    }

    /// The lane's wire.
    pub fn wire(&self) -> &X
        ensures { result.now ≡ self.now.wire }
    {
        &self.wire
    }

    /// How many bytes were received, and how many of these are unused, spent and burnt.
    pub fn counts(&self) -> Counts4
        ensures { result ≡ counts_of self.now.ledger }
    {
        let counts = self.ledger.counts();
        Counts4 {
            received: counts.received,
            unused: counts.unused,
            spent: counts.spent,
            burnt: counts.burnt,
        }
    }

    /// Adds the lane's next block; a lane has at most 512 blocks. The first block brings the hash key, 8 bytes that are used
    /// at once. The only error is that memory runs out; then nothing changes.
    pub fn take(&mut self, block: &[u8; 1024]) -> Result<(), Memory>
        requires few { length self.old.bytes + 1024 ≤ 524288 }
        ensures ok { OnOk result (self.new ≡ record self.old { bytes = self.old.bytes ++ block.now; ledger = received_more self.old.ledger 1024 }) }
        ensures err { OnErr result (self.new ≡ self.old) }
    {
        self.bytes.extend_from_slice(block)?;
        self.ledger.receive(1024);
        Ok(())
    }

    /// Allows claims of bytes up to this end. The sender must have made the end durable.
    pub fn raise(&mut self, end: u64)
        requires later { self.old.ledger.end ≤ end }
        requires received { end ≤ length self.old.bytes }
        ensures { self.new ≡ record self.old { ledger = record (self.old.ledger) { end = end } } }
    {
        self.ledger.raise(end);
    }

    /// The sender starts again at this leased end: bytes below it that were not used are burnt.
    pub fn restart(&mut self, lease: u64)
        requires later { self.old.ledger.end ≤ lease }
        requires received { lease ≤ length self.old.bytes }
        ensures { self.new ≡ record self.old { ledger = burnt_to lease self.old.ledger } }
    {
        self.ledger.raise(lease);
        self.ledger.burn_to_end();
    }

    /// Claims the next bytes for a frame.
    pub fn claim(&mut self, need: u64) -> Claimed
        requires some { 0 < need }
        requires short { need ≤ 600 }
        requires reach { self.old.ledger.used + need ≤ self.old.ledger.end }
        ensures range { result.range ≡ record { start = self.old.ledger.used; len = need } }
        ensures key { result.key ≡ hash_key self.old.bytes }
        ensures pads { take need result.pads.octets ≡ take need (drop self.old.ledger.used self.old.bytes) }
        ensures ledger { self.new ≡ record self.old { ledger = claimed need self.old.ledger } }
    {
        let Ok(range) = self.ledger.claim(need) else {
            unreachable!()
        };
        claimed_of(&self.bytes, range)
    }

    /// Claims the next bytes for a frame. If they pass the end of the allowed bytes, that end is raised to theirs.
    pub fn claim_raised(&mut self, need: u64) -> Claimed
        requires some { 0 < need }
        requires short { need ≤ 600 }
        requires received { self.old.ledger.used + need ≤ length self.old.bytes }
        ensures range { result.range ≡ record { start = self.old.ledger.used; len = need } }
        ensures key { result.key ≡ hash_key self.old.bytes }
        ensures pads { take need result.pads.octets ≡ take need (drop self.old.ledger.used self.old.bytes) }
        ensures ledger { self.new ≡ record self.old { ledger = claimed need (reaching need self.old.ledger) } }
    {
        let range = match self.ledger.claim(need) {
            Ok(range) => range,
            Err(short) => {
                self.ledger.raise(short.used + need);
                let Ok(range) = self.ledger.claim(need) else {
                    unreachable!()
                };
                range
            }
        };
        claimed_of(&self.bytes, range)
    }

    /// Puts a new frame on the wire. `frame` has its octets at the front.
    pub fn put(&mut self, frame: &FrameOctets, length: u16) -> Result<u64, WireFailed>
        requires short { length ≤ 600 }
        ensures lane { (self.new.lane ≡ self.old.lane) × (self.new.bytes ≡ self.old.bytes) × (self.new.ledger ≡ self.old.ledger) }
        ensures frames { TakesFrame (X.frames self.old.wire) (X.frames self.new.wire) result (take length frame.now.octets) }
        ensures number { MatchResult result (λ n. (n ≡ X.counted self.old.wire) × (X.counted self.new.wire ≡ X.counted self.old.wire + 1)) (λ _. X.counted self.new.wire ≡ X.counted self.old.wire) }
        ensures cause { IsErrOf result Fault → Rose (X.faults self.old.wire) (X.faults self.new.wire) }
        ensures later { X.faults self.old.wire ≤ X.faults self.new.wire }
        ensures calm { (IsErrOf result Fault → ⊥) → X.faults self.new.wire ≡ X.faults self.old.wire }
    {
        self.wire.send_new(&frame.octets[..usize::from(length)])
    }

    /// Puts a frame on the wire once more: the wire's frame with this number. Without a number, or if the wire has no such
    /// frame, the given octets are put as a new frame.
    pub fn put_again(
        &mut self,
        number: Option<u64>,
        frame: &FrameOctets,
        length: u16,
    ) -> Result<u64, WireFailed>
        requires short { length ≤ 600 }
        ensures lane { (self.new.lane ≡ self.old.lane) × (self.new.bytes ≡ self.old.bytes) × (self.new.ledger ≡ self.old.ledger) }
        ensures frames { TakesNumbered (X.counted self.old.wire) (X.frames self.old.wire) (X.frames self.new.wire) result number (take length frame.now.octets) }
        ensures number { MatchResult result (λ n. (n ≡ X.counted self.old.wire) × (X.counted self.new.wire ≡ X.counted self.old.wire + 1)) (λ _. X.counted self.new.wire ≡ X.counted self.old.wire) }
        ensures cause { IsErrOf result Fault → Rose (X.faults self.old.wire) (X.faults self.new.wire) }
        ensures later { X.faults self.old.wire ≤ X.faults self.new.wire }
        ensures calm { (IsErrOf result Fault → ⊥) → X.faults self.new.wire ≡ X.faults self.old.wire }
    {
        match number {
            Some(number) if number < self.wire.count() => self.wire.send_again(number),
            _ => self.put(frame, length),
        }
    }

    /// Claims the bytes of an order, seals its frame with them and puts the frame on the wire. If the wire refuses the frame,
    /// its bytes stay claimed.
    pub fn emit(&mut self, order: &Order) -> Sent
        requires lane { order.now.lane ≡ self.old.lane }
        requires formed { IsWellFormed order.now.payload }
        requires reach { self.old.ledger.used + frame_need order.now.payload ≤ self.old.ledger.end }
        ensures sent { result ≡ sent_frame self.old.ledger.used (next_frame self.old order.now.payload) (answer_of result) }
        ensures grammar { IsPayload order.now.payload }
        ensures ledger { self.new.ledger ≡ claimed (frame_need order.now.payload) self.old.ledger }
        ensures lane { (self.new.lane ≡ self.old.lane) × (self.new.bytes ≡ self.old.bytes) }
        ensures frames { TakesFrame (X.frames self.old.wire) (X.frames self.new.wire) (answer_of result) (next_frame self.old order.now.payload) }
        ensures number { MatchResult (answer_of result) (λ n. (n ≡ X.counted self.old.wire) × (X.counted self.new.wire ≡ X.counted self.old.wire + 1)) (λ _. X.counted self.new.wire ≡ X.counted self.old.wire) }
        ensures cause { IsErrOf (answer_of result) Fault → Rose (X.faults self.old.wire) (X.faults self.new.wire) }
        ensures later { X.faults self.old.wire ≤ X.faults self.new.wire }
        ensures calm { (IsErrOf (answer_of result) Fault → ⊥) → X.faults self.new.wire ≡ X.faults self.old.wire }
    {
        let need = u64::from(spelled_len(&order.payload)) + 8;
        let Ok(range) = self.ledger.claim(need) else {
            unreachable!()
        };
        let offset = range.start();
        let mut frame = FrameOctets::new();
        let length = seal_at(&self.bytes, range, self.lane, &order.payload, &mut frame);
        let answer = self.put(&frame, length);
        answered(offset, length, &frame, answer)
    }

    /// Puts a frame on the wire once more: the wire's frame with its number, or its own octets if the wire has no such frame.
    /// No byte is claimed.
    pub fn again(&mut self, repeat: &Repeat) -> Sent
        requires short { repeat.now.length ≤ 600 }
        ensures sent { result ≡ sent repeat.now.offset repeat.now.length repeat.now.frame (answer_of result) }
        ensures lane { (self.new.lane ≡ self.old.lane) × (self.new.bytes ≡ self.old.bytes) × (self.new.ledger ≡ self.old.ledger) }
        ensures frames { TakesRepeat (X.counted self.old.wire) (X.frames self.old.wire) (X.frames self.new.wire) (answer_of result) repeat.now }
        ensures number { MatchResult (answer_of result) (λ n. (n ≡ X.counted self.old.wire) × (X.counted self.new.wire ≡ X.counted self.old.wire + 1)) (λ _. X.counted self.new.wire ≡ X.counted self.old.wire) }
        ensures cause { IsErrOf (answer_of result) Fault → Rose (X.faults self.old.wire) (X.faults self.new.wire) }
        ensures later { X.faults self.old.wire ≤ X.faults self.new.wire }
        ensures calm { (IsErrOf (answer_of result) Fault → ⊥) → X.faults self.new.wire ≡ X.faults self.old.wire }
    {
        let answer = self.put_again(repeat.number, &repeat.frame, repeat.length);
        answered(repeat.offset, repeat.length, &repeat.frame, answer)
    }

    /// Ends the lane, and returns its wire.
    pub fn into_wire(self) -> X
        ensures { result ≡ self.wire }
    {
        let LaneSide { wire, .. } = self;
        wire
    }
}
