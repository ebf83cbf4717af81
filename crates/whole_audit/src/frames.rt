// Rule 14, as to bytes and lengths: the frames of wires, by their numbers.
ghost use Rattle.std.specs.Prelude.{◌≡◌, List, [], ◌∷◌, OnOk};
ghost use Rattle.run_types.specs.declared.item.NumberedItem.{NumberedItem as Told};
ghost use Rattle.whole_audit.specs.Frames.{put_of, end_of, bits_of, may_refuse_frame, fits_bytes, fits_bit, fits_put, fits_frame, come_number, comes_whole_at};
ghost use Rattle.whole_audit.specs.Tracks.{come_lane};
ghost use Rattle.whole_audit.specs.Kept.{frame_key, frame_kept, AreCounted, AreFrames};

use crate::blocks::Counts;
use crate::tracks::come_lane;
use item_audit::{fits_length, lane_place};
use qkd_base::{Lane, Memory};
use run_types::{FrameResult, Item, Refusal};
use std::alloc::Global;
use std::collections::BTreeMap;

/// A frame that was put on its wire.
#[derive(Clone, Copy)]
pub struct Put {
    pub lane: Lane,
    pub number: u64,
    pub offset: u64,
    pub length: u64,
}

/// The frames of all wires.
#[derive(Drop)]
pub struct Frames {
    wires: BTreeMap<[u64; 2], Put>,
}

// The frame that an item puts on its wire.
fn put_of(item: &Item) -> Option<Put>
    ensures { result ≡ put_of item.now }
{
    match item {
        Item::Sent {
            lane,
            number,
            offset,
            length,
        } => Some(Put {
            lane: *lane,
            number: *number,
            offset: *offset,
            length: u64::from(*length),
        }),
        _ => None,
    }
}

// The first byte behind those that a frame uses.
fn end_of(put: &Put) -> u128
    ensures { result ≡ end_of put.now }
{
    u128::from(put.offset) + u128::from(put.length) + 8
}

// How many bits a frame has.
fn bits_of(put: &Put) -> u128
    ensures { result ≡ bits_of put.now }
{
    8 * (24 + u128::from(put.length))
}

// Whether a frame may be refused so by a receiver that has so many bytes at most.
fn may_refuse_frame(most: u128, put: &Put, refusal: Refusal) -> bool
    ensures { result ≡ may_refuse_frame most put.now refusal }
{
    match refusal {
        Refusal::Down | Refusal::NoFrame { .. } | Refusal::NoBit { .. } => true,
        Refusal::NoBits { have } => u128::from(have) < end_of(put),
        _ => end_of(put) <= most,
    }
}

// Whether this may become of a frame, as far as its receiver has the bytes for it.
fn fits_bytes(most: u128, put: &Put, outcome: &FrameResult) -> bool
    ensures { result ≡ fits_bytes most put.now outcome.now }
{
    match outcome {
        FrameResult::Refused(refusal) => may_refuse_frame(most, put, *refusal),
        _ => end_of(put) <= most,
    }
}

// Whether this may become of a frame with this changed bit, as far as the frame has the bit.
fn fits_bit(bit: u32, put: &Put, outcome: &FrameResult) -> bool
    ensures { result ≡ fits_bit bit put.now outcome.now }
{
    match outcome {
        FrameResult::Refused(Refusal::NoFrame { .. }) => true,
        FrameResult::Refused(Refusal::NoBit { bits }) => u128::from(*bits) == bits_of(put),
        _ => u128::from(bit) < bits_of(put),
    }
}

// Whether the item may tell what became of a frame, if it tells of one that came.
fn fits_put(most: u128, put: &Put, item: &Item) -> bool
    ensures { result ≡ fits_put most put.now item.now }
{
    match item {
        Item::Passed {
            result: outcome,
            ..
        } => fits_bytes(most, put, outcome) && fits_length(put.length, outcome),
        Item::Flipped {
            bit,
            result: outcome,
            ..
        } => fits_bit(*bit, put, outcome) && (*bit < 128 || fits_bytes(most, put, outcome)),
        _ => true,
    }
}

// Whether the item may tell what became of a frame, if the wire has it.
fn fits_frame(most: u128, put: &Option<Put>, item: &Item) -> bool
    ensures { result ≡ fits_frame most put.now item.now }
{
    match put {
        Some(put) => fits_put(most, put, item),
        None => true,
    }
}

// The number of a frame that comes.
fn come_number(item: &Item) -> u64
    ensures { result ≡ come_number item.now }
{
    match item {
        Item::Passed { number, .. } => u64::from(*number),
        Item::Flipped { number, .. } => u64::from(*number),
        _ => 0,
    }
}

// The key of a frame in a table.
fn frame_key(lane: &Lane, number: u64) -> [u64; 2]
    ensures { result ≡ frame_key lane.now number }
{
    [lane_place(lane), number]
}

impl Frames {
    /// Before the first item. The call allocates nothing.
    pub fn new(alloc: Global) -> Self
        ensures { AreFrames result [] }
    {
        Frames {
            wires: BTreeMap::new(alloc),
        }
    }

    // The frame of this number.
    fn at(&self, lane: &Lane, number: u64) -> Option<Put>
        ensures { result ≡ frame_kept self.now lane.now number }
    {
        match self.wires.get(&frame_key(lane, number)) {
            Some(put) => Some(*put),
            None => None,
        }
    }

    /// Whether what comes fits the frame that was put, if the item is of one.
    pub fn fit(&self, counts: &Counts, item: &Item) -> bool
        ensures { (before : List Told) → AreCounted counts.now before → AreFrames self.now before → result ≡ comes_whole_at (come_lane item.now) item.now before }
    {
        match come_lane(item) {
            Some(lane) => fits_frame(
                counts.most_at_end(&lane),
                &self.at(&lane, come_number(item)),
                item,
            ),
            None => true,
        }
    }

    /// Adds an item. The only error is that memory runs out.
    pub fn learn(&mut self, item: &Item) -> Result<(), Memory>
        ensures { (told : Told) (before : List Told) → told.item ≡ item.now → AreFrames self.old before → OnOk result (AreFrames self.new (told ∷ before)) }
    {
        match put_of(item) {
            Some(put) => {
                self.wires.insert(frame_key(&put.lane, put.number), put)?;
                Ok(())
            }
            None => Ok(()),
        }
    }
}
