// The frames that a report's items say were sent.
ghost use Rattle.std.specs.Prelude.{◌≡◌, List, ◌≤◌, ◌&&◌, nat_le, not, true, false, [], ◌∷◌, IfOk, is_some};
ghost use Rattle.std.specs.List.{list_all};
ghost use Rattle.qkd_base.specs.Lane.{lane_place};
ghost use Rattle.run_audit.specs.declared.frames.Frame.{Frame as Sent};
ghost use Rattle.run_audit.specs.Table.{at};
ghost use Rattle.run_audit.specs.Frames.{agrees, is_placed};
ghost use Rattle.run_audit.specs.Kept.{place_key, last_entry, last_of, ArePlaced};

use crate::table::{Key, counted, find, put};
use ordered_set::{Entries, Entry};
use qkd_base::{Lane, Memory, Way};
use std::alloc::Global;
use std::collections::BTreeMap;

/// A frame that was put on a lane's wire: its number there, the lane's first byte that masks its payload, and the payload's
/// length in octets.
#[derive(Clone, Copy)]
pub struct Frame {
    pub lane: Lane,
    pub number: u64,
    pub offset: u64,
    pub length: u16,
}

/// The places of frames in their lanes. A place is a lane and an offset.
#[derive(Drop)]
pub struct Places {
    // The lengths of payloads, by lane and offset.
    lengths: BTreeMap<Key, u64>,
    // The last bytes that frames cover, by lane.
    lasts: Entries,
    // The offsets of frames, by lane and last byte.
    offsets: BTreeMap<Key, u64>,
    pub count: u32,
}

/// A lane's number among the lanes of all links.
pub fn lane_number(lane: &Lane) -> u64
    ensures { result ≡ lane_place lane.now }
{
    let way = match lane.way {
        Way::Up => 0,
        Way::Down => 1,
    };
    2 * u64::from(lane.link.get()) + way
}

/// The table key of a byte of a lane.
pub fn place_key(lane: &Lane, byte: u64) -> Key
    ensures { result ≡ place_key lane.now byte }
{
    [lane_number(lane), byte, 0, 0, 0, 0]
}

// The last byte of the lane that a frame covers, or 2^64 - 1 if that is less.
fn last_of(frame: &Frame) -> u64
    ensures { result ≡ last_of frame.now }
{
    frame.offset.saturating_add(u64::from(frame.length) + 7)
}

fn last_entry(lane: &Lane, last: u64) -> Entry
    ensures { result ≡ last_entry lane.now last }
{
    [lane_number(lane), 0, 0, 0, last]
}

impl Places {
    /// No frames. The call allocates nothing.
    pub fn new(alloc: Global) -> Self
        ensures { ArePlaced result [] }
    {
        Places {
            lengths: BTreeMap::new(alloc),
            lasts: Entries::new(alloc),
            offsets: BTreeMap::new(alloc),
            count: 0,
        }
    }

    // Whether a known frame has this offset in the lane.
    fn is_placed(&self, lane: &Lane, offset: u64) -> bool
        ensures { result ≡ is_some (at self.now.lengths (place_key lane.now offset)) }
    {
        find(&self.lengths, place_key(lane, offset)).is_some()
    }

    // Whether a frame has no byte in common with the known frames of its lane. None of these has its offset.
    fn is_free(&self, frame: &Frame) -> bool
        ensures { (fs : List Sent) → ArePlaced self.now fs → is_placed frame.now.lane frame.now.offset fs ≡ false → result ≡ list_all (agrees frame.now) fs }
    {
        match self.lasts.next(last_entry(&frame.lane, frame.offset)) {
            None => true,
            Some(last) => match find(&self.offsets, place_key(&frame.lane, last)) {
                Some(offset) => last_of(frame) < *offset,
                None => true,
            },
        }
    }

    // Whether a frame agrees with all known frames.
    fn agrees(&self, frame: &Frame) -> bool
        ensures { (fs : List Sent) → ArePlaced self.now fs → result ≡ list_all (agrees frame.now) fs }
    {
        match find(&self.lengths, place_key(&frame.lane, frame.offset)) {
            Some(length) => *length == u64::from(frame.length),
            None => self.is_free(frame),
        }
    }

    /// Whether a frame leaves the first 8 bytes of its lane unused and agrees with all known frames: frames of a lane have the
    /// same offset and length, or no byte in common.
    pub fn keeps_apart(&self, frame: &Frame) -> bool
        ensures { (fs : List Sent) → ArePlaced self.now fs → result ≡ (nat_le 8 frame.now.offset && list_all (agrees frame.now) fs) }
    {
        8 <= frame.offset && self.agrees(frame)
    }

    /// Adds a frame, and returns whether its place is a new one. The only error is that memory runs out.
    pub fn add(&mut self, frame: &Frame) -> Result<bool, Memory>
        ensures { (fs : List Sent) → ArePlaced self.old fs → list_all (agrees frame.now) fs ≡ true → IfOk result (λ is_new. (is_new ≡ not (is_placed frame.now.lane frame.now.offset fs)) × ArePlaced self.new (frame.now ∷ fs)) }
    {
        let is_new = !self.is_placed(&frame.lane, frame.offset);
        let count = counted(self.count, is_new);
        let last = last_of(frame);
        put(
            &mut self.lengths,
            place_key(&frame.lane, frame.offset),
            u64::from(frame.length),
        )?;
        put(
            &mut self.offsets,
            place_key(&frame.lane, last),
            frame.offset,
        )?;
        self.lasts.insert(last_entry(&frame.lane, last))?;
        self.count = count;
        Ok(is_new)
    }
}
