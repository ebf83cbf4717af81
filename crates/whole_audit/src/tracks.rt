// Rules 10 and 14, as to lanes: where their frames lie, and how many were put.
ghost use Rattle.std.specs.Prelude.{◌≡◌, List, [], ◌∷◌, if◌then◌else◌, OnOk};
ghost use Rattle.qkd_base.specs.declared.lane.Lane.{Lane as LaneValue};
ghost use Rattle.qkd_base.specs.Lane.{lane_eq};
ghost use Rattle.run_types.specs.declared.item.NumberedItem.{NumberedItem as Told};
ghost use Rattle.whole_audit.specs.Tracks.{no_track, behind_frame, frame_lane, offset_of, reaches, reaches_at, track_of, leaves, has_used, has_come, comes_from, come_lane, comes_at};
ghost use Rattle.whole_audit.specs.Kept.{end_key, track_at, AreTracks};

use crate::blocks::end_key;
use item_audit::bounded;
use qkd_base::{Lane, Memory};
use run_types::{FrameResult, Item, Refusal};
use std::alloc::Global;
use std::collections::BTreeMap;

/// Where the frames of a lane lie.
#[derive(Clone, Copy)]
pub struct Track {
    // The first byte behind all frames.
    end: u64,
    // Whether the lengths of all frames are told.
    is_told: bool,
    // How many frames are on the wire.
    count: u64,
}

/// The tracks of all lanes.
#[derive(Drop)]
pub struct Tracks {
    lanes: BTreeMap<[u64; 1], Track>,
}

// The track of a lane without frames. Its first 8 bytes are the hash key.
fn no_track() -> Track
    ensures { result ≡ no_track }
{
    Track {
        end: 8,
        is_told: true,
        count: 0,
    }
}

// The track behind an item of its lane.
fn behind_frame(item: &Item, track: &Track) -> Track
    ensures { result ≡ behind_frame item.now track.now }
{
    match item {
        Item::Sent {
            number,
            offset,
            length,
            ..
        } => Track {
            end: track
                .end
                .max(bounded(u128::from(*offset) + u128::from(*length) + 8)),
            count: number.saturating_add(1),
            ..*track
        },
        Item::Unsent { .. } => Track {
            is_told: false,
            ..*track
        },
        _ => *track,
    }
}

/// The lane of a frame that is put on its wire, or that the wire refuses.
pub fn frame_lane(item: &Item) -> Option<Lane>
    ensures { result ≡ frame_lane item.now }
{
    match item {
        Item::Sent { lane, .. } => Some(*lane),
        Item::Unsent { lane, .. } => Some(*lane),
        _ => None,
    }
}

// Where such a frame begins.
fn offset_of(item: &Item) -> u64
    ensures { result ≡ offset_of item.now }
{
    match item {
        Item::Sent { offset, .. } => *offset,
        Item::Unsent { offset, .. } => *offset,
        _ => 0,
    }
}

// Whether a frame leaves no gap behind those before it.
fn reaches(offset: u64, track: &Track) -> bool
    ensures { result ≡ reaches offset track.now }
{
    !track.is_told || offset <= track.end
}

// Whether what is unused lies behind all frames.
fn leaves(unused: u64, received: u64, track: &Track) -> bool
    ensures { result ≡ leaves unused received track.now }
{
    received == 0 || u128::from(track.end) + u128::from(unused) <= u128::from(received)
}

// Whether a lane that lacks bytes has used so many of those that it received.
fn has_used(used: u64, received: u64, track: &Track) -> bool
    ensures { result ≡ has_used used received track.now }
{
    if received == 0 {
        used == 0
    } else {
        track.end <= used && used <= received
    }
}

/// The lane of a frame that comes to its receiver.
pub fn come_lane(item: &Item) -> Option<Lane>
    ensures { result ≡ come_lane item.now }
{
    match item {
        Item::Passed { lane, .. } => Some(*lane),
        Item::Flipped { lane, .. } => Some(*lane),
        _ => None,
    }
}

// Whether this may become of a frame, as far as the wire has it.
fn has_come(number: u32, outcome: &FrameResult, count: u64) -> bool
    ensures { result ≡ has_come number outcome.now count }
{
    match outcome {
        FrameResult::Refused(Refusal::NoFrame { count: told }) => {
            *told == count && count <= u64::from(number)
        }
        _ => u64::from(number) < count,
    }
}

// Whether the item may tell of the wire's frames, of which there are so many.
fn comes_from(item: &Item, count: u64) -> bool
    ensures { result ≡ comes_from item.now count }
{
    match item {
        Item::Passed {
            number,
            result: outcome,
            ..
        } => has_come(*number, outcome, count),
        Item::Flipped {
            number,
            result: outcome,
            ..
        } => has_come(*number, outcome, count),
        _ => true,
    }
}

impl Tracks {
    /// Before the first item. The call allocates nothing.
    pub fn new(alloc: Global) -> Self
        ensures { AreTracks result [] }
    {
        Tracks {
            lanes: BTreeMap::new(alloc),
        }
    }

    // The track of a lane.
    fn at(&self, lane: &Lane) -> Track
        ensures { result ≡ track_at self.now lane.now }
    {
        match self.lanes.get(&end_key(lane)) {
            Some(track) => *track,
            None => no_track(),
        }
    }

    // Puts the track of a lane in place of the earlier one.
    fn put(&mut self, lane: &Lane, track: Track) -> Result<(), Memory>
        ensures { OnOk result ((l : LaneValue) → track_at self.new l ≡ (if lane_eq lane.now l then track else track_at self.old l)) }
    {
        self.lanes.insert(end_key(lane), track)?;
        Ok(())
    }

    /// Whether a frame leaves no gap on its lane, if the item is of one.
    pub fn reaches(&self, item: &Item) -> bool
        ensures { (before : List Told) → AreTracks self.now before → result ≡ reaches_at (frame_lane item.now) item.now before }
    {
        match frame_lane(item) {
            Some(lane) => reaches(offset_of(item), &self.at(&lane)),
            None => true,
        }
    }

    /// Whether what is unused of a lane lies behind all its frames.
    pub fn leaves(&self, lane: &Lane, unused: u64, received: u64) -> bool
        ensures { (before : List Told) → AreTracks self.now before → result ≡ leaves unused received (track_of lane.now before) }
    {
        leaves(unused, received, &self.at(lane))
    }

    /// Whether a lane that lacks bytes has used so many of those that it received.
    pub fn has_used(&self, lane: &Lane, used: u64, received: u64) -> bool
        ensures { (before : List Told) → AreTracks self.now before → result ≡ has_used used received (track_of lane.now before) }
    {
        has_used(used, received, &self.at(lane))
    }

    /// Whether the wire may have the frame that comes, if the item is of one.
    pub fn comes(&self, item: &Item) -> bool
        ensures { (before : List Told) → AreTracks self.now before → result ≡ comes_at (come_lane item.now) item.now before }
    {
        match come_lane(item) {
            Some(lane) => comes_from(item, self.at(&lane).count),
            None => true,
        }
    }

    /// Adds an item. The only error is that memory runs out.
    pub fn learn(&mut self, item: &Item) -> Result<(), Memory>
        ensures { (told : Told) (before : List Told) → told.item ≡ item.now → AreTracks self.old before → OnOk result (AreTracks self.new (told ∷ before)) }
    {
        match frame_lane(item) {
            Some(lane) => {
                let track = behind_frame(item, &self.at(&lane));
                self.put(&lane, track)
            }
            None => Ok(()),
        }
    }
}
