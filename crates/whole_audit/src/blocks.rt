// Rule 9: the numbers of blocks.
ghost use Rattle.std.specs.Prelude.{◌≡◌, List, [], ◌∷◌, nat_le, if◌then◌else◌, OnOk};
ghost use Rattle.qkd_base.specs.declared.lane.Lane.{Lane as LaneValue};
ghost use Rattle.qkd_base.specs.Lane.{lane_eq};
ghost use Rattle.run_types.specs.declared.item.NumberedItem.{NumberedItem as Told};
ghost use Rattle.run_audit.specs.Ledgers.{received_in};
ghost use Rattle.whole_audit.specs.Blocks.{behind_refusal, behind_item, block_lane, may_take_none, is_next, follows};
ghost use Rattle.whole_audit.specs.Claims.{most_received, least_received, may_have_at_end};
ghost use Rattle.whole_audit.specs.Frames.{most_at_end};
ghost use Rattle.whole_audit.specs.Sums.{may_have_received, lacks_rightly, lacks_bytes};
ghost use Rattle.whole_audit.specs.Kept.{no_count, end_key, count_at, AreCounted};

use item_audit::{lane_from, lane_place, reversed};
use qkd_base::{Lane, Memory, Way};
use run_types::{FrameResult, Item, Refusal};
use std::alloc::Global;
use std::collections::BTreeMap;

/// How many blocks an end may have taken, or how many names a node may have given.
#[derive(Clone, Copy)]
pub struct Count {
    pub least: u64,
    pub most: u64,
}

/// The counts of all ends.
#[derive(Drop)]
pub struct Counts {
    // By the number of the lane that begins at the end.
    ends: BTreeMap<[u64; 1], Count>,
}

/// The table key of the end at which a lane begins.
pub fn end_key(lane: &Lane) -> [u64; 1]
    ensures { result ≡ end_key lane.now }
{
    [lane_place(lane)]
}

// The lane's share of the first blocks of its link, in bytes.
fn received_in(way: Way, blocks: u64) -> u128
    ensures { result ≡ received_in way blocks }
{
    match way {
        Way::Up => 1024 * u128::from(blocks / 2 + blocks % 2),
        Way::Down => 1024 * u128::from(blocks / 2),
    }
}

/// The count of an end, or of a node, of which no item told.
pub fn no_count() -> Count
    ensures { result ≡ no_count }
{
    Count { least: 0, most: 0 }
}

// How many blocks an end may have taken behind a refusal.
fn behind_refusal(refusal: Refusal, count: &Count) -> Count
    ensures { result ≡ behind_refusal refusal count.now }
{
    match refusal {
        Refusal::Stopped => Count {
            most: count.most.saturating_add(1).min(1024),
            ..*count
        },
        _ => *count,
    }
}

// How many blocks an end may have taken behind an item of its own.
fn behind_item(item: &Item, count: &Count) -> Count
    ensures { result ≡ behind_item item.now count.now }
{
    match item {
        Item::Took { number, .. } => {
            let taken = u64::from(*number) + 1;
            Count {
                least: taken,
                most: taken,
            }
        }
        Item::TookNone { refusal, .. } => behind_refusal(*refusal, count),
        _ => *count,
    }
}

// The lane that begins at the end whose block an item tells of.
fn block_lane(item: &Item) -> Option<Lane>
    ensures { result ≡ block_lane item.now }
{
    match item {
        Item::Took { link, end, .. } => Some(lane_from(*link, *end)),
        Item::TookNone { link, end, .. } => Some(lane_from(*link, *end)),
        _ => None,
    }
}

// Whether an end with this count may have refused a block so.
fn may_take_none(refusal: Refusal, count: &Count) -> bool
    ensures { result ≡ may_take_none refusal count.now }
{
    match refusal {
        Refusal::Down => true,
        Refusal::LinkFull => 1024 <= count.most,
        Refusal::Stopped
        | Refusal::Memory
        | Refusal::NoBlock
        | Refusal::DeviceFault
        | Refusal::JournalFull { .. } => count.least < 1024,
        _ => false,
    }
}

// Whether an item fits the count of its end.
fn is_next(item: &Item, count: &Count) -> bool
    ensures { result ≡ is_next item.now count.now }
{
    match item {
        Item::Took { number, .. } => {
            let number = u64::from(*number);
            count.least <= number && number <= count.most && number < 1024
        }
        Item::TookNone { refusal, .. } => may_take_none(*refusal, count),
        _ => true,
    }
}

impl Counts {
    /// The counts before the first item. The call allocates nothing.
    pub fn new(alloc: Global) -> Self
        ensures { AreCounted result [] }
    {
        Counts {
            ends: BTreeMap::new(alloc),
        }
    }

    // The count of the end at which a lane begins.
    fn at(&self, lane: &Lane) -> Count
        ensures { result ≡ count_at self.now lane.now }
    {
        match self.ends.get(&end_key(lane)) {
            Some(count) => *count,
            None => no_count(),
        }
    }

    // Puts the count of an end in place of the earlier one.
    fn put(&mut self, lane: &Lane, count: Count) -> Result<(), Memory>
        ensures { OnOk result ((l : LaneValue) → count_at self.new l ≡ (if lane_eq lane.now l then count else count_at self.old l)) }
    {
        self.ends.insert(end_key(lane), count)?;
        Ok(())
    }

    // The most bytes of a lane that its sender may have received.
    fn most_received(&self, lane: &Lane) -> u128
        ensures { (before : List Told) → AreCounted self.now before → result ≡ most_received lane.now before }
    {
        received_in(lane.way, self.at(lane).most)
    }

    // The least bytes of a lane that its sender has received.
    fn least_received(&self, lane: &Lane) -> u128
        ensures { (before : List Told) → AreCounted self.now before → result ≡ least_received lane.now before }
    {
        received_in(lane.way, self.at(lane).least)
    }

    /// Whether a lane's sender may have received so many of its bytes, or more.
    pub fn may_reach(&self, lane: &Lane, bytes: u128) -> bool
        ensures { (before : List Told) → AreCounted self.now before → result ≡ nat_le bytes (most_received lane.now before) }
    {
        bytes <= self.most_received(lane)
    }

    /// Whether a lane's sender may have received just so many of its bytes.
    pub fn may_have_received(&self, lane: &Lane, bytes: u64) -> bool
        ensures { (before : List Told) → AreCounted self.now before → result ≡ may_have_received lane.now bytes before }
    {
        self.least_received(lane) <= u128::from(bytes)
            && u128::from(bytes) <= self.most_received(lane)
    }

    /// The most bytes of a lane that its receiver may have.
    pub fn most_at_end(&self, lane: &Lane) -> u128
        ensures { (before : List Told) → AreCounted self.now before → result ≡ most_at_end lane.now before }
    {
        received_in(lane.way, self.at(&reversed(lane)).most)
    }

    // Whether a lane's receiver may have just so many of its bytes.
    fn may_have_at_end(&self, lane: &Lane, bytes: u64) -> bool
        ensures { (before : List Told) → AreCounted self.now before → result ≡ may_have_at_end lane.now bytes before }
    {
        let count = self.at(&reversed(lane));
        received_in(lane.way, count.least) <= u128::from(bytes)
            && u128::from(bytes) <= received_in(lane.way, count.most)
    }

    // Whether the receiver of a frame has as many bytes as it says where it lacks some.
    fn lacks_rightly(&self, lane: &Lane, outcome: &FrameResult) -> bool
        ensures { (before : List Told) → AreCounted self.now before → result ≡ lacks_rightly lane.now outcome.now before }
    {
        match outcome {
            FrameResult::Refused(Refusal::NoBits { have }) => self.may_have_at_end(lane, *have),
            _ => true,
        }
    }

    /// Whether the receiver of a frame, if the item is of one, has as many bytes as it says where it lacks some.
    pub fn lacks_bytes(&self, item: &Item) -> bool
        ensures { (before : List Told) → AreCounted self.now before → result ≡ lacks_bytes before item.now }
    {
        match item {
            Item::Passed {
                lane,
                result: outcome,
                ..
            } => self.lacks_rightly(lane, outcome),
            Item::Flipped {
                lane,
                result: outcome,
                ..
            } => self.lacks_rightly(lane, outcome),
            Item::Forged {
                lane,
                result: outcome,
            } => self.lacks_rightly(lane, outcome),
            _ => true,
        }
    }

    /// Whether an item fits the count of its end.
    pub fn fits(&self, item: &Item) -> bool
        ensures { (before : List Told) → AreCounted self.now before → result ≡ follows (block_lane item.now) item.now before }
    {
        match block_lane(item) {
            Some(lane) => is_next(item, &self.at(&lane)),
            None => true,
        }
    }

    /// Adds an item. The only error is that memory runs out.
    pub fn learn(&mut self, item: &Item) -> Result<(), Memory>
        ensures { (told : Told) (before : List Told) → told.item ≡ item.now → AreCounted self.old before → OnOk result (AreCounted self.new (told ∷ before)) }
    {
        match block_lane(item) {
            Some(lane) => {
                let count = behind_item(item, &self.at(&lane));
                self.put(&lane, count)
            }
            None => Ok(()),
        }
    }
}
