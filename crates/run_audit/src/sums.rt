// Sums of what a report's items say of each lane.
ghost use Rattle.std.specs.Prelude.{◌≡◌, ℕ, ◌*◌, ◌<◌, ◌^◌, ◌==◌, List, [], ◌∷◌, if◌then◌else◌, not, Some, IfOk, OnOk, length};
ghost use Rattle.qkd_base.specs.Lane.{lane_eq};
ghost use Rattle.qkd_base.specs.declared.lane.Lane.{Lane as LaneValue};
ghost use Rattle.run_types.specs.declared.item.NumberedItem.{NumberedItem as Told};
ghost use Rattle.run_audit.specs.Frames.{frame_of, frames, used_on};
ghost use Rattle.run_audit.specs.Ledgers.{lane_from, is_stop, received_in, spends, allows, is_true_ledger};
ghost use Rattle.run_audit.specs.Kept.{no_sum, lane_of, used_by, with_item, sum_at, AreSummed, IsNew};

use crate::frames::place_key;
use crate::table::{Key, find, put};
use net_model::Counts4;
use qkd_base::{Lane, LinkNo, Memory, Way};
use run_types::{End, Item, Refusal};
use std::alloc::Global;
use std::collections::BTreeMap;

/// What the items so far say of a lane: how many frames were put on its wire; how many bytes these use, each place counted
/// once; how many blocks its sender took; whether the sender stopped at a block; whether the wire once refused a frame.
#[derive(Clone, Copy)]
pub struct LaneSum {
    pub sent: u64,
    pub used: u64,
    pub blocks: u64,
    pub is_doubted: bool,
    pub has_unsent: bool,
}

/// The sums of all lanes.
#[derive(Drop)]
pub struct Sums {
    lanes: BTreeMap<Key, LaneSum>,
}

// The sums of a lane that no item has named.
fn no_sum() -> LaneSum
    ensures { result ≡ no_sum }
{
    LaneSum {
        sent: 0,
        used: 0,
        blocks: 0,
        is_doubted: false,
        has_unsent: false,
    }
}

// The lane of a link whose sender is at this end.
fn lane_from(link: LinkNo, end: End) -> Lane
    ensures { result ≡ lane_from link end }
{
    match end {
        End::Low => Lane { link, way: Way::Up },
        End::High => Lane {
            link,
            way: Way::Down,
        },
    }
}

// The lane whose sums an item changes, if there is one.
fn lane_of(item: &Item) -> Option<Lane>
    ensures { result ≡ lane_of item.now }
{
    match item {
        Item::Took { link, end, .. } => Some(lane_from(*link, *end)),
        Item::TookNone { link, end, .. } => Some(lane_from(*link, *end)),
        Item::Sent { lane, .. } => Some(*lane),
        Item::Unsent { lane, .. } => Some(*lane),
        _ => None,
    }
}

fn is_stop(refusal: Refusal) -> bool
    ensures { result ≡ is_stop refusal }
{
    matches!(refusal, Refusal::Stopped)
}

// The bytes that the frames of a lane use, with one more frame.
fn used_by(is_new: bool, length: u16, used: u64) -> u64
    ensures { used < 2 ^ 63 → result ≡ used_by is_new length used }
{
    if is_new {
        used.saturating_add(u64::from(length) + 8)
    } else {
        used
    }
}

// The sums of a lane with one more item. A list of items that fits in memory can't bring them near 2^64.
fn with_item(item: &Item, is_new: bool, sum: &LaneSum) -> LaneSum
    ensures { sum.now.sent < 2 ^ 63 → sum.now.used < 2 ^ 63 → sum.now.blocks < 2 ^ 63 → result ≡ with_item item.now is_new sum.now }
{
    match item {
        Item::Took { .. } => LaneSum {
            blocks: sum.blocks.saturating_add(1),
            ..*sum
        },
        Item::TookNone { refusal, .. } => LaneSum {
            is_doubted: is_stop(*refusal) || sum.is_doubted,
            ..*sum
        },
        Item::Sent { length, .. } => LaneSum {
            sent: sum.sent.saturating_add(1),
            used: used_by(is_new, *length, sum.used),
            ..*sum
        },
        Item::Unsent { .. } => LaneSum {
            has_unsent: true,
            ..*sum
        },
        _ => *sum,
    }
}

// The lane's share of the first `blocks` blocks of its link, in bytes.
fn received_in(way: Way, blocks: u64) -> u128
    ensures { result ≡ received_in way blocks }
{
    match way {
        Way::Up => 1024 * u128::from(blocks / 2 + blocks % 2),
        Way::Down => 1024 * u128::from(blocks / 2),
    }
}

// Whether the spent bytes are the hash key and those of the frames. If a wire refused a frame, more bytes may be spent.
fn spends(is_open: bool, used: u64, counts: &Counts4) -> bool
    ensures { result ≡ spends is_open used counts.now }
{
    if counts.received == 0 {
        counts.spent == 0
    } else if is_open {
        8 + u128::from(used) <= u128::from(counts.spent)
    } else {
        u128::from(counts.spent) == 8 + u128::from(used)
    }
}

// Whether a ledger is true of a lane with these sums.
fn allows(sum: &LaneSum, way: Way, counts: &Counts4) -> bool
    ensures { result ≡ allows sum.now way counts.now }
{
    u128::from(counts.received)
        == u128::from(counts.unused) + u128::from(counts.spent) + u128::from(counts.burnt)
        && (sum.is_doubted || u128::from(counts.received) == received_in(way, sum.blocks))
        && spends(sum.has_unsent, sum.used, counts)
}

impl Sums {
    /// The sums of no items. The call allocates nothing.
    pub fn new(alloc: Global) -> Self
        ensures { AreSummed result [] }
    {
        Sums {
            lanes: BTreeMap::new(alloc),
        }
    }

    /// The sums of a lane.
    pub fn at(&self, lane: &Lane) -> LaneSum
        ensures { result ≡ sum_at self.now lane.now }
    {
        match find(&self.lanes, place_key(lane, 0)) {
            Some(sum) => *sum,
            None => no_sum(),
        }
    }

    // Puts the sums of a lane in place of the earlier ones.
    fn put(&mut self, lane: &Lane, sum: LaneSum) -> Result<(), Memory>
        ensures { OnOk result ((l : LaneValue) → sum_at self.new l ≡ (if lane_eq lane.now l then sum else sum_at self.old l)) }
    {
        put(&mut self.lanes, place_key(lane, 0), sum)
    }

    /// Adds an item. `is_new` says whether the place of its frame is a new one. The only error is that memory runs out.
    pub fn add(&mut self, item: &Item, is_new: bool) -> Result<(), Memory>
        ensures { (told : Told) (before : List Told) → told.item ≡ item.now → IsNew is_new (frame_of told.item) (frames before) → ((l : LaneValue) → used_on l (frames before) < 2 ^ 63) → length before < 2 ^ 63 → AreSummed self.old before → OnOk result (AreSummed self.new (told ∷ before)) }
    {
        match lane_of(item) {
            Some(lane) => {
                let sum = with_item(item, is_new, &self.at(&lane));
                self.put(&lane, sum)
            }
            None => Ok(()),
        }
    }

    /// Whether a ledger is true of the items so far.
    pub fn is_true(&self, lane: &Lane, counts: &Counts4) -> bool
        ensures { (before : List Told) → AreSummed self.now before → result ≡ is_true_ledger before lane.now counts.now }
    {
        allows(&self.at(lane), lane.way, counts)
    }
}
