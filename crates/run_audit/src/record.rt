// The record of the items that were judged so far.
ghost use Rattle.std.specs.Prelude.{◌≡◌, ℕ, ◌+◌, ◌-◌, ◌<◌, ◌^◌, ◌&&◌, min, List, [], ◌∷◌, true, None, IfOk, length, if◌then◌else◌};
ghost use Rattle.std.specs.List.{cons_option};
ghost use Rattle.std.specs.Ordering.{nat_cmp};
ghost use Rattle.std.specs.BTreeMap.{get};
ghost use Rattle.run_types.specs.declared.scenario.Scenario.{Scenario as Lines};
ghost use Rattle.run_types.specs.declared.item.NumberedItem.{NumberedItem as Told};
ghost use Rattle.run_audit.specs.declared.frames.Frame.{Frame as Sent};
ghost use Rattle.run_audit.specs.Kinds.{kind_at};
ghost use Rattle.run_audit.specs.Rows.{gives_at, is_on_link};
ghost use Rattle.run_audit.specs.Frames.{frame_of, frames};
ghost use Rattle.run_audit.specs.Takings.{frame_is_there, was_there};
ghost use Rattle.run_audit.specs.Rules.{is_next, keeps_apart, balances, is_counted, broken};
ghost use Rattle.run_audit.specs.Kept.{ArePlaced, AreNumbered, AreSummed, IsNew, IsRecordOf};

use crate::contents::Contents;
use crate::frames::{Frame, Places};
use crate::kinds::{Kinds, kind_at};
use crate::line_kind::LineKind;
use crate::rows::{gives_at, is_on_link};
use crate::sums::Sums;
use crate::table::counted;
use crate::takings::{Takings, taking_of};
use crate::tellings::Told as Tellings;
use qkd_base::{Lane, Memory};
use route_table::RouteTable;
use run_types::{FrameResult, Item, NumberedItem, Scenario};
use std::alloc::Global;

/// What the items so far said, as tables.
#[derive(Drop)]
pub struct Record {
    places: Places,
    contents: Contents,
    sums: Sums,
    told: Tellings,
    takings: Takings,
    ledgers: u32,
}

// The frame that an item says was sent.
fn frame_of(item: &Item) -> Option<Frame>
    ensures { result ≡ frame_of item.now }
{
    match item {
        Item::Sent {
            lane,
            number,
            offset,
            length,
        } => Some(Frame {
            lane: *lane,
            number: *number,
            offset: *offset,
            length: *length,
        }),
        _ => None,
    }
}

// Whether a frame has the next number of its lane.
fn is_next(sums: &Sums, frame: &Option<Frame>) -> bool
    ensures { (before : List Told) → AreSummed sums.now before → result ≡ is_next frame.now (frames before) }
{
    match frame {
        Some(frame) => frame.number == sums.at(&frame.lane).sent,
        None => true,
    }
}

// Whether a frame leaves the hash key unused and agrees with all known frames.
fn keeps_apart(places: &Places, frame: &Option<Frame>) -> bool
    ensures { (fs : List Sent) → ArePlaced places.now fs → result ≡ keeps_apart frame.now fs }
{
    match frame {
        Some(frame) => places.keeps_apart(frame),
        None => true,
    }
}

// Adds a frame, and returns whether its place is a new one.
fn place(places: &mut Places, frame: &Option<Frame>) -> Result<bool, Memory>
    ensures { (fs : List Sent) → ArePlaced places.old fs → keeps_apart frame.now fs ≡ true → IfOk result (λ is_new. IsNew is_new frame.now fs × ArePlaced places.new (cons_option frame.now fs)) }
{
    match frame {
        Some(frame) => places.add(frame),
        None => Ok(false),
    }
}

// If a frame was taken, whether a frame of this number had been sent on the lane.
fn frame_is_there(sums: &Sums, lane: &Lane, number: u32, outcome: &FrameResult) -> bool
    ensures { (before : List Told) → AreSummed sums.now before → AreNumbered (frames before) → result ≡ frame_is_there lane.now number outcome.now (frames before) }
{
    match outcome {
        FrameResult::Taken { .. } => u64::from(number) < sums.at(lane).sent,
        _ => true,
    }
}

// Whether the frame that an item says was taken had been sent.
fn was_there(sums: &Sums, item: &Item) -> bool
    ensures { (before : List Told) → AreSummed sums.now before → AreNumbered (frames before) → result ≡ was_there item.now (frames before) }
{
    match item {
        Item::Passed {
            lane,
            number,
            result: outcome,
        } => frame_is_there(sums, lane, *number, outcome),
        Item::Flipped {
            lane,
            number,
            result: outcome,
            ..
        } => frame_is_there(sums, lane, *number, outcome),
        _ => true,
    }
}

// Whether the ledger of an item is true. Items without a ledger pass.
fn balances(sums: &Sums, item: &Item) -> bool
    ensures { (before : List Told) → AreSummed sums.now before → result ≡ balances before item.now }
{
    match item {
        Item::Counted { lane, counts } => sums.is_true(lane, counts),
        _ => true,
    }
}

// Whether an item is a ledger.
fn is_counted(item: &Item) -> bool
    ensures { result ≡ is_counted item.now }
{
    matches!(item, Item::Counted { .. })
}

// Whether an item's line gives such items, and the links that the item names are declared.
fn is_of_line(kind: &Option<LineKind>, routes: &RouteTable, item: &Item) -> bool
    ensures { result ≡ (gives_at kind.now item.now && is_on_link routes.now item.now) }
{
    gives_at(kind, item) && is_on_link(routes, item)
}

impl Record {
    /// The record of no items. The call allocates nothing.
    pub fn new(alloc: Global) -> Self
        ensures { (s : Lines) → IsRecordOf s result [] }
    {
        Record {
            places: Places::new(alloc),
            contents: Contents::new(alloc),
            sums: Sums::new(alloc),
            told: Tellings::new(alloc),
            takings: Takings::new(alloc),
            ledgers: 0,
        }
    }

    /// Adds an item, and returns the least rule that it breaks together with the items before it, if it breaks any. After an
    /// item that breaks a rule the record must not be used again. The only error is that memory runs out.
    pub fn take(
        &mut self,
        alloc: Global,
        scenario: &Scenario,
        kinds: &Kinds,
        told: &NumberedItem,
    ) -> Result<Option<u8>, Memory>
        ensures { (before : List Told) → ((number : ℕ) → get nat_cmp kinds.now number ≡ kind_at scenario.now number) → length before < 2 ^ 32 → IsRecordOf scenario.now self.old before → IfOk result (λ rule. (rule ≡ broken scenario.now before told.now) × (rule ≡ None → IsRecordOf scenario.now self.new (told.now ∷ before))) }
    {
        let kind = kind_at(kinds, told.number);
        let item = &told.item;
        if !is_of_line(&kind, &scenario.site.routes, item) {
            return Ok(Some(1));
        }
        let frame = frame_of(item);
        if !is_next(&self.sums, &frame) {
            return Ok(Some(2));
        }
        if !keeps_apart(&self.places, &frame) {
            return Ok(Some(3));
        }
        let is_like = self.contents.learn(item)?;
        if !is_like {
            return Ok(Some(3));
        }
        if !self
            .told
            .take_item(alloc, &scenario.site.entitlements, &kind, item)?
        {
            return Ok(Some(4));
        }
        if !was_there(&self.sums, item) {
            return Ok(Some(5));
        }
        if !self.takings.take(taking_of(&scenario.site.routes, item))? {
            return Ok(Some(5));
        }
        if !balances(&self.sums, item) {
            return Ok(Some(6));
        }
        let is_new = place(&mut self.places, &frame)?;
        self.contents.number(&frame)?;
        self.sums.add(item, is_new)?;
        self.ledgers = counted(self.ledgers, is_counted(item));
        Ok(None)
    }

    /// How many places frames have, how many deliveries there were, and how many ledgers.
    pub fn counts(&self) -> (u32, u32, u32)
        ensures { result ≡ (self.now.places.count, self.now.told.deliveries, self.now.ledgers) }
    {
        (self.places.count, self.told.deliveries, self.ledgers)
    }
}
