// The set of frames that are sent again at the next plan.
ghost use Rattle.std.specs.Prelude.{◌≡◌, ◌<◌, ◌^◌, ◌++◌, ◌∷◌, [], ℕ, List, Option, Some, true, false, IsTrue, IfSome, IfNone, ◌||◌, nat_le, if◌then◌else◌};
ghost use Rattle.std.specs.List.{list_any};
ghost use Rattle.std.specs.Str.{bytes_eq};
ghost use Rattle.ordered_set.specs.Entries.{has_entry};
ghost use Rattle.resend_window.specs.declared.held.Held.{Held as HeldValue};
ghost use Rattle.resend_window.specs.Kept.{somes};
ghost use Rattle.resend_window.specs.Repeating.{is_above};
ghost use Rattle.resend_window.specs.Dues.{due_entry, goes_at, HasDues, AreAlikeBut, IsNextDue, IsLastDue};

use crate::groups::offset_group;
use crate::held::Held;
use ordered_set::{Entries, Entry};
use qkd_base::Lane;
use std::alloc::Global;

/// For each lane, the offsets of the frames that are sent again at the next plan. The set is whole, unless memory ran
/// out.
#[derive(Drop)]
pub struct DueSet {
    pub entries: Entries,
    pub is_whole: bool,
}

// The entry of a lane and an offset.
fn entry(lane: &Lane, offset: u64) -> Entry
    ensures { result ≡ due_entry lane.now offset }
{
    let [a, b, c, d] = offset_group(0, lane, 0);
    [a, b, c, d, offset]
}

// Adds an offset of a lane. False if memory runs out.
fn insert(entries: &mut Entries, lane: &Lane, offset: u64) -> bool
    ensures { IsTrue result → (e : List ℕ) → has_entry entries.new e ≡ (bytes_eq (due_entry lane.now offset) e || has_entry entries.old e) }
{
    match entries.insert(entry(lane, offset)) {
        Ok(()) => true,
        Err(_) => false,
    }
}

// Removes an offset of a lane.
fn take_out(entries: &mut Entries, lane: &Lane, offset: u64)
    ensures { (e : List ℕ) → has_entry entries.new e ≡ (if bytes_eq (due_entry lane.now offset) e then false else has_entry entries.old e) }
{
    entries.remove(entry(lane, offset));
}

// The least offset above `after`: 0 if `after` is `None`, and `None` if no offset is greater.
fn first_above(after: Option<u64>) -> Option<u64>
    ensures some { IfSome result (λ from. (x : ℕ) → is_above after x ≡ nat_le from x) }
    ensures none { IfNone result ((x : ℕ) → x < 2 ^ 64 → is_above after x ≡ false) }
{
    match after {
        None => Some(0),
        Some(before) => before.checked_add(1),
    }
}

impl DueSet {
    /// The empty set. It allocates nothing.
    pub fn new(alloc: Global) -> Self
        ensures { HasDues [] result }
    {
        DueSet {
            entries: Entries::new(alloc),
            is_whole: true,
        }
    }

    /// Records whether a frame at this offset of this lane is sent again at the next plan. No other frame may have
    /// changed since the last update.
    pub fn note(&mut self, lane: &Lane, offset: u64, is_due: bool)
        ensures { (before after : List (Option HeldValue)) → AreAlikeBut lane.now offset before after → is_due ≡ list_any (goes_at lane.now offset) (somes after) → HasDues before self.old → HasDues after self.new }
    {
        if !is_due {
            take_out(&mut self.entries, lane, offset);
            return;
        }
        if !insert(&mut self.entries, lane, offset) {
            self.is_whole = false;
        }
    }

    /// Adds a frame, if it is sent again at the next plan.
    pub fn add(&mut self, held: &Held)
        ensures { (slots : List (Option HeldValue)) → HasDues slots self.old → HasDues (slots ++ Some held.now ∷ []) self.new }
    {
        if !held.is_ready() {
            return;
        }
        if !insert(&mut self.entries, &held.lane, held.offset) {
            self.is_whole = false;
        }
    }

    /// The least offset above `after` at which a frame of this lane is sent again.
    pub fn next(&self, lane: &Lane, after: Option<u64>) -> Option<u64>
        ensures next { IfSome result (IsNextDue self.now.entries lane.now after) }
        ensures last { IfNone result (IsLastDue self.now.entries lane.now after) }
    {
        match first_above(after) {
            None => None,
            Some(from) => match self.entries.next(entry(lane, from)) {
                None => None,
                Some(offset) => Some(offset),
            },
        }
    }
}
