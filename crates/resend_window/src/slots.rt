// Sent frames in their slots: found, changed and removed.
ghost use Rattle.std.specs.Prelude.{◌≡◌, ◌+◌, ◌<◌, ◌≤◌, ◌^◌, ◌++◌, ◌∷◌, ℕ, ◌&&◌, nat_le, map, length, IfSome, IfNone, Some, Option, None, List, [], true, false, slice_get, slice_set};
ghost use Rattle.std.specs.List.{list_any};
ghost use Rattle.std.specs.Str.{bytes_eq};
ghost use Rattle.relay_core.specs.Firsts.{IsFirstFrom, IsNoneFrom};
ghost use Rattle.std.specs.Option.{ForSome};
ghost use Rattle.resend_window.specs.declared.held.Held.{Held as HeldValue};
ghost use Rattle.resend_window.specs.Held.{AreHeld, IsHeld, is_ready};
ghost use Rattle.resend_window.specs.declared.edit.Edit.TheVariants.{Renew};
ghost use Rattle.resend_window.specs.Kept.{somes};
ghost use Rattle.resend_window.specs.Lists.{IsLeast, lesser};
ghost use Rattle.resend_window.specs.Repeating.{goes_after, is_above, offset_after};
ghost use Rattle.resend_window.specs.Slots.{passes, is_asked, edit, edited, removed};
ghost use Rattle.resend_window.specs.Catalogued.{Catalogues, groups_at};
ghost use Rattle.resend_window.specs.Groups.{held_groups, sent_group, sent_groups, is_removal};
ghost use Rattle.resend_window.specs.Dues.{goes_at, HasDues, IsListed, AreAlikeBut, AreAlike};

use crate::catalogue::Catalogue;
use crate::due_set::DueSet;
use crate::edit::{Edit, Query};
use crate::groups::sent_group;
use crate::held::{Held, is_next_on};
use qkd_base::Lane;
use std::alloc::Global;

// Whether a slot holds a frame that the query finds.
fn asks_slot(query: &Query, slot: &Option<Held>) -> bool
    ensures { result ≡ passes (is_asked query.now) slot.now }
{
    match slot {
        None => false,
        Some(held) => query.asks(held),
    }
}

// The first place, not below `from`, with a frame that the query finds. It scans the list.
fn walk(slots: &[Option<Held>], query: &Query, from: usize) -> Option<usize>
    ensures first { IfSome result (IsFirstFrom (passes (is_asked query.now)) slots.now from) }
    ensures none { IfNone result (IsNoneFrom (passes (is_asked query.now)) slots.now from) }
{
    for place in from..slots.len() {
        if asks_slot(query, &slots[place]) {
            return Some(place);
        }
    }
    None
}

/// The first place, not below `from`, with a frame that the query finds. It uses the index if that is whole.
pub fn next_slot(
    slots: &[Option<Held>],
    index: &Catalogue,
    query: &Query,
    from: usize,
) -> Option<usize>
    requires { Catalogues (map held_groups slots.now) index.now }
    ensures first { IfSome result (IsFirstFrom (passes (is_asked query.now)) slots.now from) }
    ensures none { IfNone result (IsNoneFrom (passes (is_asked query.now)) slots.now from) }
{
    // The contract of `len` also bounds each place.
    let _holds = slots.len();
    if !index.is_whole {
        return walk(slots, query, from);
    }
    match index.next(&query.group(), from) {
        Some(place) => Some(place as usize),
        None => None,
    }
}

// The slot after a change, if the query finds its frame.
fn changed(slot: &Option<Held>, query: &Query, change: &Edit) -> Option<Held>
    ensures { result ≡ edited query.now change.now slot.now }
{
    match slot {
        None => None,
        Some(held) => {
            if query.asks(held) {
                change.of(held)
            } else {
                Some(*held)
            }
        }
    }
}

// Adds a place to the group of the tick at which its frame was sent, if the frame carries a fact.
fn list_sent(index: &mut Catalogue, ack_of: Option<u64>, sent: u64, place: usize)
    ensures { (keys : List (List (List ℕ))) → place < length keys → Catalogues keys index.old → Catalogues (slice_set keys place (sent_groups ack_of sent ++ groups_at keys place)) index.new }
{
    match ack_of {
        None => index.join(&sent_group(sent), place),
        Some(_) => {}
    }
}

// Removes a place from the group of the tick at which its frame was sent, if the frame carries a fact.
fn unlist_sent(index: &mut Catalogue, ack_of: Option<u64>, sent: u64, place: usize)
    ensures { (keys : List (List (List ℕ))) (rest : List (List ℕ)) → groups_at keys place ≡ sent_groups ack_of sent ++ rest → list_any (bytes_eq (sent_group sent)) rest ≡ false → Catalogues keys index.old → Catalogues (slice_set keys place rest) index.new }
{
    match ack_of {
        None => index.leave(&sent_group(sent), place),
        Some(_) => {}
    }
}

/// Adds the place after the last one to the index groups of its frame.
pub fn enlist(index: &mut Catalogue, held: &Held, place: usize)
    ensures { (keys : List (List (List ℕ))) → length keys ≡ place → Catalogues keys index.old → Catalogues (keys ++ held_groups (Some held.now) ∷ []) index.new }
{
    index.add(&held.place_group(), &held.item_group(), place);
    list_sent(index, held.ack_of, held.sent, place);
}

// Removes the place of a slot from its index groups.
fn unlist(index: &mut Catalogue, slot: &Option<Held>, place: usize)
    ensures { (keys : List (List (List ℕ))) → place < length keys → groups_at keys place ≡ held_groups slot.now → Catalogues keys index.old → Catalogues (slice_set keys place []) index.new }
{
    match slot {
        None => {}
        Some(held) => {
            unlist_sent(index, held.ack_of, held.sent, place);
            index.remove(&held.place_group(), &held.item_group(), place);
        }
    }
}

// Moves the place of a frame that was sent again to the group of that tick.
fn renew(index: &mut Catalogue, held: &Held, tick: u64, place: usize)
    ensures { (keys : List (List (List ℕ))) → place < length keys → groups_at keys place ≡ held_groups (Some held.now) → Catalogues keys index.old → Catalogues (slice_set keys place (held_groups (edit (Renew tick) held.now))) index.new }
{
    unlist_sent(index, held.ack_of, held.sent, place);
    list_sent(index, held.ack_of, tick, place);
}

// Updates the index groups of a frame's place for a change.
fn relist(index: &mut Catalogue, held: &Held, change: &Edit, place: usize)
    requires { is_removal change.now ≡ false }
    ensures { (keys : List (List (List ℕ))) → place < length keys → groups_at keys place ≡ held_groups (Some held.now) → Catalogues keys index.old → Catalogues (slice_set keys place (held_groups (edit change.now held.now))) index.new }
{
    match *change {
        Edit::Renew(tick) => renew(index, held, tick, place),
        Edit::MarkDue => {}
        Edit::Renumber(_) => {}
        Edit::Ripen => {}
        Edit::Remove => {}
    }
}

// Updates the index groups of a slot's place for a change, if the query finds its frame.
fn relist_asked(
    index: &mut Catalogue,
    slot: &Option<Held>,
    query: &Query,
    change: &Edit,
    place: usize,
)
    requires { is_removal change.now ≡ false }
    ensures { (keys : List (List (List ℕ))) → place < length keys → groups_at keys place ≡ held_groups slot.now → Catalogues keys index.old → Catalogues (slice_set keys place (held_groups (edited query.now change.now slot.now))) index.new }
{
    match slot {
        None => {}
        Some(held) => {
            if query.asks(held) {
                relist(index, held, change, place);
            }
        }
    }
}

// Whether a slot holds a frame that is sent again at the next plan.
fn is_ready(slot: &Option<Held>) -> bool
    ensures { result ≡ passes is_ready slot.now }
{
    match slot {
        None => false,
        Some(held) => held.is_ready(),
    }
}

// Whether a frame at this offset of this lane is sent again at the next plan.
fn is_due_at(slots: &[Option<Held>], index: &Catalogue, lane: &Lane, offset: u64) -> bool
    requires { Catalogues (map held_groups slots.now) index.now }
    ensures { result ≡ list_any (goes_at lane.now offset) (somes slots.now) }
{
    let mut from = 0;
    while let Some(place) = next_slot(slots, index, &Query::At(*lane, offset), from) {
        if is_ready(&slots[place]) {
            return true;
        }
        from = place + 1;
    }
    false
}

// Updates the set of due frames at this offset of this lane. No other frame may have changed since the last update.
fn settle_at(dues: &mut DueSet, slots: &[Option<Held>], index: &Catalogue, lane: &Lane, offset: u64)
    requires { Catalogues (map held_groups slots.now) index.now }
    ensures { (before : List (Option HeldValue)) → AreAlikeBut lane.now offset before slots.now → HasDues before dues.old → HasDues slots.now dues.new }
{
    let is_due = is_due_at(slots, index, lane, offset);
    dues.note(lane, offset, is_due);
}

// Updates the set of due frames at the lane and offset of the frame that was in the slot before.
fn settle(dues: &mut DueSet, slots: &[Option<Held>], index: &Catalogue, stood: &Option<Held>)
    requires { Catalogues (map held_groups slots.now) index.now }
    ensures { (before : List (Option HeldValue)) → AreAlike stood.now before slots.now → HasDues before dues.old → HasDues slots.now dues.new }
{
    match stood {
        None => {}
        Some(held) => settle_at(dues, slots, index, &held.lane, held.offset),
    }
}

// Changes the frame at a place.
fn change_at(
    slots: &mut [Option<Held>],
    index: &mut Catalogue,
    dues: &mut DueSet,
    place: usize,
    query: &Query,
    change: &Edit,
)
    requires within { place < length slots.old }
    requires listed { IsListed slots.old index.old dues.old }
    requires kept { is_removal change.now ≡ false }
    ensures slots { (slot : Option HeldValue) → slice_get slots.old place ≡ Some slot → slots.new ≡ slice_set slots.old place (edited query.now change.now slot) }
    ensures listed { IsListed slots.new index.new dues.new }
{
    let stood = slots[place];
    relist_asked(index, &stood, query, change, place);
    let next = changed(&stood, query, change);
    slots[place] = next;
    // The set of due frames stays as it is where the frame wasn't due and isn't.
    if is_ready(&stood) || is_ready(&next) {
        settle(dues, slots, index, &stood);
    }
}

/// Changes all frames that the query finds. The change must not be a removal.
pub fn change_all(
    slots: &mut [Option<Held>],
    index: &mut Catalogue,
    dues: &mut DueSet,
    query: &Query,
    change: &Edit,
)
    requires listed { IsListed slots.old index.old dues.old }
    requires kept { is_removal change.now ≡ false }
    ensures slots { slots.new ≡ map (edited query.now change.now) slots.old }
    ensures listed { IsListed slots.new index.new dues.new }
{
    let mut from = 0;
    while let Some(place) = next_slot(slots, index, query, from) {
        change_at(slots, index, dues, place, query, change);
        from = place + 1;
    }
}

// Empties the slot at a place and removes it from the index.
fn remove_at(slots: &mut [Option<Held>], index: &mut Catalogue, dues: &mut DueSet, place: usize)
    requires within { place < length slots.old }
    requires listed { IsListed slots.old index.old dues.old }
    ensures slots { slots.new ≡ slice_set slots.old place None }
    ensures listed { IsListed slots.new index.new dues.new }
{
    let stood = slots[place];
    unlist(index, &stood, place);
    slots[place] = None;
    if is_ready(&stood) {
        settle(dues, slots, index, &stood);
    }
}

/// Removes all frames that the query finds.
pub fn remove_all(
    slots: &mut [Option<Held>],
    index: &mut Catalogue,
    dues: &mut DueSet,
    query: &Query,
)
    requires { IsListed slots.old index.old dues.old }
    ensures slots { slots.new ≡ map (removed (is_asked query.now)) slots.old }
    ensures listed { IsListed slots.new index.new dues.new }
{
    let mut from = 0;
    while let Some(place) = next_slot(slots, index, query, from) {
        remove_at(slots, index, dues, place);
        from = place + 1;
    }
}

/// A new index of all frames.
pub fn listed(alloc: Global, slots: &[Option<Held>]) -> Catalogue
    ensures { Catalogues (map held_groups slots.now) result }
{
    let mut index = Catalogue::new(alloc);
    for place in 0..slots.len() {
        match &slots[place] {
            None => {}
            Some(held) => enlist(&mut index, held, place),
        }
    }
    index
}

/// The set of all frames that are sent again at the next plan.
pub fn all_due(alloc: Global, slots: &[Option<Held>]) -> DueSet
    ensures { HasDues slots.now result }
{
    let mut dues = DueSet::new(alloc);
    for slot in slots {
        match slot {
            None => {}
            Some(held) => dues.add(held),
        }
    }
    dues
}

// Whether an offset is above `after`. If `after` is `None`, every offset is.
fn is_above(after: Option<u64>, offset: u64) -> bool
    ensures { result ≡ is_above after offset }
{
    match after {
        None => true,
        Some(before) => before < offset,
    }
}

// The offset of a slot's frame, if this frame is sent again at the next tick on this lane and its offset is above
// `after`.
fn offset_after(slot: &Option<Held>, tick: u64, lane: &Lane, after: Option<u64>) -> Option<u64>
    requires room { tick + 1 < 2 ^ 64 }
    requires sent { ForSome slot.now (IsHeld tick) }
    ensures { result ≡ offset_after (tick + 1) lane.now after slot.now }
{
    match slot {
        None => None,
        Some(held) => {
            if is_next_on(held, tick, *lane) && is_above(after, held.offset) {
                Some(held.offset)
            } else {
                None
            }
        }
    }
}

// The lesser of two optional numbers. `None` counts as greater than any number.
fn lesser(one: Option<u64>, other: Option<u64>) -> Option<u64>
    ensures { result ≡ lesser one other }
{
    match (one, other) {
        (None, b) => b,
        (Some(a), None) => Some(a),
        (Some(a), Some(b)) => Some(if b < a { b } else { a }),
    }
}

// The least offset above `after` of a frame on this lane that is sent again at the next tick. It scans the list.
fn walk_offsets(slots: &[Option<Held>], tick: u64, lane: &Lane, after: Option<u64>) -> Option<u64>
    requires room { tick + 1 < 2 ^ 64 }
    requires held { AreHeld tick (somes slots.now) }
    ensures { IsLeast (goes_after (tick + 1) lane.now after) (somes slots.now) result }
{
    let mut least = None;
    for slot in slots {
        least = lesser(least, offset_after(slot, tick, lane, after));
    }
    least
}

/// The least offset above `after` of a frame on this lane that is sent again at the next tick.
pub fn next_offset(
    slots: &[Option<Held>],
    dues: &DueSet,
    tick: u64,
    lane: &Lane,
    after: Option<u64>,
) -> Option<u64>
    requires room { tick + 1 < 2 ^ 64 }
    requires held { AreHeld tick (somes slots.now) }
    requires dues { HasDues slots.now dues.now }
    ensures { IsLeast (goes_after (tick + 1) lane.now after) (somes slots.now) result }
{
    if !dues.is_whole {
        return walk_offsets(slots, tick, lane, after);
    }
    match dues.next(lane, after) {
        None => None,
        Some(offset) => Some(offset),
    }
}
