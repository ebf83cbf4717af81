// Acknowledgements that aren't sent yet.
ghost use Rattle.std.specs.Prelude.{◌≡◌, ◌<◌, ℕ, List, [], None, map, IfSome, IfNone, length, slice_get, slice_set};
ghost use Rattle.qkd_base.specs.Lane.{reverse_lane};
ghost use Rattle.relay_core.specs.Firsts.{IsFirstFrom, IsNoneFrom};
ghost use Rattle.resend_window.specs.Catalogued.{Catalogues, groups_at};
ghost use Rattle.resend_window.specs.Groups.{offset_group, arrivals_group, arrival_groups};
ghost use Rattle.resend_window.specs.Lists.{is_from, pending_of};
ghost use Rattle.resend_window.specs.Slots.{passes, removed};

use crate::catalogue::{Catalogue, Group};
use crate::edit::Query;
use crate::groups::offset_group;
use crate::held::reversed;
use qkd_base::{KeyName, Lane};
use std::alloc::Global;

/// A received frame that must be acknowledged: its lane, its offset, and the name of the fact that it carried.
#[derive(Clone, Copy)]
pub struct Arrival {
    pub lane: Lane,
    pub offset: u64,
    pub name: KeyName,
}

/// A pending acknowledgement: its place, the offset of the frame that it acknowledges, and the name of that frame's
/// fact.
#[derive(Clone, Copy, Debug, PartialEq, Eq)]
pub struct Pending {
    /// Its place in the list of pending acknowledgements, which is in order of arrival.
    pub place: usize,
    pub offset: u64,
    pub name: KeyName,
}

/// A query for pending acknowledgements.
#[derive(Clone, Copy)]
pub enum Arrivals {
    /// The acknowledgements of all frames that arrived on a lane.
    Of(Lane),
    /// The acknowledgement of the frame that arrived on a lane at an offset.
    From(Lane, u64),
}

impl Arrival {
    /// The index group of all arrivals on this lane.
    pub fn lane_group(&self) -> Group
        ensures { result ≡ offset_group 0 self.now.lane 0 }
    {
        offset_group(0, &self.lane, 0)
    }

    /// The index group of all arrivals on this lane at this offset.
    pub fn place_group(&self) -> Group
        ensures { result ≡ offset_group 1 self.now.lane self.now.offset }
    {
        offset_group(1, &self.lane, self.offset)
    }

    /// The query for the acknowledgements of this frame that were sent already.
    pub fn answer(&self) -> Query
        ensures { result ≡ Query.Answering (reverse_lane self.now.lane) self.now.offset }
    {
        Query::Answering(reversed(self.lane), self.offset)
    }

    /// The query for all pending acknowledgements of this frame.
    pub fn same(&self) -> Arrivals
        ensures { result ≡ Arrivals.From self.now.lane self.now.offset }
    {
        Arrivals::From(self.lane, self.offset)
    }
}

impl Arrivals {
    // The index group of the arrivals that this query finds.
    fn group(&self) -> Group
        ensures { result ≡ arrivals_group self.now }
    {
        match self {
            Arrivals::Of(lane) => offset_group(0, lane, 0),
            Arrivals::From(lane, offset) => offset_group(1, lane, *offset),
        }
    }

    // Whether the query finds this arrival.
    fn has(&self, arrival: &Arrival) -> bool
        ensures { result ≡ is_from self.now arrival.now }
    {
        match *self {
            Arrivals::Of(lane) => arrival.lane == lane,
            Arrivals::From(lane, offset) => arrival.lane == lane && arrival.offset == offset,
        }
    }
}

// Whether a slot holds an arrival that the query finds.
fn has_place(place: &Option<Arrival>, wanted: &Arrivals) -> bool
    ensures { result ≡ passes (is_from wanted.now) place.now }
{
    match place {
        None => false,
        Some(arrival) => wanted.has(arrival),
    }
}

// The first place, not below `from`, with an arrival that the query finds. It scans the list.
fn walk(pending: &[Option<Arrival>], wanted: &Arrivals, from: usize) -> Option<usize>
    ensures first { IfSome result (IsFirstFrom (passes (is_from wanted.now)) pending.now from) }
    ensures none { IfNone result (IsNoneFrom (passes (is_from wanted.now)) pending.now from) }
{
    for place in from..pending.len() {
        if has_place(&pending[place], wanted) {
            return Some(place);
        }
    }
    None
}

/// The first place, not below `from`, with an arrival that the query finds. It uses the index if that is whole.
pub fn next_arrival(
    pending: &[Option<Arrival>],
    index: &Catalogue,
    wanted: &Arrivals,
    from: usize,
) -> Option<usize>
    requires { Catalogues (map arrival_groups pending.now) index.now }
    ensures first { IfSome result (IsFirstFrom (passes (is_from wanted.now)) pending.now from) }
    ensures none { IfNone result (IsNoneFrom (passes (is_from wanted.now)) pending.now from) }
{
    // The contract of `len` also bounds each place.
    let _holds = pending.len();
    if !index.is_whole {
        return walk(pending, wanted, from);
    }
    match index.next(&wanted.group(), from) {
        Some(place) => Some(place as usize),
        None => None,
    }
}

// Removes the place of a slot from its index groups.
fn unlist(index: &mut Catalogue, slot: &Option<Arrival>, place: usize)
    ensures { (keys : List (List (List ℕ))) → groups_at keys place ≡ arrival_groups slot.now → Catalogues keys index.old → Catalogues (slice_set keys place []) index.new }
{
    match slot {
        None => {}
        Some(arrival) => index.remove(&arrival.lane_group(), &arrival.place_group(), place),
    }
}

// Empties the slot at a place and removes it from the index.
fn remove_at(pending: &mut [Option<Arrival>], index: &mut Catalogue, place: usize)
    requires within { place < length pending.old }
    requires index { Catalogues (map arrival_groups pending.old) index.old }
    ensures slots { pending.new ≡ slice_set pending.old place None }
    ensures index { Catalogues (map arrival_groups pending.new) index.new }
{
    unlist(index, &pending[place], place);
    pending[place] = None;
}

/// Removes all arrivals that the query finds.
pub fn remove_all(pending: &mut [Option<Arrival>], index: &mut Catalogue, wanted: &Arrivals)
    requires { Catalogues (map arrival_groups pending.old) index.old }
    ensures slots { pending.new ≡ map (removed (is_from wanted.now)) pending.old }
    ensures index { Catalogues (map arrival_groups pending.new) index.new }
{
    let mut from = 0;
    while let Some(place) = next_arrival(pending, index, wanted, from) {
        remove_at(pending, index, place);
        from = place + 1;
    }
}

/// A new index of all arrivals.
pub fn listed(alloc: Global, pending: &[Option<Arrival>]) -> Catalogue
    ensures { Catalogues (map arrival_groups pending.now) result }
{
    let mut index = Catalogue::new(alloc);
    for place in 0..pending.len() {
        match &pending[place] {
            None => {}
            Some(arrival) => index.add(&arrival.lane_group(), &arrival.place_group(), place),
        }
    }
    index
}

/// The pending acknowledgement at a place, if its slot isn't empty.
pub fn pending_at(pending: &[Option<Arrival>], place: usize) -> Option<Pending>
    requires { place < length pending.now }
    ensures { result ≡ pending_of place (slice_get pending.now place) }
{
    match pending[place] {
        None => None,
        Some(arrival) => Some(Pending {
            place,
            offset: arrival.offset,
            name: arrival.name,
        }),
    }
}
