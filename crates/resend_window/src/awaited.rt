// Orders whose placing isn't known yet.
ghost use Rattle.std.specs.Prelude.{◌≡◌, ◌<◌, ℕ, List, [], None, map, IfSome, IfNone, length, slice_get, slice_set};
ghost use Rattle.relay_core.specs.Firsts.{IsFirstFrom, IsNoneFrom};
ghost use Rattle.net_model.specs.Item.{item_of};
ghost use Rattle.kme_base.specs.Steps.{transmission_of_order};
ghost use Rattle.resend_window.specs.Catalogued.{Catalogues, groups_at};
ghost use Rattle.resend_window.specs.Groups.{awaited_group, awaited_groups};
ghost use Rattle.resend_window.specs.Held.{transmission};
ghost use Rattle.resend_window.specs.Lists.{is_same};
ghost use Rattle.resend_window.specs.Slots.{passes, removed};

use crate::catalogue::{Catalogue, Group};
use crate::groups::name_group;
use net_model::{Order, Payload};
use qkd_base::{KeyName, Lane};
use relay_core::fact_name;
use std::alloc::Global;

/// An order to send a frame, whose placing isn't known yet. The placing is the frame's offset on its lane and its
/// number on the wire.
#[derive(Clone, Copy)]
pub struct Awaited {
    pub lane: Lane,
    pub is_ack: bool,
    pub name: KeyName,
    /// The offset of the frame that is acknowledged, or `None` if the order sends a fact.
    pub ack_of: Option<u64>,
}

impl Awaited {
    /// An order on this lane. It sends the fact of this name, or, if `ack_of` is an offset, the acknowledgement of
    /// the frame that was received there.
    pub fn new(lane: Lane, name: KeyName, ack_of: Option<u64>) -> Self
        ensures { transmission result ≡ record { lane = lane; item = item_of ack_of name; received_offset = ack_of } }
    {
        match ack_of {
            None => Awaited {
                lane,
                is_ack: false,
                name,
                ack_of: None,
            },
            Some(offset) => Awaited {
                lane,
                is_ack: true,
                name,
                ack_of: Some(offset),
            },
        }
    }

    /// What an order sends.
    pub fn of(order: &Order) -> Self
        ensures { transmission result ≡ transmission_of_order order.now }
    {
        match &order.payload {
            Payload::Data(fact) => Awaited {
                lane: order.lane,
                is_ack: false,
                name: fact_name(fact),
                ack_of: order.ack_of,
            },
            Payload::Ack(name) => Awaited {
                lane: order.lane,
                is_ack: true,
                name: *name,
                ack_of: order.ack_of,
            },
        }
    }

    /// The index group of all orders that send the same.
    pub fn group(&self) -> Group
        ensures { result ≡ awaited_group self.now }
    {
        let tag = if self.is_ack { 2 } else { 0 };
        match self.ack_of {
            None => name_group(tag, &self.lane, &self.name, 0),
            Some(offset) => name_group(tag + 1, &self.lane, &self.name, offset),
        }
    }

    // Whether two orders send the same.
    fn is_same(&self, other: &Awaited) -> bool
        ensures { result ≡ is_same self.now other.now }
    {
        let same_item = if self.is_ack {
            other.is_ack && self.name == other.name
        } else {
            !other.is_ack && self.name == other.name
        };
        self.lane == other.lane && same_item && self.ack_of == other.ack_of
    }
}

// Whether a slot holds an order that sends the same as `wanted`.
fn has_place(place: &Option<Awaited>, wanted: &Awaited) -> bool
    ensures { result ≡ passes (is_same wanted.now) place.now }
{
    match place {
        None => false,
        Some(awaited) => wanted.is_same(awaited),
    }
}

// The first place, not below `from`, with an order that sends the same as `wanted`. It scans the list.
fn walk(awaiting: &[Option<Awaited>], wanted: &Awaited, from: usize) -> Option<usize>
    ensures first { IfSome result (IsFirstFrom (passes (is_same wanted.now)) awaiting.now from) }
    ensures none { IfNone result (IsNoneFrom (passes (is_same wanted.now)) awaiting.now from) }
{
    for place in from..awaiting.len() {
        if has_place(&awaiting[place], wanted) {
            return Some(place);
        }
    }
    None
}

/// The first place, not below `from`, with an order that sends the same as `wanted`. It uses the index if that is
/// whole.
pub fn next_awaited(
    awaiting: &[Option<Awaited>],
    index: &Catalogue,
    wanted: &Awaited,
    from: usize,
) -> Option<usize>
    requires { Catalogues (map awaited_groups awaiting.now) index.now }
    ensures first { IfSome result (IsFirstFrom (passes (is_same wanted.now)) awaiting.now from) }
    ensures none { IfNone result (IsNoneFrom (passes (is_same wanted.now)) awaiting.now from) }
{
    // The contract of `len` also bounds each place.
    let _holds = awaiting.len();
    if !index.is_whole {
        return walk(awaiting, wanted, from);
    }
    match index.next(&wanted.group(), from) {
        Some(place) => Some(place as usize),
        None => None,
    }
}

// Removes the place of a slot from its index group.
fn unlist(index: &mut Catalogue, slot: &Option<Awaited>, place: usize)
    ensures { (keys : List (List (List ℕ))) → groups_at keys place ≡ awaited_groups slot.now → Catalogues keys index.old → Catalogues (slice_set keys place []) index.new }
{
    match slot {
        None => {}
        Some(awaited) => index.leave(&awaited.group(), place),
    }
}

// Empties the slot at a place and removes it from the index.
fn remove_at(awaiting: &mut [Option<Awaited>], index: &mut Catalogue, place: usize)
    requires within { place < length awaiting.old }
    requires index { Catalogues (map awaited_groups awaiting.old) index.old }
    ensures slots { awaiting.new ≡ slice_set awaiting.old place None }
    ensures index { Catalogues (map awaited_groups awaiting.new) index.new }
{
    unlist(index, &awaiting[place], place);
    awaiting[place] = None;
}

/// Removes all orders that send the same as `wanted`.
pub fn remove_all(awaiting: &mut [Option<Awaited>], index: &mut Catalogue, wanted: &Awaited)
    requires { Catalogues (map awaited_groups awaiting.old) index.old }
    ensures slots { awaiting.new ≡ map (removed (is_same wanted.now)) awaiting.old }
    ensures index { Catalogues (map awaited_groups awaiting.new) index.new }
{
    let mut from = 0;
    while let Some(place) = next_awaited(awaiting, index, wanted, from) {
        remove_at(awaiting, index, place);
        from = place + 1;
    }
}

/// A new index of all orders.
pub fn listed(alloc: Global, awaiting: &[Option<Awaited>]) -> Catalogue
    ensures { Catalogues (map awaited_groups awaiting.now) result }
{
    let mut index = Catalogue::new(alloc);
    for place in 0..awaiting.len() {
        match &awaiting[place] {
            None => {}
            Some(awaited) => index.append(&awaited.group(), place),
        }
    }
    index
}
