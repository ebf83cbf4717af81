// The list of pending acknowledgements.
ghost use Rattle.std.specs.Prelude.{◌≡◌, ◌+◌, ◌≤◌, ◌<◌, ◌^◌, ◌++◌, ◌∷◌, [], Some, OnOk, IfSome, IfNone, map, filter, not, drop};
ghost use Rattle.std.specs.List.{list_any};
ghost use Rattle.std.specs.Option.{option_map};
ghost use Rattle.qkd_base.specs.Lane.{lane_eq};
ghost use Rattle.resend_window.specs.Held.{pending_ack};
ghost use Rattle.resend_window.specs.Kept.{somes};
ghost use Rattle.resend_window.specs.Lists.{is_from, is_some_from, rest_of};

use crate::arrival::{Arrival, Arrivals, Pending, listed, next_arrival, pending_at, remove_all};
use crate::catalogue::Catalogue;
use crate::rooms::{compact, has_room, reserve};
use qkd_base::{Lane, Memory};
use std::alloc::Global;
use std::marker::Model;

/// Pending acknowledgements in order of arrival. A removed one leaves an empty slot. An index finds them by lane, and
/// by lane and offset.
#[derive(Drop)]
pub struct ArrivalList {
    items: Vec<Option<Arrival>>,
    index: Catalogue,
}

impl Model for ArrivalList {
    ghost use Rattle.std.specs.Prelude.{◌-◌, map, vec_capacity, vec_len};
    ghost use Rattle.resend_window.specs.Groups.{ArrivalItems, arrival_groups};

    ghost Value = { ArrivalItems };

    ghost use Rattle.resend_window.specs.Catalogued.{Catalogues};

    ghost view = { λ l. record { items = l.items.items; spare = vec_capacity l.items - vec_len l.items } };

    ghost invariant = { λ l. Catalogues (map arrival_groups l.items.items) l.index };
}

impl ArrivalList {
    /// The empty list. It allocates nothing.
    pub fn new(alloc: Global) -> Self
        ensures { result.items ≡ [] }
    {
        ArrivalList {
            items: Vec::new(alloc),
            index: Catalogue::new(alloc),
        }
    }

    /// Removes all items. It keeps the memory of the list.
    pub fn clear(&mut self)
        ensures items { self.new.items ≡ [] }
        ensures spare { self.old.spare ≤ self.new.spare }
    {
        self.items.clear();
        self.index = Catalogue::new(*self.items.allocator());
    }

    /// Whether the query finds a pending acknowledgement.
    pub fn has(&self, wanted: &Arrivals) -> bool
        ensures { result ≡ list_any (is_from wanted.now) (somes self.now.items) }
    {
        match next_arrival(&self.items, &self.index, wanted, 0) {
            None => false,
            Some(_) => true,
        }
    }

    /// The first pending acknowledgement, at or after place `from`, of a frame that arrived on this lane.
    pub fn next(&self, lane: Lane, from: usize) -> Option<Pending>
        ensures some { IfSome result (λ p. rest_of lane self.now.items from ≡ record { lane = lane; offset = p.offset; name = p.name } ∷ rest_of lane self.now.items (p.place + 1)) }
        ensures none { IfNone result (rest_of lane self.now.items from ≡ []) }
        ensures place { IfSome result (λ p. p.place < 2 ^ 63) }
    {
        match next_arrival(&self.items, &self.index, &Arrivals::Of(lane), from) {
            None => None,
            Some(place) => pending_at(&self.items, place),
        }
    }

    // Removes all acknowledgements that the query finds.
    fn remove(&mut self, wanted: &Arrivals)
        ensures items { somes self.new.items ≡ filter (λ a. not (is_from wanted.now a)) (somes self.old.items) }
        ensures spare { self.new.spare ≡ self.old.spare }
    {
        remove_all(&mut self.items, &mut self.index, wanted);
    }

    /// Removes the pending acknowledgements that a frame on the other lane sends. `ack_of` is the offset that this
    /// frame acknowledges, or `None` if it carries a fact. It allocates nothing.
    pub fn remove_sent(&mut self, lane: Lane, ack_of: Option<u64>)
        ensures items { somes self.new.items ≡ filter (λ a. not (is_some_from lane ack_of a)) (somes self.old.items) }
        ensures spare { self.new.spare ≡ self.old.spare }
    {
        match ack_of {
            None => {}
            Some(offset) => self.remove(&Arrivals::From(lane, offset)),
        }
    }

    /// Appends an acknowledgement. It needs only the room that was reserved.
    pub fn push(&mut self, arrival: Arrival)
        requires { 0 < self.old.spare }
        ensures items { self.new.items ≡ self.old.items ++ Some arrival ∷ [] }
        ensures spare { self.old.spare ≡ self.new.spare + 1 }
    {
        let place = self.items.len();
        self.index
            .add(&arrival.lane_group(), &arrival.place_group(), place);
        self.items.push_reserved(Some(arrival));
    }

    /// Reserves memory for `more` further acknowledgements. An `Err` keeps the pending ones.
    pub fn grow(&mut self, more: usize) -> Result<(), Memory>
        ensures items { somes self.new.items ≡ somes self.old.items }
        ensures spare { self.old.spare ≤ self.new.spare }
        ensures ok { OnOk result (more ≤ self.new.spare) }
    {
        if has_room(&self.items, more) {
            return Ok(());
        }
        compact(&mut self.items);
        self.index = listed(*self.items.allocator(), &self.items);
        reserve(&mut self.items, more)
    }
}
