// The list of orders that await their placings.
ghost use Rattle.std.specs.Prelude.{◌≡◌, ◌+◌, ◌≤◌, ◌<◌, ◌^◌, ◌++◌, ◌∷◌, [], Some, OnOk, map, filter, not, length};
ghost use Rattle.std.specs.List.{list_any};
ghost use Rattle.kme_base.specs.Steps.{transmission_of_order};
ghost use Rattle.resend_window.specs.Held.{transmission};
ghost use Rattle.resend_window.specs.Kept.{somes};
ghost use Rattle.resend_window.specs.Lists.{is_same};

use crate::awaited::{Awaited, listed, next_awaited, remove_all};
use crate::catalogue::Catalogue;
use crate::rooms::{compact, has_room, reserve};
use net_model::Order;
use qkd_base::Memory;
use std::alloc::Global;
use std::marker::Model;

/// Orders that await their placings, oldest first. A removed one leaves an empty slot. An index finds them by what
/// they send.
#[derive(Drop)]
pub struct AwaitedList {
    items: Vec<Option<Awaited>>,
    index: Catalogue,
}

impl Model for AwaitedList {
    ghost use Rattle.std.specs.Prelude.{◌-◌, map, vec_capacity, vec_len};
    ghost use Rattle.resend_window.specs.Groups.{AwaitedItems, awaited_groups};

    ghost Value = { AwaitedItems };

    ghost use Rattle.resend_window.specs.Catalogued.{Catalogues};

    ghost view = { λ l. record { items = l.items.items; spare = vec_capacity l.items - vec_len l.items } };

    ghost invariant = { λ l. Catalogues (map awaited_groups l.items.items) l.index };
}

impl AwaitedList {
    /// The empty list. It allocates nothing.
    pub fn new(alloc: Global) -> Self
        ensures { result.items ≡ [] }
    {
        AwaitedList {
            items: Vec::new(alloc),
            index: Catalogue::new(alloc),
        }
    }

    /// Removes all items. It keeps the memory of the list.
    pub fn clear(&mut self)
        ensures items { self.new.items ≡ [] }
        ensures spare { self.old.spare ≤ self.new.spare }
    {
        self.items.clear();
        self.index = Catalogue::new(*self.items.allocator());
    }

    /// An upper bound of the number of orders.
    pub fn count(&self) -> usize
        ensures count { length (somes self.now.items) ≤ result }
        ensures bound { result < 2 ^ 63 }
    {
        self.items.len()
    }

    /// Whether an order that sends the same as `wanted` awaits its placing.
    pub fn has(&self, wanted: &Awaited) -> bool
        ensures { result ≡ list_any (is_same wanted.now) (somes self.now.items) }
    {
        match next_awaited(&self.items, &self.index, wanted, 0) {
            None => false,
            Some(_) => true,
        }
    }

    /// Removes all orders that send the same as `wanted`. It allocates nothing.
    pub fn remove(&mut self, wanted: &Awaited)
        ensures items { somes self.new.items ≡ filter (λ a. not (is_same wanted.now a)) (somes self.old.items) }
        ensures spare { self.new.spare ≡ self.old.spare }
    {
        remove_all(&mut self.items, &mut self.index, wanted);
    }

    // Appends an order.
    fn push(&mut self, awaited: Awaited)
        requires { 0 < self.old.spare }
        ensures items { self.new.items ≡ self.old.items ++ Some awaited ∷ [] }
        ensures spare { self.old.spare ≡ self.new.spare + 1 }
    {
        let place = self.items.len();
        self.index.append(&awaited.group(), place);
        self.items.push_reserved(Some(awaited));
    }

    /// Appends these orders. It needs only the room that was reserved.
    pub fn push_all(&mut self, orders: &[Order])
        requires { length orders.now ≤ self.old.spare }
        ensures items { map transmission (somes self.new.items) ≡ map transmission (somes self.old.items) ++ map transmission_of_order orders.now }
        ensures spare { self.old.spare ≡ self.new.spare + length orders.now }
    {
        for order in orders {
            self.push(Awaited::of(order));
        }
    }

    /// Reserves memory for `more` further orders. An `Err` keeps those that await their placings.
    pub fn grow(&mut self, more: usize) -> Result<(), Memory>
        ensures items { somes self.new.items ≡ somes self.old.items }
        ensures spare { self.old.spare ≤ self.new.spare }
        ensures ok { OnOk result (more ≤ self.new.spare) }
    {
        if has_room(&self.items, more) {
            return Ok(());
        }
        compact(&mut self.items);
        self.index = listed(*self.items.allocator(), &self.items);
        reserve(&mut self.items, more)
    }
}
