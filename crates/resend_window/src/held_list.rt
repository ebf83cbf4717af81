// The list of frames that were sent and may be sent again.
ghost use Rattle.std.specs.Prelude.{◌≡◌, ◌+◌, ◌≤◌, ◌<◌, ◌^◌, ◌++◌, ◌∷◌, [], Some, None, false, OnOk, map, find};
ghost use Rattle.std.specs.List.{list_any};
ghost use Rattle.std.specs.Option.{option_copied};
ghost use Rattle.resend_window.specs.Kept.{somes};
ghost use Rattle.resend_window.specs.Groups.{is_removal};
ghost use Rattle.resend_window.specs.Lists.{renewed_by, ripened_at, IsLeast};
ghost use Rattle.resend_window.specs.Held.{AreHeld};
ghost use Rattle.resend_window.specs.Repeating.{goes_after};
ghost use Rattle.resend_window.specs.Slots.{is_asked, edited, removed};

use crate::catalogue::Catalogue;
use crate::due_set::DueSet;
use crate::edit::{Edit, Query};
use crate::held::Held;
use crate::rooms::{compact, has_room, is_sparse, reserve};
use crate::slots::{all_due, change_all, enlist, listed, next_offset, next_slot, remove_all};
use net_model::Repeat;
use qkd_base::{Lane, Memory};
use std::alloc::Global;
use std::marker::Model;

/// Frames in the order in which their placings came. A removed one leaves an empty slot. An index finds frames by
/// offset, by fact, by the frame they acknowledge, and by the tick at which a fact was last sent. A set has the
/// offsets of the frames that are sent again at the next plan.
#[derive(Drop)]
pub struct HeldList {
    items: Vec<Option<Held>>,
    index: Catalogue,
    dues: DueSet,
}

impl Model for HeldList {
    ghost use Rattle.std.specs.Prelude.{◌-◌, vec_capacity, vec_len};
    ghost use Rattle.resend_window.specs.Groups.{HeldItems};

    ghost Value = { HeldItems };

    ghost use Rattle.resend_window.specs.Dues.{IsListed};

    ghost view = { λ l. record { items = l.items.items; spare = vec_capacity l.items - vec_len l.items } };

    ghost invariant = { λ l. IsListed l.items.items l.index l.dues };
}

impl HeldList {
    /// The empty list. It allocates nothing.
    pub fn new(alloc: Global) -> Self
        ensures { result.items ≡ [] }
    {
        HeldList {
            items: Vec::new(alloc),
            index: Catalogue::new(alloc),
            dues: DueSet::new(alloc),
        }
    }

    /// Removes all items. It keeps the memory of the list.
    pub fn clear(&mut self)
        ensures items { self.new.items ≡ [] }
        ensures spare { self.old.spare ≤ self.new.spare }
    {
        self.items.clear();
        self.index = Catalogue::new(*self.items.allocator());
        self.dues = DueSet::new(*self.items.allocator());
    }

    /// The allocator of the list.
    pub fn allocator(&self) -> Global {
        *self.items.allocator()
    }

    /// Whether the query finds a frame.
    pub fn has(&self, query: &Query) -> bool
        ensures { result ≡ list_any (is_asked query.now) (somes self.now.items) }
    {
        match next_slot(&self.items, &self.index, query, 0) {
            None => false,
            Some(_) => true,
        }
    }

    /// The first frame that the query finds.
    pub fn first(&self, query: &Query) -> Option<&Held>
        ensures { option_copied result ≡ find (is_asked query.now) (somes self.now.items) }
    {
        match next_slot(&self.items, &self.index, query, 0) {
            None => None,
            Some(place) => self.items[place].as_ref(),
        }
    }

    /// Changes all frames that the query finds. It allocates nothing.
    pub fn change(&mut self, query: &Query, change: &Edit)
        requires { is_removal change.now ≡ false }
        ensures items { self.new.items ≡ map (edited query.now change.now) self.old.items }
        ensures spare { self.new.spare ≡ self.old.spare }
    {
        change_all(
            &mut self.items,
            &mut self.index,
            &mut self.dues,
            query,
            change,
        );
    }

    /// Removes all frames that the query finds. It allocates nothing.
    pub fn remove(&mut self, query: &Query)
        ensures items { self.new.items ≡ map (removed (is_asked query.now)) self.old.items }
        ensures spare { self.new.spare ≡ self.old.spare }
    {
        remove_all(&mut self.items, &mut self.index, &mut self.dues, query);
    }

    /// Records that the repeated frames were sent again at this tick. It allocates nothing.
    pub fn renew_all(&mut self, repeats: &[Repeat], tick: u64)
        ensures items { somes self.new.items ≡ map (renewed_by tick repeats.now) (somes self.old.items) }
        ensures spare { self.new.spare ≡ self.old.spare }
    {
        for repeat in repeats {
            self.change(&Query::At(repeat.lane, repeat.offset), &Edit::Renew(tick));
        }
    }

    /// Marks the frames with facts that were last sent three ticks before this one: they are old enough at the next
    /// plan.
    pub fn ripen(&mut self, tick: u64)
        ensures items { somes self.new.items ≡ map (ripened_at tick) (somes self.old.items) }
        ensures spare { self.new.spare ≡ self.old.spare }
    {
        if 3 <= tick {
            self.change(&Query::SentAt(tick - 3), &Edit::Ripen);
        }
    }

    /// The least offset above `after` of a frame on this lane that is sent again at the next tick.
    pub fn next_offset(&self, tick: u64, lane: &Lane, after: Option<u64>) -> Option<u64>
        requires room { tick + 1 < 2 ^ 64 }
        requires held { AreHeld tick (somes self.now.items) }
        ensures { IsLeast (goes_after (tick + 1) lane.now after) (somes self.now.items) result }
    {
        next_offset(&self.items, &self.dues, tick, lane, after)
    }

    /// Appends a frame. It needs only the room that was reserved.
    pub fn push(&mut self, held: Held)
        requires { 0 < self.old.spare }
        ensures items { self.new.items ≡ self.old.items ++ Some held ∷ [] }
        ensures spare { self.old.spare ≡ self.new.spare + 1 }
    {
        let place = self.items.len();
        enlist(&mut self.index, &held, place);
        self.dues.add(&held);
        self.items.push_reserved(Some(held));
    }

    // Removes the empty slots of the list. It keeps the memory of the list.
    fn compact(&mut self)
        ensures items { somes self.new.items ≡ somes self.old.items }
        ensures spare { self.old.spare ≤ self.new.spare }
    {
        compact(&mut self.items);
        self.index = listed(*self.items.allocator(), &self.items);
        self.dues = all_due(*self.items.allocator(), &self.items);
    }

    /// Reserves memory for `more` further frames. An `Err` keeps the frames of the list.
    pub fn grow(&mut self, more: usize) -> Result<(), Memory>
        ensures items { somes self.new.items ≡ somes self.old.items }
        ensures spare { self.old.spare ≤ self.new.spare }
        ensures ok { OnOk result (more ≤ self.new.spare) }
    {
        if has_room(&self.items, more) {
            return Ok(());
        }
        // To compact a list is to make its index anew, so it has to free many slots.
        if is_sparse(&self.items) {
            self.compact();
        }
        reserve(&mut self.items, more)
    }
}
