// The window of a manager.
ghost use Rattle.std.specs.Prelude.{◌≡◌, ◌+◌, ◌≤◌, ◌<◌, ◌^◌, ◌&&◌, ◌++◌, [], ◌∷◌, List, true, false, OnOk, IfSome, IfNone, IfOk, length, map, filter};
ghost use Rattle.std.specs.List.{list_any};
ghost use Rattle.qkd_base.specs.Name.{Name};
ghost use Rattle.qkd_base.specs.Lane.{lane_eq};
ghost use Rattle.qkd_base.specs.declared.lane.Lane.{Lane as LaneValue};
ghost use Rattle.net_model.specs.Item.{item_of, is_data_of};
ghost use Rattle.net_model.specs.World.{no_volatile};
ghost use Rattle.net_model.specs.Window.{acknowledge, cleared, age, repeats_on, repeat_of, transmission_eq, transmission_of, stands_at, complete_one, is_acked_item};
ghost use Rattle.resend_window.specs.Held.{transmission};
ghost use Rattle.resend_window.specs.Placed.{placed, order_placed, repeat_placed};
ghost use Rattle.kme_base.specs.Steps.{planned};
ghost use Rattle.resend_window.specs.Kept.{KeepsRooms, pending_from};

use crate::arrival::{Arrival, Pending};
use crate::arrival_list::ArrivalList;
use crate::awaited::Awaited;
use crate::awaited_list::AwaitedList;
use crate::due_repeats::repeats_of;
use crate::edit::{Edit, Query};
use crate::held::{held_of, reversed};
use crate::held_list::HeldList;
use net_model::{Order, Placing, Repeat, Repeats};
use qkd_base::{KeyName, Lane, Memory};
use std::alloc::Global;
use std::marker::Model;

/// What a manager loses at a crash: the frames that it sent and may send again, the acknowledgements that it still
/// has to send, and the orders whose placings it doesn't know yet (ETSI GS QKD 014 leaves relaying to the key
/// managers).
#[derive(Drop)]
pub struct Window {
    // The number of plans since the manager was started.
    tick: u64,
    slots: HeldList,
    pending: ArrivalList,
    awaiting: AwaitedList,
}

impl Model for Window {
    ghost use Rattle.std.specs.Prelude.{◌-◌, ◌^◌, min, map, length};
    ghost use Rattle.std.specs.Option.{option_map};
    ghost use Rattle.resend_window.specs.Kept.{Kept, somes};
    ghost use Rattle.resend_window.specs.Held.{pending_ack};
    ghost use Rattle.resend_window.specs.Lists.{IsWindow, value_of};

    ghost Value = { Kept };

    ghost view = { λ w. record {
      volatile = value_of w.tick w.slots.items w.pending.items w.awaiting.items;
      arrivals = map (option_map pending_ack) w.pending.items;
      received_spare = w.pending.spare;
      orders_spare = min w.awaiting.spare (w.slots.spare - length (somes w.awaiting.items));
      ticks_spare = 2 ^ 64 - 1 - w.tick;
    } };

    ghost invariant = { λ w. IsWindow w.tick (somes w.slots.items) (somes w.awaiting.items) w.slots.spare };
}

impl Window {
    /// The empty window. It allocates nothing.
    pub fn new(alloc: Global) -> Self
        ensures { result.volatile ≡ no_volatile }
    {
        Window {
            tick: 0,
            slots: HeldList::new(alloc),
            pending: ArrivalList::new(alloc),
            awaiting: AwaitedList::new(alloc),
        }
    }

    /// Empties the window, as at a start. It keeps all reserved memory.
    pub fn clear(&mut self)
        ensures volatile { self.new.volatile ≡ no_volatile }
        ensures rooms { KeepsRooms self.old self.new }
    {
        self.tick = 0;
        self.slots.clear();
        self.pending.clear();
        self.awaiting.clear();
    }

    /// Records that a frame was received on a lane at an offset. If its acknowledgement was sent already, this
    /// acknowledgement is due again. If not, it is pending from now on. It needs only the room that was reserved.
    pub fn received(&mut self, lane: Lane, offset: u64, name: KeyName)
        requires { 0 < self.old.received_spare }
        ensures volatile { self.new.volatile ≡ acknowledge self.old.volatile lane offset name }
        ensures received { self.old.received_spare ≤ self.new.received_spare + 1 }
        ensures others { (self.old.orders_spare ≤ self.new.orders_spare) × (self.old.ticks_spare ≤ self.new.ticks_spare) }
    {
        let arrival = Arrival { lane, offset, name };
        let answer = arrival.answer();
        if self.slots.has(&answer) {
            self.slots.change(&answer, &Edit::MarkDue);
        } else if !self.pending.has(&arrival.same()) {
            self.pending.push(arrival);
        }
    }

    /// Records that the acknowledgement of a fact was received on a lane: the fact's frames on the link's other lane
    /// are removed. It allocates nothing.
    pub fn acknowledged(&mut self, lane: Lane, name: KeyName)
        ensures volatile { self.new.volatile ≡ record self.old.volatile { window = cleared lane name self.old.volatile.window } }
        ensures rooms { KeepsRooms self.old self.new }
    {
        self.slots.remove(&Query::DataOf(reversed(lane), name));
    }

    /// Whether the window has a frame on this lane with the fact of this name.
    pub fn holds(&self, lane: Lane, name: KeyName) -> bool
        ensures { result ≡ list_any (λ e. lane_eq e.transmission.lane lane && is_data_of name e.transmission.item) self.now.volatile.window }
    {
        self.slots.has(&Query::DataOf(lane, name))
    }

    /// Whether the order to send the fact of this name awaits its placing; or, if `ack_of` is an offset, the order to
    /// acknowledge the frame that was received there.
    pub fn awaits(&self, lane: Lane, name: KeyName, ack_of: Option<u64>) -> bool
        ensures { result ≡ list_any (transmission_eq (record { lane = lane; item = item_of ack_of name; received_offset = ack_of })) self.now.volatile.awaiting }
    {
        self.awaiting.has(&Awaited::new(lane, name, ack_of))
    }

    /// Records that a plan was made. Its repeats are sent, its orders await their placings, and every other frame
    /// with a fact is one tick older. It needs only the room that was reserved.
    pub fn planned(&mut self, orders: &[Order], repeats: &[Repeat])
        requires room { length orders.now ≤ self.old.orders_spare }
        requires tick { 0 < self.old.ticks_spare }
        ensures volatile { self.new.volatile ≡ planned orders.now repeats.now self.old.volatile }
        ensures received { self.old.received_spare ≤ self.new.received_spare }
        ensures orders { self.old.orders_spare ≤ self.new.orders_spare + length orders.now }
        ensures ticks { self.old.ticks_spare ≤ self.new.ticks_spare + 1 }
    {
        self.tick += 1;
        self.slots.renew_all(repeats, self.tick);
        self.slots.ripen(self.tick);
        self.awaiting.push_all(orders);
    }

    // Adds the frame of an order's placing. The placing must be awaited, and its offset must be free.
    fn place_order(&mut self, placing: &Placing, wanted: &Awaited, is_acked: bool)
        requires wanted { transmission wanted.now ≡ transmission_of placing.now }
        requires awaited { list_any (transmission_eq (transmission_of placing.now)) self.old.volatile.awaiting ≡ true }
        requires free { list_any (stands_at placing.now) self.old.volatile.window ≡ false }
        ensures volatile { self.new.volatile ≡ placed is_acked self.old.volatile placing.now }
        ensures rooms { KeepsRooms self.old self.new }
    {
        self.awaiting.remove(wanted);
        self.pending
            .remove_sent(reversed(placing.lane), placing.ack_of);
        if !is_acked {
            self.slots.push(held_of(placing, self.tick));
        }
    }

    // Records the placing of an order.
    fn completed_order(&mut self, placing: &Placing, is_acked: bool)
        ensures volatile { self.new.volatile ≡ order_placed is_acked self.old.volatile placing.now }
        ensures rooms { KeepsRooms self.old self.new }
    {
        let wanted = Awaited::new(placing.lane, placing.name, placing.ack_of);
        if self.awaiting.has(&wanted) {
            if !self.slots.has(&Query::At(placing.lane, placing.offset)) {
                self.place_order(placing, &wanted, is_acked);
            }
        }
    }

    // Records the placing of a repeat.
    fn completed_repeat(&mut self, placing: &Placing)
        ensures volatile { self.new.volatile ≡ repeat_placed self.old.volatile placing.now }
        ensures rooms { KeepsRooms self.old self.new }
    {
        let query = Query::At(placing.lane, placing.offset);
        match placing.number {
            Some(number) => self.slots.change(&query, &Edit::Renumber(number)),
            None => self.slots.change(&query, &Edit::MarkDue),
        }
    }

    /// Records what became of an order or a repeat. The frame of an awaited order is added to the window, unless its
    /// fact was acknowledged meanwhile. A repeat gets its new number, or is due again if the wire refused it. It
    /// needs only the room that was reserved with the order.
    pub fn completed(&mut self, placing: &Placing, is_acked: bool)
        ensures volatile { (acked : List Name) → is_acked ≡ is_acked_item acked (item_of placing.now.ack_of placing.now.name) → self.new.volatile ≡ complete_one acked self.old.volatile placing.now }
        ensures rooms { KeepsRooms self.old self.new }
    {
        if placing.fresh {
            self.completed_order(placing, is_acked);
        } else {
            self.completed_repeat(placing);
        }
    }

    /// The first pending acknowledgement, at or after place `from`, of a frame that arrived on this lane.
    pub fn next_pending(&self, lane: Lane, from: usize) -> Option<Pending>
        ensures some { IfSome result (λ p. pending_from self.now lane from ≡ record { lane = lane; offset = p.offset; name = p.name } ∷ pending_from self.now lane (p.place + 1)) }
        ensures none { IfNone result (pending_from self.now lane from ≡ []) }
        ensures place { IfSome result (λ p. p.place < 2 ^ 63) }
    {
        self.pending.next(lane, from)
    }

    /// It does nothing. Its contract says that the pending acknowledgements of a lane are those from place 0 on.
    pub fn stands(&self)
        ensures { (lane : LaneValue) → filter (λ a. lane_eq a.lane lane) self.now.volatile.pending_acks ≡ pending_from self.now lane 0 }
    {
        // Reading a field shows the prover the window's invariant.
        let _holds = self.tick;
    }

    /// Reserves memory for `more` further acknowledgements. An `Err` changes nothing in the window.
    pub fn room_received(&mut self, more: u32) -> Result<(), Memory>
        ensures volatile { self.new.volatile ≡ self.old.volatile }
        ensures rooms { KeepsRooms self.old self.new }
        ensures ok { OnOk result (more ≤ self.new.received_spare) }
    {
        self.pending.grow(more as usize)
    }

    /// Reserves memory for a plan of `more` orders, and for their placings. An `Err` changes nothing in the window.
    pub fn room_orders(&mut self, more: u32) -> Result<(), Memory>
        ensures volatile { self.new.volatile ≡ self.old.volatile }
        ensures rooms { KeepsRooms self.old self.new }
        ensures orders { OnOk result (more ≤ self.new.orders_spare) }
        ensures tick { OnOk result (0 < self.new.ticks_spare) }
    {
        if self.tick == u64::MAX {
            return Err(Memory);
        }
        self.awaiting.grow(more as usize)?;
        let orders = more as usize + self.awaiting.count();
        self.slots.grow(orders)?;
        Ok(())
    }

    /// The frames on this lane that a plan sends again: those that are due once all frames are one tick older, in
    /// order of offset, at most 16.
    pub fn repeats(&self, lane: Lane) -> Result<Repeats, Memory>
        ensures { IfOk result (λ rs. rs ≡ map repeat_of (repeats_on (map age self.now.volatile.window) lane)) }
    {
        if self.tick == u64::MAX {
            return Err(Memory);
        }
        repeats_of(&self.slots, self.tick, &lane)
    }
}
