// The orders of a plan, as far as the bytes of each lane suffice.
ghost use Rattle.std.specs.Prelude.{◌≡◌, ◌+◌, ◌<◌, ◌≤◌, ◌^◌, ◌∷◌, ◌++◌, [], List, false, true, not, nat_lt, OnOk, IfOk, IfSome, Ok, Some, length};
ghost use Rattle.qkd_base.specs.Name.{Name};
ghost use Rattle.net_model.specs.declared.fact.Fact.{Fact as FactValue};
ghost use Rattle.net_model.specs.Facts.{fact_len};
ghost use Rattle.net_model.specs.Table.{fact_at};
ghost use Rattle.net_model.specs.Item.{AckItem};
ghost use Rattle.kme_relay.specs.Wanted.{data_on};

use net_model::{Fact, Order, Orders, Payload, ShortOf, Shorts};
use qkd_base::{KeyName, Lane, Memory, Replica, Route};
use std::alloc::Global;

/// The orders of a plan so far, and the lanes that have too few bytes. For the current lane, also the bytes used and
/// whether an order had too few bytes.
#[derive(Debug, Drop)]
pub struct Draft {
    pub orders: Orders,
    pub shorts: Shorts,
    pub used: u64,
    pub is_full: bool,
}

// How many bytes of a lane a payload needs: its fixed octets, its route, its own bytes, and 8. `None` on overflow.
fn need_of(fixed: u64, route: &Route, bytes: usize) -> Option<u64>
    ensures { IfSome result (λ need. need ≡ fixed + length route.now + bytes + 8) }
{
    let octets = fixed.checked_add(route.as_slice().len() as u64)?;
    octets.checked_add(bytes as u64)?.checked_add(8)
}

// How many bytes of a lane a fact needs: one for each octet, and 8 that mask the tag. `None` on overflow.
fn fact_need(fact: &Fact) -> Option<u64>
    ensures { IfSome result (λ need. need ≡ fact_len fact.now + 8) }
{
    match fact {
        Fact::Key { route, bytes, .. } => need_of(24, route, bytes.len()),
        Fact::Chunk { route, bytes, .. } => need_of(40, route, bytes.len()),
        Fact::Stored { route, .. } => need_of(34, route, 0),
        Fact::Open { route, .. } => need_of(24, route, 0),
        Fact::Joined { route, .. } => need_of(34, route, 0),
        Fact::Part { route, bytes, .. } => need_of(40, route, bytes.len()),
    }
}

impl Draft {
    ghost use Rattle.kme_relay.specs.Drafts.{with_one};

    /// The empty draft. It allocates nothing.
    pub fn new(alloc: Global) -> Self
        ensures { (result.orders ≡ []) × (result.shorts ≡ []) }
    {
        Draft {
            orders: Orders::new(alloc),
            shorts: Shorts::new(alloc),
            used: 0,
            is_full: false,
        }
    }

    /// Goes on to the next lane, of which `used` bytes are used.
    pub fn begin(&mut self, used: u64)
        ensures { self.new ≡ record self.old { used = used; is_full = false } }
    {
        self.used = used;
        self.is_full = false;
    }

    // Whether the lane has `need` more bytes. If it hasn't, the lane is listed as short.
    fn has_room(&mut self, lane: &Lane, received: u64, need: u64) -> Result<bool, Memory>
        ensures fits { IfOk result (λ fits. fits ≡ not (nat_lt received (self.old.used + need))) }
        ensures yes { result ≡ Ok true → (self.new ≡ self.old) × (self.old.used + need ≤ received) }
        ensures no { result ≡ Ok false → self.new ≡ record self.old { shorts = self.old.shorts ++ record { lane = lane.now; used = self.old.used; need = need; received = received } ∷ []; is_full = true } }
    {
        let used = self.used;
        match used.checked_add(need) {
            None => return Err(Memory),
            Some(end) => {
                if end <= received {
                    return Ok(true);
                }
            }
        }
        self.shorts.push(ShortOf {
            lane: *lane,
            used,
            need,
            received,
        })?;
        self.is_full = true;
        Ok(false)
    }

    // Appends an order.
    fn push(
        &mut self,
        lane: &Lane,
        ack_of: Option<u64>,
        payload: Payload,
        need: u64,
    ) -> Result<(), Memory>
        requires { self.old.used + need < 2 ^ 64 }
        ensures { OnOk result (self.new ≡ record self.old { orders = self.old.orders ++ record { lane = lane.now; offset = self.old.used; ack_of = ack_of; payload = payload } ∷ []; used = self.old.used + need }) }
    {
        self.orders.push(Order {
            lane: *lane,
            offset: self.used,
            ack_of,
            payload,
        })?;
        self.used += need;
        Ok(())
    }

    /// Adds the order to acknowledge the frame that was received at an offset.
    pub fn add_ack(
        &mut self,
        lane: &Lane,
        received: u64,
        offset: u64,
        name: KeyName,
    ) -> Result<(), Memory>
        requires { self.old.is_full ≡ false }
        ensures { OnOk result ((facts : List FactValue) → self.new ≡ with_one facts lane.now received self.old (record { lane = lane.now; item = AckItem name; received_offset = Some offset })) }
    {
        match self.has_room(lane, received, 25) {
            Err(memory) => Err(memory),
            Ok(false) => Ok(()),
            Ok(true) => self.push(lane, Some(offset), Payload::Ack(name), 25),
        }
    }

    // Adds the order to send a fact that needs this many bytes.
    fn add_fact_of(
        &mut self,
        lane: &Lane,
        received: u64,
        fact: &Fact,
        need: u64,
    ) -> Result<(), Memory>
        requires open { self.old.is_full ≡ false }
        requires need { need ≡ fact_len fact.now + 8 }
        ensures { OnOk result ((facts : List FactValue) (n : Name) → fact_at facts n ≡ Some fact.now → self.new ≡ with_one facts lane.now received self.old (data_on lane.now n)) }
    {
        match self.has_room(lane, received, need) {
            Err(memory) => Err(memory),
            Ok(false) => Ok(()),
            Ok(true) => match fact.copy() {
                Err(memory) => Err(memory),
                Ok(same) => self.push(lane, None, Payload::Data(same), need),
            },
        }
    }

    /// Adds the order to send a fact.
    pub fn add_fact(&mut self, lane: &Lane, received: u64, fact: &Fact) -> Result<(), Memory>
        requires { self.old.is_full ≡ false }
        ensures { OnOk result ((facts : List FactValue) (n : Name) → fact_at facts n ≡ Some fact.now → self.new ≡ with_one facts lane.now received self.old (data_on lane.now n)) }
    {
        match fact_need(fact) {
            None => Err(Memory),
            Some(need) => self.add_fact_of(lane, received, fact, need),
        }
    }
}
