// The store of a node that is an end of keys.
ghost use Rattle.std.specs.Prelude.{◌≡◌, ◌+◌, ◌<◌, ◌≤◌, [], IfSome, IfNone, IfOk, IsOk, OnOk, OnErr, not, min, count_by, length};
ghost use Rattle.net_model.specs.Table.{name_of, has_fact, learned, was_handed};
ghost use Rattle.net_model.specs.Fold.{marked};
ghost use Rattle.relay_core.specs.Knowledge.{acked_with, forgotten};
ghost use Rattle.end_store.specs.Waiting.{IsNextWaiting, IsLastWaiting, is_free_key};
ghost use Rattle.end_store.specs.Pooled.{ready_names};

use crate::index_entries::{list_more, release, release_parts};
use crate::ready_counts::{count_ready, readied_pool, ready_last, ready_pool};
use crate::stock_counts::{count_stock, lower, pool_at, stock_last};
use crate::stocks::Stocks;
use crate::waiting_keys::next;
use crate::{Line, Marks, Pool};
use net_model::Fact;
use ordered_set::Entries;
use qkd_base::{KeyName, Memory, NodeNo, SaeNo};
use relay_core::{Group, Known};
use std::alloc::Global;
use std::marker::Model;

/// What a node knows, and which application has got which key. The node is an end of a key if it is the first or the
/// last node of its route (ETSI GS QKD 014).
#[derive(Drop)]
pub struct EndStore {
    known: Known,
    handed: Marks,
    waiting: Entries,
    // The number of leading facts that are listed in `waiting`.
    listed: usize,
    // For some pools, the number of keys that their master hasn't got.
    stocks: Stocks,
    // For some pools, the number of ready keys that their master hasn't got.
    readies: Stocks,
}

impl Model for EndStore {
    ghost use Rattle.end_store.specs.Waiting.{Ends};
    ghost use Rattle.end_store.specs.Store.{IsStore};

    ghost Value = { Ends };

    ghost view = { λ e. record { known = e.known; handed = e.handed.pairs; handed_spare = e.handed.spare } };

    ghost invariant = { λ e. IsStore e.known.me e.known.facts e.handed.pairs e.waiting e.listed e.stocks e.readies };
}

impl EndStore {
    /// The store of a node that knows nothing. It allocates nothing.
    pub fn new(alloc: Global, me: NodeNo) -> Self
        ensures known { (result.known.me ≡ me) × (result.known.facts ≡ []) × (result.known.acked ≡ []) }
        ensures handed { result.handed ≡ [] }
    {
        EndStore {
            known: Known::new(alloc, me),
            handed: Marks::new(alloc),
            waiting: Entries::new(alloc),
            listed: 0,
            stocks: Stocks::new(alloc),
            readies: Stocks::new(alloc),
        }
    }

    /// The facts that this node knows, with their acknowledgements.
    pub fn known(&self) -> &Known
        ensures { result.now ≡ self.now.known }
    {
        &self.known
    }

    /// The pairs of a key and an application that has got it, in the order in which the keys were handed out.
    pub fn handed(&self) -> &[(KeyName, SaeNo)]
        ensures { result.now ≡ self.now.handed }
    {
        self.handed.as_slice()
    }

    /// Whether an application has got a key.
    pub fn was_handed(&self, name: KeyName, sae: SaeNo) -> bool
        ensures { result ≡ was_handed self.now.handed name sae }
    {
        self.handed.has(name, sae)
    }

    /// The first count of a list, not below `from`, at which something waits for its master.
    pub fn next(&self, line: &Line, from: u64) -> Option<u64>
        ensures next { IfSome result (λ count. IsNextWaiting self.now.known.me self.now.known.facts self.now.handed line.now from count) }
        ensures last { IfNone result (IsLastWaiting self.now.known.me self.now.known.facts self.now.handed line.now from) }
    {
        next(
            &self.waiting,
            self.listed,
            &self.known,
            &self.handed,
            line,
            from,
        )
    }

    // The number of keys of a pool that their master hasn't got, but at most `number`.
    pub(crate) fn stock(&self, pool: &Pool, number: usize) -> usize
        ensures { result ≡ min number (count_by (is_free_key self.now.handed pool.now) self.now.known.facts) }
    {
        match self.stocks.find(pool) {
            None => count_stock(
                &self.waiting,
                self.listed,
                &self.known,
                &self.handed,
                pool,
                number,
            ),
            Some(stock) => {
                if stock < number as u64 {
                    stock as usize
                } else {
                    number
                }
            }
        }
    }

    // The number of ready keys of a pool that their master hasn't got, but at most `number`.
    pub(crate) fn ready(&self, pool: &Pool, number: usize) -> usize
        ensures { result ≡ min number (length (ready_names self.now.known.me self.now.known.facts self.now.handed pool.now)) }
    {
        match self.readies.find(pool) {
            None => count_ready(
                &self.waiting,
                self.listed,
                &self.known,
                &self.handed,
                pool,
                number,
            ),
            Some(ready) => {
                if ready < number as u64 {
                    ready as usize
                } else {
                    number
                }
            }
        }
    }

    /// Reserves memory for `more` further facts. An `Err` changes nothing.
    pub fn room(&mut self, more: u32) -> Result<(), Memory>
        ensures kept { (self.new.known.me ≡ self.old.known.me) × (self.new.known.facts ≡ self.old.known.facts) × (self.new.known.acked ≡ self.old.known.acked)
            × (self.new.known.acked_spare ≡ self.old.known.acked_spare) × (self.new.handed ≡ self.old.handed) × (self.new.handed_spare ≡ self.old.handed_spare) }
        ensures ok { OnOk result (more ≤ self.new.known.facts_spare) }
        ensures err { OnErr result (self.new ≡ self.old) }
    {
        self.known.room(more)?;
        Ok(())
    }

    /// Reserves memory for `more` further acknowledgements. An `Err` changes nothing.
    pub fn room_acked(&mut self, more: u32) -> Result<(), Memory>
        ensures kept { (self.new.known.me ≡ self.old.known.me) × (self.new.known.facts ≡ self.old.known.facts) × (self.new.known.acked ≡ self.old.known.acked)
            × (self.new.known.facts_spare ≡ self.old.known.facts_spare) × (self.new.handed ≡ self.old.handed) × (self.new.handed_spare ≡ self.old.handed_spare) }
        ensures ok { OnOk result (more ≤ self.new.known.acked_spare) }
        ensures err { OnErr result (self.new ≡ self.old) }
    {
        self.known.room_acked(more)?;
        Ok(())
    }

    /// Reserves memory for `more` further pairs of a key and an application. An `Err` changes nothing.
    pub fn room_handed(&mut self, more: u32) -> Result<(), Memory>
        ensures kept { (self.new.known ≡ self.old.known) × (self.new.handed ≡ self.old.handed) }
        ensures ok { OnOk result (more ≤ self.new.handed_spare) }
        ensures err { OnErr result (self.new ≡ self.old) }
    {
        self.handed.room(more)?;
        Ok(())
    }

    /// Learns a fact, unless its name is known, and returns whether it was new. If room was reserved for it, it can't
    /// fail. An `Err` changes nothing.
    pub fn learn(&mut self, fact: Fact) -> Result<bool, Memory>
        ensures new { IfOk result (λ new. new ≡ not (has_fact self.old.known.facts (name_of fact))) }
        ensures facts { OnOk result (self.new.known.facts ≡ learned self.old.known.facts fact) }
        ensures kept { (self.new.known.me ≡ self.old.known.me) × (self.new.known.acked ≡ self.old.known.acked) × (self.new.known.acked_spare ≡ self.old.known.acked_spare)
            × (self.new.handed ≡ self.old.handed) × (self.new.handed_spare ≡ self.old.handed_spare) }
        ensures spare { OnOk result (self.old.known.facts_spare ≤ self.new.known.facts_spare + 1) }
        ensures room { 0 < self.old.known.facts_spare → IsOk result }
        ensures err { OnErr result (self.new ≡ self.old) }
    {
        let readied = readied_pool(&self.known, &self.handed, &fact);
        let new = self.known.learn(fact)?;
        self.listed = list_more(&mut self.waiting, &self.known, &self.handed, self.listed);
        if new {
            stock_last(
                &mut self.stocks,
                &self.waiting,
                self.listed,
                &self.known,
                &self.handed,
            );
            ready_last(
                &mut self.readies,
                &self.waiting,
                self.listed,
                &self.known,
                &self.handed,
                &readied,
            );
        }
        Ok(new)
    }

    /// Records that the next node of its route has acknowledged the fact of this name, if the fact is owed to that
    /// node. It needs only the room that was reserved.
    pub fn acknowledge(&mut self, name: KeyName)
        requires room { 0 < self.old.known.acked_spare }
        ensures acked { self.new.known.acked ≡ acked_with self.old.known.me self.old.known.acked self.old.known.facts name }
        ensures kept { (self.new.known.me ≡ self.old.known.me) × (self.new.known.facts ≡ self.old.known.facts) × (self.new.known.facts_spare ≡ self.old.known.facts_spare)
            × (self.new.handed ≡ self.old.handed) × (self.new.handed_spare ≡ self.old.handed_spare) }
        ensures spare { self.old.known.acked_spare ≤ self.new.known.acked_spare + 1 }
    {
        self.known.acknowledge(name);
    }

    /// Records that an application has got a key, unless that is recorded already. It needs only the room that was
    /// reserved.
    pub fn mark(&mut self, name: KeyName, sae: SaeNo)
        requires room { 0 < self.old.handed_spare }
        ensures handed { self.new.handed ≡ marked self.old.handed name sae }
        ensures known { self.new.known ≡ self.old.known }
        ensures spare { self.old.handed_spare ≤ self.new.handed_spare + 1 }
    {
        let before = self.handed.as_slice().len();
        self.handed.mark(name, sae);
        if self.handed.as_slice().len() == before {
            return;
        }
        // The contract of `len` also says that all names differ.
        let _holds = self.known.len();
        // The name is that of a fact, or else that of a group key.
        match self.known.next(&Group::Named(name), 0) {
            None => release_parts(
                &mut self.waiting,
                &self.known,
                &self.handed,
                self.listed,
                name,
            ),
            Some(place) => {
                let pool = pool_at(&self.known, place, sae);
                let ready = ready_pool(&self.known, name, &pool);
                lower(&mut self.stocks, &pool);
                lower(&mut self.readies, &ready);
                release(
                    &mut self.waiting,
                    &self.known,
                    &self.handed,
                    self.listed,
                    place,
                );
            }
        }
    }

    /// Overwrites the bytes of the fact at a place with zeros, if it has bytes. It allocates nothing.
    pub fn forget(&mut self, place: usize)
        ensures facts { self.new.known.facts ≡ forgotten self.old.known.facts place }
        ensures kept { (self.new.known.me ≡ self.old.known.me) × (self.new.known.acked ≡ self.old.known.acked) × (self.new.known.facts_spare ≡ self.old.known.facts_spare)
            × (self.new.known.acked_spare ≡ self.old.known.acked_spare) × (self.new.handed ≡ self.old.handed) × (self.new.handed_spare ≡ self.old.handed_spare) }
    {
        self.known.forget(place);
    }
}
