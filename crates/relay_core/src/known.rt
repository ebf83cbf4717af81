// The table of all facts that a node knows.
ghost use Rattle.std.specs.Prelude.{◌≡◌, ◌+◌, ◌<◌, ◌^◌, ◌≤◌, ◌&&◌, ℕ, true, [], ◌∷◌, ◌++◌, OnOk, OnErr, IfOk, IsOk, is_some, IfSome, IfNone, not, false, length, slice_get, find, Some, ◌-◌, vec_capacity, vec_len};
ghost use Rattle.std.specs.Option.{option_copied};
ghost use Rattle.std.specs.List.{list_any};
ghost use Rattle.net_model.specs.Table.{name_of, fact_at, has_fact, learned, is_stored_about, is_joined_about, is_part_of};
ghost use Rattle.net_model.specs.Streams.{is_chunk_at, is_chunk_of};
ghost use Rattle.net_model.specs.Decision.{last_count};
ghost use Rattle.qkd_base.specs.Name.{Name, IsName, name_eq, has};
ghost use Rattle.net_model.specs.Relay.{is_some_of};
ghost use Rattle.relay_core.specs.Firsts.{IsFirstFrom, IsNoneFrom};
ghost use Rattle.relay_core.specs.Index.{belongs, belongs_at, is_owed_to, creditor, creditor_of};
ghost use Rattle.relay_core.specs.declared.group.Group.TheVariants.{OwedTo};
ghost use Rattle.relay_core.specs.Knowledge.{place_of, AreDistinct, owes_fact, owed_names, acked_with, forgotten};

use crate::Group;
use crate::fact_parts::{fact_name, fact_route, later_count, wipe};
use crate::index_entries::{is_in, list_new, next_in};
use net_model::Fact;
use ordered_set::Entries;
use qkd_base::{KeyName, Memory, NodeNo};
use std::alloc::Global;
use std::marker::Model;

/// What a node knows (the trusted repeater of SECOQC). Its facts are in the order in which it learned them. The names
/// of acknowledged facts are in the order in which the acknowledgements came. It is always the next node on the route
/// that acknowledges a fact.
#[derive(Drop)]
pub struct Known {
    me: NodeNo,
    facts: Vec<Fact>,
    acked: Vec<KeyName>,
    index: Entries,
    // The number of facts in the index. They are the first ones of the list.
    listed: usize,
    last: u64,
}

impl Model for Known {
    ghost use Rattle.std.specs.Prelude.{◌-◌, vec_capacity, vec_len};
    ghost use Rattle.relay_core.specs.Knowledge.{Knowledge, IsKnown};

    ghost Value = { Knowledge };

    ghost view = { λ k. record { me = k.me; facts = k.facts.items; acked = k.acked.items; facts_spare = vec_capacity k.facts - vec_len k.facts; acked_spare = vec_capacity k.acked - vec_len k.acked } };

    ghost invariant = { λ k. IsKnown k.me k.facts.items k.acked.items k.index k.listed k.last };
}

// The fact at a place, if there is one.
fn fact_in(facts: &[Fact], place: usize) -> Option<&Fact>
    ensures { option_copied result ≡ slice_get facts.now place }
{
    facts.get(place)
}

// Overwrites the bytes of the fact at a place with zeros.
fn wipe_at(facts: &mut Vec<Fact>, place: usize)
    ensures facts { facts.new.items ≡ forgotten facts.old.items place }
    ensures spare { vec_capacity facts.new - vec_len facts.new ≡ vec_capacity facts.old - vec_len facts.old }
{
    let alloc = *facts.allocator();
    if let Some(fact) = facts.get_mut(place) {
        wipe(fact, alloc);
    }
}

impl Known {
    /// Makes the table of a node that knows nothing. It takes no memory.
    pub fn new(alloc: Global, me: NodeNo) -> Self
        ensures me { result.me ≡ me }
        ensures facts { result.facts ≡ [] }
        ensures acked { result.acked ≡ [] }
    {
        Known {
            me,
            facts: Vec::new(alloc),
            acked: Vec::new(alloc),
            index: Entries::new(alloc),
            listed: 0,
            last: 0,
        }
    }

    /// The number of the node.
    pub fn me(&self) -> NodeNo
        ensures { result ≡ self.now.me }
    {
        self.me
    }

    /// How many facts are known.
    pub fn len(&self) -> usize
        ensures length { result ≡ length self.now.facts }

        // No two facts have the same name.
        ensures distinct { AreDistinct self.now.facts }
    {
        self.facts.len()
    }

    /// The fact at a place.
    pub fn at(&self, place: usize) -> Option<&Fact>
        ensures { option_copied result ≡ slice_get self.now.facts place }
    {
        fact_in(&self.facts, place)
    }

    /// The names of acknowledged facts, in the order of the acknowledgements.
    pub fn acked(&self) -> &[KeyName]
        ensures { result.now ≡ self.now.acked }
    {
        &self.acked
    }

    /// The greatest count that this node has given to a name, or 0 if it gave none.
    pub fn last_count(&self) -> u64
        ensures count { result ≡ last_count self.now.me self.now.facts }

        // Counts are less than 2^48, and each known fact has a valid name.
        ensures bound { result < 2 ^ 48 }
        ensures named { (n : Name) → has_fact self.now.facts n ≡ true → IsName n }
    {
        self.last
    }

    /// The first place of a fact of a group, searched from `from` on.
    pub fn next(&self, group: &Group, from: usize) -> Option<usize>
        ensures first { IfSome result (λ place. IsFirstFrom (belongs self.now.me self.now.acked group.now) self.now.facts from place) }
        ensures none { IfNone result (IsNoneFrom (belongs self.now.me self.now.acked group.now) self.now.facts from) }
    {
        next_in(
            &self.index,
            self.listed,
            &self.facts,
            self.me,
            &self.acked,
            group,
            from,
        )
    }

    /// The place of the fact with a name.
    pub fn place(&self, name: KeyName) -> Option<usize>
        ensures { result ≡ place_of self.now.facts name }
    {
        match self.next(&Group::Named(name), 0) {
            Some(place) => Some(place),
            None => None,
        }
    }

    // The first fact of a group.
    fn first(&self, group: &Group) -> Option<&Fact>
        ensures { option_copied result ≡ find (belongs self.now.me self.now.acked group.now) self.now.facts }
    {
        match self.next(group, 0) {
            Some(place) => fact_in(&self.facts, place),
            None => None,
        }
    }

    // Whether a group has a fact.
    fn has(&self, group: &Group) -> bool
        ensures { result ≡ list_any (belongs self.now.me self.now.acked group.now) self.now.facts }
    {
        match self.next(group, 0) {
            Some(_) => true,
            None => false,
        }
    }

    /// The fact with a name.
    pub fn fact(&self, name: KeyName) -> Option<&Fact>
        ensures { option_copied result ≡ fact_at self.now.facts name }
    {
        self.first(&Group::Named(name))
    }

    /// Whether the fact with a name is known.
    pub fn knows(&self, name: KeyName) -> bool
        ensures { result ≡ has_fact self.now.facts name }
    {
        self.fact(name).is_some()
    }

    /// The chunk of a stream at an index (ETSI GS QKD 004, GET_KEY).
    pub fn chunk(&self, stream: KeyName, index: u32) -> Option<&Fact>
        ensures { option_copied result ≡ find (is_chunk_at stream index) self.now.facts }
    {
        self.first(&Group::ChunksAt(stream, index))
    }

    /// Whether a Stored note about a key, chunk or part is known. At the origin this means that the target has
    /// confirmed it.
    pub fn is_confirmed(&self, name: KeyName) -> bool
        ensures { result ≡ list_any (is_stored_about name) self.now.facts }
    {
        self.has(&Group::StoredAbout(name))
    }

    /// Whether a Joined note about a stream is known.
    pub fn has_joined(&self, stream: KeyName) -> bool
        ensures { result ≡ list_any (is_joined_about stream) self.now.facts }
    {
        self.has(&Group::JoinedAbout(stream))
    }

    /// The first place of a part of a group key, searched from `from` on.
    pub fn next_part(&self, key: KeyName, from: usize) -> Option<usize>
        ensures first { IfSome result (λ place. IsFirstFrom (is_part_of key) self.now.facts from place) }
        ensures none { IfNone result (IsNoneFrom (is_part_of key) self.now.facts from) }
    {
        self.next(&Group::PartsOf(key), from)
    }

    /// The first place of a chunk of a stream, searched from `from` on.
    pub fn next_chunk(&self, stream: KeyName, from: usize) -> Option<usize>
        ensures first { IfSome result (λ place. IsFirstFrom (is_chunk_of stream) self.now.facts from place) }
        ensures none { IfNone result (IsNoneFrom (is_chunk_of stream) self.now.facts from) }
    {
        self.next(&Group::ChunksOf(stream), from)
    }

    /// The first place of a fact that is owed to a neighbour, searched from `from` on. A fact is owed to the next
    /// node on its route until that node acknowledges it.
    pub fn next_owed(&self, to: NodeNo, from: usize) -> Option<usize>
        ensures first { IfSome result (λ place. IsFirstFrom (is_owed_to self.now.me self.now.acked to) self.now.facts from place) }
        ensures none { IfNone result (IsNoneFrom (is_owed_to self.now.me self.now.acked to) self.now.facts from) }
    {
        self.next(&Group::OwedTo(to), from)
    }

    // Whether the fact at a place is owed to this neighbour.
    fn owes_at(&self, to: NodeNo, place: usize) -> bool
        ensures { result ≡ belongs_at self.now.me self.now.acked (OwedTo to) (slice_get self.now.facts place) }
    {
        is_in(
            &self.index,
            self.listed,
            &self.facts,
            self.me,
            &self.acked,
            &Group::OwedTo(to),
            place,
        )
    }

    // The neighbour to whom the fact at a place is owed.
    fn creditor_at(&self, place: usize) -> Option<NodeNo>
        ensures { result ≡ creditor_of self.now.me self.now.acked (slice_get self.now.facts place) }
    {
        match self.at(place) {
            None => None,
            Some(fact) => match fact_route(fact).next_after(self.me) {
                None => None,
                Some(to) => {
                    if self.owes_at(to, place) {
                        Some(to)
                    } else {
                        None
                    }
                }
            },
        }
    }

    /// Whether the next node on the route has acknowledged the fact with a name.
    pub fn is_acknowledged(&self, name: KeyName) -> bool
        ensures { result ≡ has self.now.acked name }
    {
        // Reading `acked` tells the proof that every acknowledged fact is known.
        let _holds = &self.acked;
        match self.next(&Group::Named(name), 0) {
            None => false,
            Some(place) => self.is_acknowledged_at(place),
        }
    }

    // Whether the next node on the route has acknowledged the fact at a place.
    fn is_acknowledged_at(&self, place: usize) -> bool
        ensures { IfSome (slice_get self.now.facts place) (λ f. result ≡ has self.now.acked (name_of f)) }
    {
        match self.at(place) {
            None => false,
            Some(fact) => match fact_route(fact).next_after(self.me) {
                None => false,
                Some(to) => !self.owes_at(to, place),
            },
        }
    }

    /// The neighbour to whom the fact with a name is owed, if there is one.
    pub fn creditor(&self, name: KeyName) -> Option<NodeNo>
        ensures creditor { result ≡ creditor_of self.now.me self.now.acked (fact_at self.now.facts name) }
        ensures owes { owes_fact self.now.me self.now.acked self.now.facts name ≡ is_some result }
        ensures owed { (to : ℕ) → has (owed_names self.now.me self.now.acked self.now.facts to) name ≡ is_some_of result to }
    {
        // Calling `len` tells the proof that no two facts have the same name.
        let _holds = self.len();
        match self.next(&Group::Named(name), 0) {
            None => None,
            Some(place) => self.creditor_at(place),
        }
    }

    /// Reserves memory for `more` further facts. An `Err` changes nothing.
    pub fn room(&mut self, more: u32) -> Result<(), Memory>
        ensures kept { (self.new.me ≡ self.old.me) × (self.new.facts ≡ self.old.facts) × (self.new.acked ≡ self.old.acked) × (self.new.acked_spare ≡ self.old.acked_spare) }
        ensures ok { OnOk result (more ≤ self.new.facts_spare) }
        ensures err { OnErr result (self.new ≡ self.old) }
    {
        self.facts.reserve(more as usize)?;
        Ok(())
    }

    /// Reserves memory for `more` further acknowledgements. An `Err` changes nothing.
    pub fn room_acked(&mut self, more: u32) -> Result<(), Memory>
        ensures kept { (self.new.me ≡ self.old.me) × (self.new.facts ≡ self.old.facts) × (self.new.acked ≡ self.old.acked) × (self.new.facts_spare ≡ self.old.facts_spare) }
        ensures ok { OnOk result (more ≤ self.new.acked_spare) }
        ensures err { OnErr result (self.new ≡ self.old) }
    {
        self.acked.reserve(more as usize)?;
        Ok(())
    }

    /// Learns a fact if its name is new, and answers whether it was new. It takes no memory where room was reserved.
    /// An `Err` changes nothing.
    pub fn learn(&mut self, fact: Fact) -> Result<bool, Memory>
        ensures new { IfOk result (λ new. new ≡ not (has_fact self.old.facts (name_of fact))) }
        ensures facts { OnOk result (self.new.facts ≡ learned self.old.facts fact) }
        ensures kept { (self.new.me ≡ self.old.me) × (self.new.acked ≡ self.old.acked) × (self.new.acked_spare ≡ self.old.acked_spare) }
        ensures spare { OnOk result (self.old.facts_spare ≤ self.new.facts_spare + 1) }
        ensures room { 0 < self.old.facts_spare → IsOk result }
        ensures err { OnErr result (self.new ≡ self.old) }
    {
        if self.knows(fact_name(&fact)) {
            return Ok(false);
        }
        self.facts.reserve(1)?;
        self.push(fact);
        Ok(true)
    }

    // Appends a fact whose name is new.
    fn push(&mut self, fact: Fact)
        requires room { 0 < self.old.facts_spare }
        requires new { has_fact self.old.facts (name_of fact) ≡ false }
        ensures facts { self.new.facts ≡ learned self.old.facts fact }
        ensures kept { (self.new.me ≡ self.old.me) × (self.new.acked ≡ self.old.acked) × (self.new.acked_spare ≡ self.old.acked_spare) }
        ensures spare { self.old.facts_spare ≡ self.new.facts_spare + 1 }
    {
        // Calling `fact_name` tells the proof that the fact's name is valid.
        let _holds = fact_name(&fact);
        self.last = later_count(self.last, &fact, self.me);
        let to = fact_route(&fact).next_after(self.me);
        self.facts.push_reserved(fact);
        self.listed = list_new(
            &mut self.index,
            self.listed,
            &self.facts,
            self.me,
            &self.acked,
            to,
        );
    }

    // Records an acknowledgement of the fact with this name. `place` is the first place of the name.
    fn acknowledge_at(&mut self, name: KeyName, place: usize)
        requires room { 0 < self.old.acked_spare }
        requires first { IsFirstFrom (λ f. name_eq (name_of f) name) self.old.facts 0 place }
        ensures acked { self.new.acked ≡ acked_with self.old.me self.old.acked self.old.facts name }
        ensures kept { (self.new.me ≡ self.old.me) × (self.new.facts ≡ self.old.facts) × (self.new.facts_spare ≡ self.old.facts_spare) }
        ensures spare { self.old.acked_spare ≤ self.new.acked_spare + 1 }
    {
        match self.creditor_at(place) {
            None => {}
            Some(to) => {
                self.acked.push_reserved(name);
                self.index.remove(Group::OwedTo(to).entry(place));
            }
        }
    }

    /// Records that the next node on the route has acknowledged the fact with a name. A fact that isn't owed changes
    /// nothing. It takes no memory.
    pub fn acknowledge(&mut self, name: KeyName)
        requires room { 0 < self.old.acked_spare }
        ensures acked { self.new.acked ≡ acked_with self.old.me self.old.acked self.old.facts name }
        ensures kept { (self.new.me ≡ self.old.me) × (self.new.facts ≡ self.old.facts) × (self.new.facts_spare ≡ self.old.facts_spare) }
        ensures spare { self.old.acked_spare ≤ self.new.acked_spare + 1 }
    {
        // Calling `len` tells the proof that no two facts have the same name.
        let _holds = self.len();
        match self.next(&Group::Named(name), 0) {
            None => {}
            Some(place) => self.acknowledge_at(name, place),
        }
    }

    /// Overwrites the bytes of the fact at a place with zeros, if the fact has bytes. It takes no memory.
    pub fn forget(&mut self, place: usize)
        ensures facts { self.new.facts ≡ forgotten self.old.facts place }
        ensures kept { (self.new.me ≡ self.old.me) × (self.new.acked ≡ self.old.acked) × (self.new.facts_spare ≡ self.old.facts_spare) × (self.new.acked_spare ≡ self.old.acked_spare) }
    {
        wipe_at(&mut self.facts, place);
    }
}
