// Puts facts into the index. Where memory runs out, the index covers only the first facts, and the others are
// searched one by one.
ghost use Rattle.std.specs.Prelude.{◌≡◌, ◌+◌, ◌<◌, ◌≤◌, ◌||◌, ℕ, List, false, Some, IfSome, IfNone, IsTrue, OnOk, max, length, slice_get};
ghost use Rattle.std.specs.Str.{bytes_eq};
ghost use Rattle.qkd_base.specs.Name.{has};
ghost use Rattle.net_model.specs.Table.{name_of};
ghost use Rattle.ordered_set.specs.Entries.{has_entry};
ghost use Rattle.relay_core.specs.Firsts.{IsFirstFrom, IsNoneFrom};
ghost use Rattle.relay_core.specs.Index.{belongs, belongs_at, entry_of, IsIndex, second_of, third_of, owed_group, creditor};
ghost use Rattle.relay_core.specs.Listed.{Grows, GrowsBy, IsListed, IsPartlyListed};

use crate::Group;
use crate::fact_parts::{fact_name, fact_route};
use crate::group::has_name;
use net_model::Fact;
use ordered_set::Entries;
use qkd_base::{KeyName, NodeNo};

// The group that a fact joins because of the name or stream that it refers to, if any.
fn second_group(fact: &Fact) -> Option<Group>
    ensures { result ≡ second_of fact.now }
{
    match fact {
        Fact::Stored { about, .. } => Some(Group::StoredAbout(*about)),
        Fact::Joined { about, .. } => Some(Group::JoinedAbout(*about)),
        Fact::Part { key, .. } => Some(Group::PartsOf(*key)),
        Fact::Chunk { stream, index, .. } => Some(Group::ChunksAt(*stream, *index)),
        _ => None,
    }
}

// The group of all chunks of a stream, for a chunk of that stream.
fn third_group(fact: &Fact) -> Option<Group>
    ensures { result ≡ third_of fact.now }
{
    match fact {
        Fact::Chunk { stream, .. } => Some(Group::ChunksOf(*stream)),
        _ => None,
    }
}

// The group of the facts owed to a neighbour, if there is a neighbour.
fn owed_group(to: Option<NodeNo>) -> Option<Group>
    ensures { result ≡ owed_group to }
{
    match to {
        None => None,
        Some(to) => Some(Group::OwedTo(to)),
    }
}

// Enters the fact at a place into a group. Answers false, and changes nothing, where memory runs out.
fn add(index: &mut Entries, group: Group, place: usize) -> bool
    ensures done { IsTrue result → Grows index.old index.new group place }
    ensures not_done { result ≡ false → index.new ≡ index.old }
{
    match index.insert(group.entry(place)) {
        Ok(()) => true,
        Err(_) => false,
    }
}

// Enters the fact at a place into a group, if there is a group. Answers false, and changes nothing, where memory runs
// out.
fn add_some(index: &mut Entries, group: Option<Group>, place: usize) -> bool
    ensures done { IsTrue result → GrowsBy index.old index.new group place }
    ensures not_done { result ≡ false → index.new ≡ index.old }
{
    match group {
        None => true,
        Some(group) => add(index, group, place),
    }
}

// Enters the fact at a place into each of its groups. Answers false where memory runs out; some of the entries may
// then be missing.
fn list_fact(index: &mut Entries, fact: &Fact, to: Option<NodeNo>, place: usize) -> bool
    ensures done { IsTrue result → IsListed index.old index.new fact.now to place }
    ensures not_done { result ≡ false → IsPartlyListed index.old index.new fact.now to place }
{
    if !add(index, Group::Named(fact_name(fact)), place) {
        return false;
    }
    if !add_some(index, second_group(fact), place) {
        return false;
    }
    if !add_some(index, third_group(fact), place) {
        return false;
    }
    add_some(index, owed_group(to), place)
}

// The first place of a fact of a group, searched from `from` on without the index.
fn walk(facts: &[Fact], me: NodeNo, acked: &[KeyName], group: &Group, from: usize) -> Option<usize>
    ensures first { IfSome result (λ place. IsFirstFrom (belongs me acked.now group.now) facts.now from place) }
    ensures none { IfNone result (IsNoneFrom (belongs me acked.now group.now) facts.now from) }
{
    for place in from..facts.len() {
        if group.contains(&facts[place], me, acked) {
            return Some(place);
        }
    }
    None
}

// The later of two places.
fn later(a: usize, b: usize) -> usize
    ensures { result ≡ max a b }
{
    if a < b { b } else { a }
}

/// The first place of a fact of a group, searched from `from` on. The first `count` facts are looked up in the index,
/// the others one by one.
pub fn next_in(
    index: &Entries,
    count: usize,
    facts: &[Fact],
    me: NodeNo,
    acked: &[KeyName],
    group: &Group,
    from: usize,
) -> Option<usize>
    requires { IsIndex me acked.now facts.now index.now count }
    ensures first { IfSome result (λ place. IsFirstFrom (belongs me acked.now group.now) facts.now from place) }
    ensures none { IfNone result (IsNoneFrom (belongs me acked.now group.now) facts.now from) }
{
    if facts.len() <= from {
        return None;
    }
    match index.next(group.entry(from)) {
        None => walk(facts, me, acked, group, later(from, count)),
        Some(place) => {
            if place < count as u64 {
                Some(place as usize)
            } else {
                walk(facts, me, acked, group, later(from, count))
            }
        }
    }
}

/// Whether the fact at a place belongs to a group. The first `count` facts are looked up in the index.
pub fn is_in(
    index: &Entries,
    count: usize,
    facts: &[Fact],
    me: NodeNo,
    acked: &[KeyName],
    group: &Group,
    place: usize,
) -> bool
    requires { IsIndex me acked.now facts.now index.now count }
    ensures { result ≡ belongs_at me acked.now group.now (slice_get facts.now place) }
{
    if place < count {
        return index.has(group.entry(place));
    }
    match facts.get(place) {
        None => false,
        Some(fact) => group.contains(fact, me, acked),
    }
}

// The neighbour to whom a fact is owed, if there is one.
fn creditor(fact: &Fact, me: NodeNo, acked: &[KeyName]) -> Option<NodeNo>
    ensures { result ≡ creditor me acked.now fact.now }
{
    if has_name(acked, fact_name(fact)) {
        None
    } else {
        fact_route(fact).next_after(me)
    }
}

// Enters the first fact that isn't in the index yet. The fact is owed to `to`. Answers how many facts are in the
// index afterwards.
fn list_next(
    index: &mut Entries,
    count: usize,
    facts: &[Fact],
    me: NodeNo,
    acked: &[KeyName],
    to: Option<NodeNo>,
) -> usize
    requires within { count < length facts.now }
    requires index { IsIndex me acked.now facts.now index.old count }
    requires owed { IfSome (slice_get facts.now count) (λ f. to ≡ creditor me acked.now f) }
    ensures index { IsIndex me acked.now facts.now index.new result }
    ensures more { count ≤ result }
{
    if list_fact(index, &facts[count], to, count) {
        count + 1
    } else {
        count
    }
}

// Enters all facts that aren't in the index yet, until memory runs out. Answers how many facts are in the index
// afterwards.
fn list_rest(
    index: &mut Entries,
    count: usize,
    facts: &[Fact],
    me: NodeNo,
    acked: &[KeyName],
) -> usize
    requires { IsIndex me acked.now facts.now index.old count }
    ensures { IsIndex me acked.now facts.now index.new result }
{
    let mut listed = count;
    while listed < facts.len() {
        let next = list_next(
            index,
            listed,
            facts,
            me,
            acked,
            creditor(&facts[listed], me, acked),
        );
        if next == listed {
            return listed;
        }
        listed = next;
    }
    listed
}

/// Enters the newest fact, which is owed to `to`, and any earlier ones that are missing, until memory runs out.
/// Answers how many facts are in the index afterwards.
pub fn list_new(
    index: &mut Entries,
    count: usize,
    facts: &[Fact],
    me: NodeNo,
    acked: &[KeyName],
    to: Option<NodeNo>,
) -> usize
    requires index { IsIndex me acked.now facts.now index.old count }
    requires owed { count + 1 ≡ length facts.now → IfSome (slice_get facts.now count) (λ f. to ≡ creditor me acked.now f) }
    ensures { IsIndex me acked.now facts.now index.new result }
{
    if facts.len() == count + 1 {
        list_next(index, count, facts, me, acked, to)
    } else {
        list_rest(index, count, facts, me, acked)
    }
}
