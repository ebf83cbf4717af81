// What a node shows an operator of a key: its state at this node, and its bytes while the node needs them.
ghost use Rattle.std.specs.Prelude.{◌≡◌, ◌==◌, ◌&&◌, IfOk, Some, [], filter, find};
ghost use Rattle.std.specs.Option.{option_copied};
ghost use Rattle.net_model.specs.declared.held.Held.TheVariants.{Absent};
ghost use Rattle.net_model.specs.declared.reply.Reply.TheVariants.{Shown};
ghost use Rattle.net_model.specs.Table.{bytes_of, part_of, parts_of, is_part_of, target};
ghost use Rattle.net_model.specs.Groups.{is_group_ready};
ghost use Rattle.net_model.specs.Show.{needed_bytes, origin_state, target_state, shown_one, master_has, shown_at_target, shown_group, shown_part, shown, show, bytes_shown};
ghost use Rattle.end_store.specs.Pooled.{ends_view};
ghost use Rattle.kme_facts.specs.declared.part_test.PartTest.TheVariants.{NeededHere};
ghost use Rattle.kme_facts.specs.Parts.{passes, held_one};

use crate::needs::{has_it, needs, sae_at};
use crate::part_test::{PartTest, first_part};
use end_store::EndStore;
use net_model::{Fact, Held, Reply};
use qkd_base::{KeyName, Memory, Octets, Replica};
use relay_core::{fact_name, fact_route};
use std::alloc::Global;

// The bytes of a fact.
fn octets(alloc: Global, fact: &Fact) -> Result<Octets, Memory>
    ensures { IfOk result (λ bytes. bytes ≡ bytes_of fact.now) }
{
    match fact {
        Fact::Key { bytes, .. } => bytes.copy(),
        Fact::Chunk { bytes, .. } => bytes.copy(),
        Fact::Part { bytes, .. } => bytes.copy(),
        _ => Ok(Octets::new(alloc)),
    }
}

// The bytes of a fact if they are needed, or else none.
fn needed_bytes(alloc: Global, ends: &EndStore, fact: &Fact) -> Result<Octets, Memory>
    ensures { IfOk result (λ bytes. bytes ≡ needed_bytes (ends_view ends.now) fact.now) }
{
    if needs(ends, fact) {
        octets(alloc, fact)
    } else {
        Ok(Octets::new(alloc))
    }
}

fn origin_state(given: bool, ready: bool) -> Held
    ensures { result ≡ origin_state given ready }
{
    if given {
        Held::Given
    } else if ready {
        Held::Ready
    } else {
        Held::Made
    }
}

fn target_state(given: bool) -> Held
    ensures { result ≡ target_state given }
{
    if given { Held::Given } else { Held::Kept }
}

// The state of a key or chunk at this node.
fn held_one(ends: &EndStore, fact: &Fact) -> Held
    ensures { result ≡ held_one (ends_view ends.now) fact.now }
{
    let known = ends.known();
    let name = fact_name(fact);
    let route = fact_route(fact);
    if route.first() == known.me() {
        let given = has_it(ends, name, sae_at(known, true, fact));
        origin_state(given, known.is_confirmed(name))
    } else if route.last() == known.me() {
        target_state(has_it(ends, name, sae_at(known, false, fact)))
    } else {
        Held::Relayed
    }
}

// What is shown of a key or a chunk.
fn shown_one(alloc: Global, ends: &EndStore, fact: &Fact) -> Result<Reply, Memory>
    ensures { IfOk result (λ reply. reply ≡ shown_one (ends_view ends.now) fact.now) }
{
    let held = held_one(ends, fact);
    match needed_bytes(alloc, ends, fact) {
        Err(memory) => Err(memory),
        Ok(bytes) => Ok(Reply::Shown { held, bytes }),
    }
}

// What is shown of a part by its own name.
fn shown_part(alloc: Global, ends: &EndStore, fact: &Fact) -> Result<Reply, Memory>
    ensures { IfOk result (λ reply. reply ≡ shown_part (ends_view ends.now) fact.now) }
{
    let route = fact_route(fact);
    let me = ends.known().me();
    if route.first() == me || route.last() == me {
        return Ok(absent(alloc));
    }
    match needed_bytes(alloc, ends, fact) {
        Err(memory) => Err(memory),
        Ok(bytes) => Ok(Reply::Shown {
            held: Held::Relayed,
            bytes,
        }),
    }
}

// What is shown of a name that isn't known.
fn absent(alloc: Global) -> Reply
    ensures { result ≡ Shown Absent [] }
{
    Reply::Shown {
        held: Held::Absent,
        bytes: Octets::new(alloc),
    }
}

// The bytes of the first part of a group key that ends at this node and is needed.
fn part_bytes(alloc: Global, ends: &EndStore, key: KeyName) -> Result<Octets, Memory>
    ensures { IfOk result (λ bytes. bytes ≡ bytes_shown (ends_view ends.now) (find (λ f. is_part_of key f && passes (ends_view ends.now) NeededHere f) ends.now.known.facts)) }
{
    match first_part(ends, key, PartTest::NeededHere) {
        None => Ok(Octets::new(alloc)),
        Some(place) => match ends.known().at(place) {
            None => Ok(Octets::new(alloc)),
            Some(fact) => octets(alloc, fact),
        },
    }
}

// What is shown of a group key at the targets of its parts.
fn shown_at_target(alloc: Global, ends: &EndStore, key: KeyName) -> Result<Reply, Memory>
    ensures { IfOk result (λ reply. reply ≡ shown_at_target (ends_view ends.now) (filter (λ f. target f == ends.now.known.me) (parts_of ends.now.known.facts key))) }
{
    if first_part(ends, key, PartTest::Here).is_none() {
        return Ok(absent(alloc));
    }
    let held = target_state(first_part(ends, key, PartTest::Lacking).is_none());
    match part_bytes(alloc, ends, key) {
        Err(memory) => Err(memory),
        Ok(bytes) => Ok(Reply::Shown { held, bytes }),
    }
}

// Whether the master of a part has got the key.
fn master_has(ends: &EndStore, fact: &Fact) -> bool
    ensures { result ≡ master_has (ends_view ends.now) (part_of fact.now) }
{
    match fact {
        Fact::Part { key, master, .. } => ends.was_handed(*key, *master),
        _ => false,
    }
}

// Whether all parts of a group key are confirmed.
fn is_group_ready(ends: &EndStore, key: KeyName) -> bool
    ensures { result ≡ is_group_ready (ends_view ends.now) key }
{
    first_part(ends, key, PartTest::Unconfirmed).is_none()
}

// What is shown of a group key at its origin, by its first part.
fn shown_at_origin(
    alloc: Global,
    ends: &EndStore,
    key: KeyName,
    first: &Fact,
) -> Result<Reply, Memory>
    ensures { IfOk result (λ reply. reply ≡ Shown (origin_state (master_has (ends_view ends.now) (part_of first.now)) (is_group_ready (ends_view ends.now) key)) (needed_bytes (ends_view ends.now) first.now)) }
{
    let held = origin_state(master_has(ends, first), is_group_ready(ends, key));
    match needed_bytes(alloc, ends, first) {
        Err(memory) => Err(memory),
        Ok(bytes) => Ok(Reply::Shown { held, bytes }),
    }
}

// The first part of a group key.
fn part_in(ends: &EndStore, key: KeyName) -> Option<&Fact>
    ensures { option_copied result ≡ find (is_part_of key) ends.now.known.facts }
{
    match ends.known().next_part(key, 0) {
        None => None,
        Some(place) => ends.known().at(place),
    }
}

// What is shown of a group key, by its parts.
fn shown_group(alloc: Global, ends: &EndStore, key: KeyName) -> Result<Reply, Memory>
    ensures { IfOk result (λ reply. reply ≡ shown_group (ends_view ends.now) key (parts_of ends.now.known.facts key)) }
{
    match part_in(ends, key) {
        None => Ok(absent(alloc)),
        Some(first) => {
            if fact_route(first).first() == ends.known().me() {
                shown_at_origin(alloc, ends, key, first)
            } else {
                shown_at_target(alloc, ends, key)
            }
        }
    }
}

// What is shown of the name of a fact.
fn shown_fact(alloc: Global, ends: &EndStore, name: KeyName, fact: &Fact) -> Result<Reply, Memory>
    ensures { IfOk result (λ reply. reply ≡ shown (ends_view ends.now) name (Some fact.now)) }
{
    match fact {
        Fact::Key { .. } => shown_one(alloc, ends, fact),
        Fact::Chunk { .. } => shown_one(alloc, ends, fact),
        Fact::Part { .. } => shown_part(alloc, ends, fact),
        _ => shown_group(alloc, ends, name),
    }
}

/// What a node shows an operator of a name.
#[tactic(auto, unfolding(net_model::specs::Show::show))]
pub fn show(alloc: Global, ends: &EndStore, name: KeyName) -> Result<Reply, Memory>
    ensures { IfOk result (λ reply. reply ≡ show (ends_view ends.now) name) }
{
    match ends.known().fact(name) {
        None => shown_group(alloc, ends, name),
        Some(fact) => shown_fact(alloc, ends, name, fact),
    }
}
