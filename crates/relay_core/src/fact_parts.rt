// Reads the parts of a fact, and wipes its bytes.
ghost use Rattle.std.specs.Prelude.{◌≡◌, ◌<◌, ◌^◌, max};
ghost use Rattle.qkd_base.specs.Name.{IsName};
ghost use Rattle.net_model.specs.Table.{name_of, route_of, part_of, is_secret, kind_of, zeros_for, without_bytes};
ghost use Rattle.net_model.specs.Decision.{count_if, group_count};

use net_model::Fact;
use qkd_base::{KeyName, NodeNo, Octets, Route};
use std::alloc::Global;
use std::mem;

/// A fact's name.
pub fn fact_name(fact: &Fact) -> KeyName
    ensures name { result ≡ name_of fact.now }
    ensures named { IsName result }
{
    let name = match fact {
        Fact::Key { name, .. } => *name,
        Fact::Chunk { name, .. } => *name,
        Fact::Stored { note, .. } => *note,
        Fact::Open { stream, .. } => *stream,
        Fact::Joined { note, .. } => *note,
        Fact::Part { name, .. } => *name,
    };
    // Calling `count` tells the proof that a name's count is less than 2^48.
    let _holds = name.count();
    name
}

/// The route along which a fact is sent.
pub fn fact_route(fact: &Fact) -> Route
    ensures { result ≡ route_of fact.now }
{
    match fact {
        Fact::Key { route, .. } => *route,
        Fact::Chunk { route, .. } => *route,
        Fact::Stored { route, .. } => *route,
        Fact::Open { route, .. } => *route,
        Fact::Joined { route, .. } => *route,
        Fact::Part { route, .. } => *route,
    }
}

/// Whether a fact has bytes that are handed out. Keys, chunks and parts have some.
pub fn is_secret(fact: &Fact) -> bool
    ensures { result ≡ is_secret fact.now }
{
    matches!(
        fact,
        Fact::Key { .. } | Fact::Chunk { .. } | Fact::Part { .. }
    )
}

/// The kind octet in which a fact is spelled.
pub fn kind_octet(fact: &Fact) -> u8
    ensures { result ≡ kind_of fact.now }
{
    match fact {
        Fact::Key { .. } => 1,
        Fact::Stored { .. } => 2,
        Fact::Open { .. } => 4,
        Fact::Joined { .. } => 5,
        Fact::Chunk { .. } => 6,
        Fact::Part { .. } => 7,
    }
}

// The count of a name if this node gave it, else 0.
fn count_here(name: KeyName, me: NodeNo) -> u64
    ensures count { result ≡ count_if me name }
    ensures bound { result < 2 ^ 48 }
{
    if name.node() == me { name.count() } else { 0 }
}

// The count of the group key to which a part belongs, if this node gave its name. Else 0.
fn group_count_here(fact: &Fact, me: NodeNo) -> u64
    ensures count { result ≡ group_count me (part_of fact.now) }
    ensures bound { result < 2 ^ 48 }
{
    match fact {
        Fact::Part { key, .. } => count_here(*key, me),
        _ => 0,
    }
}

// The greater of two counts.
fn greater(a: u64, b: u64) -> u64
    ensures { result ≡ max a b }
{
    if a < b { b } else { a }
}

/// The greatest count that this node has given to a name, after it learned one more fact. `last` is the greatest
/// count before.
pub fn later_count(last: u64, fact: &Fact, me: NodeNo) -> u64
    ensures bound { last < 2 ^ 48 → result < 2 ^ 48 }
    ensures count { result ≡ max last (max (count_if me (name_of fact.now)) (group_count me (part_of fact.now))) }
{
    let own = greater(count_here(fact_name(fact), me), group_count_here(fact, me));
    greater(last, own)
}

// Replaces all bytes with zeros.
fn zero(bytes: &mut Octets, alloc: Global)
    ensures { bytes.new ≡ zeros_for bytes.old }
{
    let mut octets = mem::replace(bytes, Octets::new(alloc)).into_vec();
    octets.fill(0);
    *bytes = Octets::from_vec(octets);
}

/// Overwrites a fact's bytes with zeros. It takes no memory.
pub fn wipe(fact: &mut Fact, alloc: Global)
    ensures { fact.new ≡ without_bytes fact.old }
{
    match fact {
        Fact::Key { bytes, .. } => zero(bytes, alloc),
        Fact::Chunk { bytes, .. } => zero(bytes, alloc),
        Fact::Part { bytes, .. } => zero(bytes, alloc),
        _ => {}
    }
}
