// Finds what waits for its master. Each hit of the index is checked against the facts, and facts that aren't listed
// are scanned.
ghost use Rattle.std.specs.Prelude.{ℕ, ◌≡◌, ◌+◌, ◌<◌, ◌≤◌, ◌==◌, ◌&&◌, ◌^◌, true, false, Some, IsTrue, IfSome, IfNone, max, length, slice_get};
ghost use Rattle.std.specs.List.{list_any};
ghost use Rattle.net_model.specs.Table.{was_handed};
ghost use Rattle.net_model.specs.Decision.{last_count};
ghost use Rattle.end_store.specs.declared.pool.Line.TheVariants.{Stock, Keys, Parts};
ghost use Rattle.end_store.specs.Waiting.{is_in, is_free_key, is_part_in, is_part_in_at, is_waiting, AreWaiting, IsNextWaiting, IsLastWaiting};

use crate::{Line, Marks, Pool};
use net_model::Fact;
use ordered_set::Entries;
use qkd_base::{KeyName, NameKind, SaeNo};
use relay_core::Known;

// Whether a key with this master, slave and number of octets belongs to a pool.
fn is_in(pool: &Pool, master: SaeNo, slave: SaeNo, octets: usize) -> bool
    ensures { result ≡ ((master == pool.now.master) && (slave == pool.now.slave) && (octets == pool.now.octets)) }
{
    master == pool.master && slave == pool.slave && octets as u64 == pool.octets
}

// Whether a fact is a key of a pool that its master hasn't got.
fn is_free_key(fact: &Fact, handed: &Marks, pool: &Pool) -> bool
    ensures { result ≡ is_free_key handed.now.pairs pool.now fact.now }
{
    match fact {
        Fact::Key {
            name,
            master,
            slave,
            bytes,
            ..
        } => is_in(pool, *master, *slave, bytes.len()) && !handed.has(*name, *master),
        _ => false,
    }
}

// Whether a fact is a part of this group key, in this pool.
fn is_part_in(fact: &Fact, of: KeyName, pool: &Pool) -> bool
    ensures { result ≡ is_part_in pool.now of fact.now }
{
    match fact {
        Fact::Part {
            key,
            master,
            slave,
            bytes,
            ..
        } => *key == of && is_in(pool, *master, *slave, bytes.len()),
        _ => false,
    }
}

// Whether the fact at a place is a part of this group key, in this pool.
fn is_part_at(known: &Known, place: usize, key: KeyName, pool: &Pool) -> bool
    ensures { result ≡ is_part_in_at pool.now key (slice_get known.now.facts place) }
{
    match known.at(place) {
        None => false,
        Some(fact) => is_part_in(fact, key, pool),
    }
}

// Whether this group key has a part in a pool.
fn has_part(known: &Known, key: KeyName, pool: &Pool) -> bool
    ensures { result ≡ list_any (is_part_in pool.now key) known.now.facts }
{
    let mut from = 0;
    while from < known.len() {
        match known.next_part(key, from) {
            None => return false,
            Some(place) => {
                if is_part_at(known, place, key, pool) {
                    return true;
                }
                from = place + 1;
            }
        }
    }
    false
}

// Whether the fact at a place is a key of a pool that its master hasn't got.
fn is_stock_waiting(known: &Known, handed: &Marks, pool: &Pool, place: u64) -> bool
    ensures { result ≡ is_waiting known.now.me known.now.facts handed.now.pairs (Stock pool.now) place }
{
    match known.at(place as usize) {
        None => false,
        Some(fact) => is_free_key(fact, handed, pool),
    }
}

// Whether the key that this node named with this count is in a pool, is confirmed, and waits for its master.
fn is_key_waiting(known: &Known, handed: &Marks, pool: &Pool, count: u64) -> bool
    requires { 1 ≤ count }
    ensures { result ≡ is_waiting known.now.me known.now.facts handed.now.pairs (Keys pool.now) count }
{
    // The contract of `last_count` also says that the names of known facts are valid.
    let _holds = known.last_count();
    match KeyName::new(known.me(), NameKind::Key, count) {
        None => false,
        Some(name) => match known.fact(name) {
            None => false,
            Some(fact) => is_free_key(fact, handed, pool) && known.is_confirmed(name),
        },
    }
}

// Whether the group key that this node named with this count has a part in a pool, and waits for its master.
fn is_group_waiting(known: &Known, handed: &Marks, pool: &Pool, count: u64) -> bool
    requires { 1 ≤ count }
    ensures { result ≡ is_waiting known.now.me known.now.facts handed.now.pairs (Parts pool.now) count }
{
    // The contract of `last_count` also says that no name of this node has a greater count.
    let _holds = known.last_count();
    match KeyName::new(known.me(), NameKind::Key, count) {
        None => false,
        Some(name) => has_part(known, name, pool) && !handed.has(name, pool.master),
    }
}

// Whether something waits at a count of a list.
fn is_waiting(known: &Known, handed: &Marks, line: &Line, count: u64) -> bool
    ensures { result ≡ is_waiting known.now.me known.now.facts handed.now.pairs line.now count }
{
    match line {
        Line::Stock(pool) => is_stock_waiting(known, handed, pool, count),
        Line::Keys(pool) => 1 <= count && is_key_waiting(known, handed, pool, count),
        Line::Parts(pool) => 1 <= count && is_group_waiting(known, handed, pool, count),
    }
}

// The first count of a list at which something waits, found by a scan of the facts.
fn walk(known: &Known, handed: &Marks, line: &Line, from: u64, end: u64) -> Option<u64>
    requires { (d : ℕ) → is_waiting known.now.me known.now.facts handed.now.pairs line.now d ≡ true → d < end }
    ensures next { IfSome result (λ count. IsNextWaiting known.now.me known.now.facts handed.now.pairs line.now from count) }
    ensures last { IfNone result (IsLastWaiting known.now.me known.now.facts handed.now.pairs line.now from) }
{
    for count in from..end {
        if is_waiting(known, handed, line, count) {
            return Some(count);
        }
    }
    None
}

// The first count of a list at which something waits, found in the index. All facts must be listed.
fn next_listed(
    index: &Entries,
    known: &Known,
    handed: &Marks,
    line: &Line,
    from: u64,
    end: u64,
) -> Option<u64>
    requires waiting { AreWaiting known.now.me known.now.facts handed.now.pairs index.now (length known.now.facts) }
    requires end { (d : ℕ) → is_waiting known.now.me known.now.facts handed.now.pairs line.now d ≡ true → d < end }
    ensures next { IfSome result (λ count. IsNextWaiting known.now.me known.now.facts handed.now.pairs line.now from count) }
    ensures last { IfNone result (IsLastWaiting known.now.me known.now.facts handed.now.pairs line.now from) }
{
    let mut start = from;
    while start < end {
        match index.next(line.entry(start)) {
            None => return None,
            Some(count) => {
                if end <= count {
                    return None;
                }
                if is_waiting(known, handed, line, count) {
                    return Some(count);
                }
                start = count + 1;
            }
        }
    }
    None
}

// The greater of two counts.
fn later(a: u64, b: u64) -> u64
    ensures { result ≡ max a b }
{
    if a < b { b } else { a }
}

/// The first count of a list, not below `from`, at which something waits. The first `listed` facts are in the index.
pub fn next(
    index: &Entries,
    listed: usize,
    known: &Known,
    handed: &Marks,
    line: &Line,
    from: u64,
) -> Option<u64>
    requires { AreWaiting known.now.me known.now.facts handed.now.pairs index.now listed }
    ensures next { IfSome result (λ count. IsNextWaiting known.now.me known.now.facts handed.now.pairs line.now from count) }
    ensures last { IfNone result (IsLastWaiting known.now.me known.now.facts handed.now.pairs line.now from) }
{
    let end = later(known.len() as u64, known.last_count() + 1);
    if listed < known.len() {
        walk(known, handed, line, from, end)
    } else {
        next_listed(index, known, handed, line, from, end)
    }
}
