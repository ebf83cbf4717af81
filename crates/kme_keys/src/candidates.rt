// Tests of a group key, part by part.
ghost use Rattle.std.specs.Prelude.{◌≡◌, ◌*◌, ◌==◌, ◌&&◌, ◌||◌, not, length, slice_get, Some, None};
ghost use Rattle.std.specs.List.{list_any, list_all};
ghost use Rattle.net_model.specs.Table.{name_of, parts_of, was_handed, is_stored_about};
ghost use Rattle.net_model.specs.Groups.{same_slaves};
ghost use Rattle.end_store.specs.Pooled.{ends_view};
ghost use Rattle.kme_keys.specs.Candidates.{is_part_to, is_part_to_at, are_parts_to, is_candidate, first_pool, is_fact_confirmed, is_confirmed_at};

use crate::GroupPool;
use end_store::{EndStore, Pool};
use net_model::Fact;
use qkd_base::{KeyName, Octets, SaeNo};
use relay_core::{Known, fact_name};

// Whether the bytes have exactly `bits` bits.
fn is_sized(bytes: &Octets, bits: u16) -> bool
    ensures { result ≡ (8 * length bytes.now == bits) }
{
    bits % 8 == 0 && bytes.len() == (bits / 8) as usize
}

// Whether a fact is a part, for this slave, of a group key of the pool's master and size.
fn is_part_to(fact: &Fact, pool: &GroupPool, to: SaeNo) -> bool
    ensures { result ≡ is_part_to pool.now.master pool.now.bits to fact.now }
{
    match fact {
        Fact::Part {
            master,
            slave,
            bytes,
            ..
        } => *slave == to && *master == pool.master && is_sized(bytes, pool.bits),
        _ => false,
    }
}

// Whether the fact at a place is a part, for this slave, of a group key of the pool's master and size.
fn is_part_to_at(known: &Known, place: usize, pool: &GroupPool, to: SaeNo) -> bool
    ensures { result ≡ is_part_to_at pool.now.master pool.now.bits to (slice_get known.now.facts place) }
{
    match known.at(place) {
        None => false,
        Some(fact) => is_part_to(fact, pool, to),
    }
}

// Whether the parts of a group key are those for the pool's slaves, in order.
fn are_parts_to(known: &Known, pool: &GroupPool, key: KeyName) -> bool
    ensures { result ≡ are_parts_to pool.now.master pool.now.bits (parts_of known.now.facts key) pool.now.slaves.now }
{
    // The contract of `len` also bounds the places.
    let _holds = known.len();
    let mut from = 0;
    for slave in pool.slaves {
        match known.next_part(key, from) {
            None => return false,
            Some(place) => {
                if !is_part_to_at(known, place, pool, *slave) {
                    return false;
                }
                from = place + 1;
            }
        }
    }
    match known.next_part(key, from) {
        None => true,
        Some(_) => false,
    }
}

// Whether the fact at a place is confirmed.
fn is_confirmed_at(known: &Known, place: usize) -> bool
    ensures { result ≡ is_confirmed_at known.now.facts (slice_get known.now.facts place) }
{
    match known.at(place) {
        None => false,
        Some(fact) => known.is_confirmed(fact_name(fact)),
    }
}

// Whether all parts of a group key are confirmed.
fn are_confirmed(known: &Known, key: KeyName) -> bool
    ensures { result ≡ list_all (is_fact_confirmed known.now.facts) (parts_of known.now.facts key) }
{
    let mut from = 0;
    while from < known.len() {
        match known.next_part(key, from) {
            None => return true,
            Some(place) => {
                if !is_confirmed_at(known, place) {
                    return false;
                }
                from = place + 1;
            }
        }
    }
    true
}

/// Whether a group key of a pool waits for its master. If `ready` is set, all its parts must also be confirmed.
pub fn is_candidate(store: &EndStore, pool: &GroupPool, ready: bool, key: KeyName) -> bool
    ensures { result ≡ is_candidate (ends_view store.now) pool.now.master pool.now.slaves.now pool.now.bits ready key }
{
    let known = store.known();
    if !are_parts_to(known, pool, key) {
        return false;
    }
    if store.was_handed(key, pool.master) {
        return false;
    }
    if ready {
        are_confirmed(known, key)
    } else {
        true
    }
}

/// The pool of the parts for the first slave. `None` if the size isn't a multiple of 8 bits.
pub fn first_pool(pool: &GroupPool) -> Option<Pool>
    ensures { result ≡ first_pool pool.now.master pool.now.slaves.now pool.now.bits }
{
    match pool.slaves.first() {
        None => None,
        Some(slave) => {
            if pool.bits % 8 == 0 {
                Some(Pool {
                    master: pool.master,
                    slave: *slave,
                    octets: (pool.bits / 8) as u64,
                })
            } else {
                None
            }
        }
    }
}
