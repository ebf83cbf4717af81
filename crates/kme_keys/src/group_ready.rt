// Group keys that wait for their master: counted, and listed in order of name.
ghost use Rattle.std.specs.Prelude.{◌≡◌, ◌≤◌, IfOk, IfSome, IfNone, length, take, Some, true, false};
ghost use Rattle.net_model.specs.Decision.{last_count};
ghost use Rattle.end_store.specs.Waiting.{own};
ghost use Rattle.end_store.specs.Pooled.{ends_view};
ghost use Rattle.kme_keys.specs.Candidates.{is_candidate, candidates, first_pool};

use crate::GroupPool;
use crate::candidates::{first_pool, is_candidate};
use end_store::{EndStore, Line, Pool};
use qkd_base::{KeyName, Memory, NameKind};
use std::alloc::Global;

// The name with this count, if it is that of a candidate: a group key that waits and, if `ready` is set, is ready.
fn candidate_at(store: &EndStore, pool: &GroupPool, ready: bool, count: u64) -> Option<KeyName>
    requires positive { 1 ≤ count }
    requires within { count ≤ last_count store.now.known.me store.now.known.facts }
    ensures some { IfSome result (λ name. (name ≡ own store.now.known.me count) × (is_candidate (ends_view store.now) pool.now.master pool.now.slaves.now pool.now.bits ready (own store.now.known.me count) ≡ true)) }
    ensures none { IfNone result (is_candidate (ends_view store.now) pool.now.master pool.now.slaves.now pool.now.bits ready (own store.now.known.me count) ≡ false) }
{
    let known = store.known();
    // The contract of `last_count` also says that each count from 1 to the last one makes a valid name.
    let _holds = known.last_count();
    match KeyName::new(known.me(), NameKind::Key, count) {
        None => None,
        Some(name) => {
            if is_candidate(store, pool, ready, name) {
                Some(name)
            } else {
                None
            }
        }
    }
}

// The number of candidates, but at most `number`. `parts` is the pool of the parts for their first slave.
fn count_in(store: &EndStore, pool: &GroupPool, parts: &Pool, ready: bool, number: usize) -> usize
    requires { Some parts.now ≡ first_pool pool.now.master pool.now.slaves.now pool.now.bits }
    ensures { result ≡ length (take number (candidates (ends_view store.now) pool.now.master pool.now.slaves.now pool.now.bits ready)) }
{
    // The contract of `last_count` also bounds the counts.
    let _holds = store.known().last_count();
    let mut found = 0;
    let mut after = 0;
    while found < number {
        match store.next(&Line::Parts(*parts), after + 1) {
            None => return found,
            Some(count) => {
                after = count;
                match candidate_at(store, pool, ready, count) {
                    None => {}
                    Some(_) => found += 1,
                }
            }
        }
    }
    found
}

// The first ready group keys in order of name, at most `number` of them.
fn first_in(
    alloc: Global,
    store: &EndStore,
    pool: &GroupPool,
    parts: &Pool,
    number: usize,
) -> Result<Vec<KeyName>, Memory>
    requires { Some parts.now ≡ first_pool pool.now.master pool.now.slaves.now pool.now.bits }
    ensures { IfOk result (λ names. names.items ≡ take number (candidates (ends_view store.now) pool.now.master pool.now.slaves.now pool.now.bits true)) }
{
    // The contract of `last_count` also bounds the counts.
    let _holds = store.known().last_count();
    let mut names = Vec::new(alloc);
    let mut after = 0;
    'names: while names.len() < number {
        match store.next(&Line::Parts(*parts), after + 1) {
            None => return Ok(names),
            Some(count) => {
                after = count;
                match candidate_at(store, pool, true, count) {
                    None => {}
                    Some(name) => names.push(name)?,
                }
            }
        }
    }
    Ok(names)
}

/// The number of group keys of a pool that wait for their master and, if `ready` is set, are ready, but at most
/// `number`. It allocates nothing.
pub fn group_count(store: &EndStore, pool: &GroupPool, ready: bool, number: usize) -> usize
    requires { 1 ≤ length pool.now.slaves.now }
    ensures { result ≡ length (take number (candidates (ends_view store.now) pool.now.master pool.now.slaves.now pool.now.bits ready)) }
{
    match first_pool(pool) {
        None => 0,
        Some(parts) => count_in(store, pool, &parts, ready, number),
    }
}

/// The first ready group keys of a pool in order of name, at most `number` of them.
pub fn ready_groups(
    alloc: Global,
    store: &EndStore,
    pool: &GroupPool,
    number: usize,
) -> Result<Vec<KeyName>, Memory>
    requires { 1 ≤ length pool.now.slaves.now }
    ensures { IfOk result (λ names. names.items ≡ take number (candidates (ends_view store.now) pool.now.master pool.now.slaves.now pool.now.bits true)) }
{
    match first_pool(pool) {
        None => Ok(Vec::new(alloc)),
        Some(parts) => first_in(alloc, store, pool, &parts, number),
    }
}
