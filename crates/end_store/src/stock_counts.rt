// The cached numbers of waiting keys, updated when a fact is learned or a key is handed out.
ghost use Rattle.std.specs.Prelude.{ℕ, ◌≡◌, ◌<◌, ◌≤◌, ◌==◌, min, count_by, length, slice_get, Some, IfSome};
ghost use Rattle.net_model.specs.Table.{fact_at};
ghost use Rattle.relay_core.specs.Knowledge.{AreDistinct};
ghost use Rattle.end_store.specs.Waiting.{is_free_key, AreWaiting};
ghost use Rattle.end_store.specs.Stocked.{AreStocks, LowersBy, stock_at, all_but_last, last_of_facts, free_pool, key_pool};

use crate::index_entries::pool_of;
use crate::stocks::Stocks;
use crate::waiting_keys::next;
use crate::{Line, Marks, Pool};
use net_model::Fact;
use ordered_set::Entries;
use qkd_base::{KeyName, SaeNo};
use relay_core::Known;

/// The number of keys of a pool that their master hasn't got, but at most `number`. It counts them one by one.
pub fn count_stock(
    index: &Entries,
    listed: usize,
    known: &Known,
    handed: &Marks,
    pool: &Pool,
    number: usize,
) -> usize
    requires { AreWaiting known.now.me known.now.facts handed.now.pairs index.now listed }
    ensures { result ≡ min number (count_by (is_free_key handed.now.pairs pool.now) known.now.facts) }
{
    // The contract of `len` also bounds the number of places.
    let _holds = known.len();
    let mut count = 0;
    let mut from = 0;
    while count < number {
        match next(index, listed, known, handed, &Line::Stock(*pool), from) {
            None => return count,
            Some(place) => {
                count += 1;
                from = place + 1;
            }
        }
    }
    count
}

// The pool of a fact, if the fact is a key of this master.
fn key_pool(fact: &Fact, sae: SaeNo) -> Option<Pool>
    ensures { result ≡ key_pool sae (Some fact.now) }
{
    match fact {
        Fact::Key {
            master,
            slave,
            bytes,
            ..
        } => {
            if *master == sae {
                Some(pool_of(*master, *slave, bytes))
            } else {
                None
            }
        }
        _ => None,
    }
}

/// The pool of the fact at a place, if it is a key of this master.
pub fn pool_at(known: &Known, place: usize, sae: SaeNo) -> Option<Pool>
    ensures { result ≡ key_pool sae (slice_get known.now.facts place) }
{
    match known.at(place) {
        None => None,
        Some(fact) => key_pool(fact, sae),
    }
}

// The pool of a fact, if it is a key that its master hasn't got.
fn free_pool(fact: &Fact, handed: &Marks) -> Option<Pool>
    ensures { result ≡ free_pool handed.now.pairs (Some fact.now) }
{
    match fact {
        Fact::Key {
            name,
            master,
            slave,
            bytes,
            ..
        } => {
            if handed.has(*name, *master) {
                None
            } else {
                Some(pool_of(*master, *slave, bytes))
            }
        }
        _ => None,
    }
}

/// The pool of the fact of a name, if it is a key that its master hasn't got.
pub fn free_pool_named(known: &Known, handed: &Marks, name: KeyName) -> Option<Pool>
    ensures { result ≡ free_pool handed.now.pairs (fact_at known.now.facts name) }
{
    match known.fact(name) {
        None => None,
        Some(fact) => free_pool(fact, handed),
    }
}

// The pool of the fact that was learned last, if it is a key that its master hasn't got.
fn last_pool(known: &Known, handed: &Marks) -> Option<Pool>
    requires some { 0 < length known.now.facts }
    ensures { result ≡ free_pool handed.now.pairs (last_of_facts known.now.facts) }
{
    match known.at(known.len() - 1) {
        None => None,
        Some(fact) => free_pool(fact, handed),
    }
}

/// Updates the numbers of waiting keys for the fact that was learned last.
pub fn stock_last(
    stocks: &mut Stocks,
    index: &Entries,
    listed: usize,
    known: &Known,
    handed: &Marks,
)
    requires some { 0 < length known.now.facts }
    requires waiting { AreWaiting known.now.me known.now.facts handed.now.pairs index.now listed }
    requires stocks { AreStocks (all_but_last known.now.facts) handed.now.pairs stocks.old }
    ensures { AreStocks known.now.facts handed.now.pairs stocks.new }
{
    match last_pool(known, handed) {
        None => {}
        Some(pool) => match stocks.find(&pool) {
            Some(number) => {
                // The contract of `len` also bounds the number of facts.
                let _holds = known.len();
                stocks.put(&pool, number + 1);
            }
            None => {
                let places = known.len();
                let number = count_stock(index, listed, known, handed, &pool, places);
                stocks.put(&pool, number as u64);
            }
        },
    }
}

/// Lowers the cached number of a pool by one, if there is one.
pub fn lower(stocks: &mut Stocks, pool: &Option<Pool>)
    requires { IfSome pool.now (λ p. (n : ℕ) → stock_at stocks.old p ≡ Some n → 1 ≤ n) }
    ensures { LowersBy stocks.old stocks.new pool.now }
{
    match pool {
        None => {}
        Some(pool) => match stocks.find(pool) {
            None => {}
            Some(number) => stocks.put(pool, number - 1),
        },
    }
}
