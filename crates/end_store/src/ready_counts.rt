// The cached numbers of ready keys, updated when a fact is learned or a key is handed out.
ghost use Rattle.std.specs.Prelude.{◌≡◌, ◌<◌, ◌&&◌, min, length, Some};
ghost use Rattle.end_store.specs.Waiting.{AreWaiting};
ghost use Rattle.end_store.specs.Pooled.{ready_names};
ghost use Rattle.end_store.specs.Stocked.{all_but_last, last_of_facts};
ghost use Rattle.end_store.specs.Readied.{AreReady, readied_pool, ready_pool};

use crate::index_entries::{is_own, pool_of};
use crate::stock_counts::free_pool_named;
use crate::stocks::Stocks;
use crate::waiting_keys::next;
use crate::{Line, Marks, Pool};
use net_model::Fact;
use ordered_set::Entries;
use qkd_base::KeyName;
use relay_core::Known;

/// The number of ready keys of a pool, but at most `number`. It counts them one by one.
pub fn count_ready(
    index: &Entries,
    listed: usize,
    known: &Known,
    handed: &Marks,
    pool: &Pool,
    number: usize,
) -> usize
    requires { AreWaiting known.now.me known.now.facts handed.now.pairs index.now listed }
    ensures { result ≡ min number (length (ready_names known.now.me known.now.facts handed.now.pairs pool.now)) }
{
    // The contract of `last_count` also says that no name of this node has a greater count.
    let _holds = known.last_count();
    let mut ready = 0;
    let mut after = 0;
    while ready < number {
        match next(index, listed, known, handed, &Line::Keys(*pool), after + 1) {
            None => return ready,
            Some(count) => {
                after = count;
                ready += 1;
            }
        }
    }
    ready
}

/// The pool in which a key becomes ready when this fact is learned. The fact's name must be unknown so far.
pub fn readied_pool(known: &Known, handed: &Marks, fact: &Fact) -> Option<Pool>
    ensures { result ≡ readied_pool known.now.me known.now.facts handed.now.pairs (Some fact.now) }
{
    match fact {
        Fact::Key {
            name,
            master,
            slave,
            bytes,
            ..
        } => {
            if is_own(*name, known.me())
                && known.is_confirmed(*name)
                && !handed.has(*name, *master)
            {
                Some(pool_of(*master, *slave, bytes))
            } else {
                None
            }
        }
        Fact::Stored { about, .. } => {
            if is_own(*about, known.me()) && !known.is_confirmed(*about) {
                free_pool_named(known, handed, *about)
            } else {
                None
            }
        }
        _ => None,
    }
}

/// This pool, if the key of this name is ready.
pub fn ready_pool(known: &Known, name: KeyName, pool: &Option<Pool>) -> Option<Pool>
    ensures { result ≡ ready_pool known.now.me known.now.facts name pool.now }
{
    match pool {
        None => None,
        Some(pool) => {
            if is_own(name, known.me()) && known.is_confirmed(name) {
                Some(*pool)
            } else {
                None
            }
        }
    }
}

/// Updates the numbers of ready keys for the fact that was learned last.
pub fn ready_last(
    readies: &mut Stocks,
    index: &Entries,
    listed: usize,
    known: &Known,
    handed: &Marks,
    readied: &Option<Pool>,
)
    requires some { 0 < length known.now.facts }
    requires waiting { AreWaiting known.now.me known.now.facts handed.now.pairs index.now listed }
    requires readied { readied.now ≡ readied_pool known.now.me (all_but_last known.now.facts) handed.now.pairs (last_of_facts known.now.facts) }
    requires readies { AreReady known.now.me (all_but_last known.now.facts) handed.now.pairs readies.old }
    ensures { AreReady known.now.me known.now.facts handed.now.pairs readies.new }
{
    // These contracts bound the counts of this node's names and say that all names differ.
    let last = known.last_count();
    let _holds = known.len();
    match readied {
        None => {}
        Some(pool) => match readies.find(pool) {
            Some(number) => readies.put(pool, number + 1),
            None => {
                let number = count_ready(index, listed, known, handed, pool, last as usize);
                readies.put(pool, number as u64);
            }
        },
    }
}
