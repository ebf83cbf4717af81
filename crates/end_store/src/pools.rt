// The ready keys of a pool, in order of name (ETSI GS QKD 014, Get key and Get status).
ghost use Rattle.std.specs.Prelude.{◌≡◌, ◌*◌, ◌/◌, ◌%◌, ◌==◌, IfOk, length, take, min};
ghost use Rattle.net_model.specs.Pools.{pool as pool_names, unhanded};
ghost use Rattle.end_store.specs.Pooled.{ends_view, octets_pool, ready_names};

use crate::{EndStore, Line, Pool};
use qkd_base::{KeyName, Memory, NameKind, PoolNo};
use std::alloc::Global;

// The pool with its size in octets. `None` if the size isn't a multiple of 8 bits.
fn octets_pool(pool: &PoolNo) -> Option<Pool>
    ensures { result ≡ octets_pool pool.now }
{
    if pool.bits % 8 == 0 {
        Some(Pool {
            master: pool.master,
            slave: pool.slave,
            octets: (pool.bits / 8) as u64,
        })
    } else {
        None
    }
}

// The first ready keys of a pool in order of name, at most `number` of them.
fn first_ready(
    alloc: Global,
    store: &EndStore,
    pool: &Pool,
    number: usize,
) -> Result<Vec<KeyName>, Memory>
    ensures { IfOk result (λ names. names.items ≡ take number (ready_names store.now.known.me store.now.known.facts store.now.handed pool.now)) }
{
    let me = store.known().me();
    // The contract of `last_count` also says that no name of this node has a greater count.
    let _holds = store.known().last_count();
    let mut names = Vec::new(alloc);
    let mut after = 0;
    'names: while names.len() < number {
        match store.next(&Line::Keys(*pool), after + 1) {
            None => return Ok(names),
            Some(count) => {
                after = count;
                if let Some(name) = KeyName::new(me, NameKind::Key, count) {
                    names.push(name)?;
                }
            }
        }
    }
    Ok(names)
}

impl EndStore {
    /// The number of keys of a pool that their master hasn't got, whether they are ready or not, but at most
    /// `number`. It allocates nothing.
    pub fn unhanded_count(&self, pool: &PoolNo, number: usize) -> usize
        ensures { result ≡ min number (unhanded (ends_view self.now) pool.now.master pool.now.slave pool.now.bits) }
    {
        match octets_pool(pool) {
            None => 0,
            Some(keys) => self.stock(&keys, number),
        }
    }

    /// The number of keys of a pool that are ready and that their master hasn't got, but at most `number`. It
    /// allocates nothing.
    pub fn ready_count(&self, pool: &PoolNo, number: usize) -> usize
        ensures { result ≡ length (take number (pool_names (ends_view self.now) pool.now.master pool.now.slave pool.now.bits)) }
    {
        match octets_pool(pool) {
            None => 0,
            Some(keys) => self.ready(&keys, number),
        }
    }

    /// The first keys of a pool that are ready and that their master hasn't got, in order of name, at most `number`
    /// of them.
    pub fn ready_keys(
        &self,
        alloc: Global,
        pool: &PoolNo,
        number: usize,
    ) -> Result<Vec<KeyName>, Memory>
        ensures { IfOk result (λ names. names.items ≡ take number (pool_names (ends_view self.now) pool.now.master pool.now.slave pool.now.bits)) }
    {
        match octets_pool(pool) {
            None => Ok(Vec::new(alloc)),
            Some(keys) => first_ready(alloc, self, &keys, number),
        }
    }
}
