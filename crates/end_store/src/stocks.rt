// Cached numbers of keys by pool.
ghost use Rattle.std.specs.Prelude.{◌≡◌, None};
ghost use Rattle.end_store.specs.declared.pool.Pool.{Pool as PoolValue};
ghost use Rattle.end_store.specs.Stocked.{pool_key, stock_at, IsPut};

use crate::Pool;
use std::alloc::Global;
use std::collections::BTreeMap;
use std::marker::Model;

/// For some pools, a number of keys: either all keys that their masters haven't got, or only the ready ones. A pool
/// has no number if memory ran out when it was put.
#[derive(Drop)]
pub struct Stocks {
    numbers: BTreeMap<[u64; 3], u64>,
}

impl Model for Stocks {
    ghost use Rattle.std.specs.Prelude.{List, ℕ};

    ghost Value = { List (List ℕ × ℕ) };

    ghost view = { λ s. s.numbers.entries };
}

// The map key of a pool.
fn pool_key(pool: &Pool) -> [u64; 3]
    ensures { result ≡ pool_key pool.now }
{
    [
        pool.master.get() as u64,
        pool.slave.get() as u64,
        pool.octets,
    ]
}

impl Stocks {
    /// A map without numbers. It allocates nothing.
    pub fn new(alloc: Global) -> Self
        ensures { (pool : PoolValue) → stock_at result pool ≡ None }
    {
        Stocks {
            numbers: BTreeMap::new(alloc),
        }
    }

    /// The number of a pool, if the map has one.
    pub fn find(&self, pool: &Pool) -> Option<u64>
        ensures { result ≡ stock_at self.now pool.now }
    {
        self.numbers.get(&pool_key(pool)).copied()
    }

    /// Sets the number of a pool. If the pool has none and memory runs out, it still has none afterwards.
    pub fn put(&mut self, pool: &Pool, number: u64)
        ensures { IsPut self.old self.new pool.now number }
    {
        match self.numbers.insert(pool_key(pool), number) {
            Ok(_) => {}
            Err(_) => {}
        }
    }
}
