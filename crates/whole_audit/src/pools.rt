// Rule 13, as to numbers: how many keys of pools were made, and handed to their masters.
ghost use Rattle.std.specs.Prelude.{◌≡◌, List, [], ◌∷◌, if◌then◌else◌, OnOk};
ghost use Rattle.run_types.specs.declared.scenario.Scenario.{Scenario as Lines};
ghost use Rattle.run_types.specs.declared.item.NumberedItem.{NumberedItem as Told};
ghost use Rattle.item_audit.specs.declared.stocks.Pool.{Pool as PoolValue};
ghost use Rattle.item_audit.specs.Stocks.{pool_eq};
ghost use Rattle.whole_audit.specs.Pools.{no_stock, stock_with, stock_of, change, is_covered, is_in_stock};
ghost use Rattle.whole_audit.specs.Kept.{pool_key, stock_at, AreStocked};

use item_audit::{Change, Pool, bounded};
use qkd_base::Memory;
use std::alloc::Global;
use std::collections::BTreeMap;

/// How many keys of a pool may have been made, and how many were handed to their master.
#[derive(Clone, Copy)]
pub struct Stock {
    made: u64,
    handed: u64,
}

/// The stocks of all pools.
#[derive(Drop)]
pub struct Pools {
    stocks: BTreeMap<[u64; 3], Stock>,
}

fn no_stock() -> Stock
    ensures { result ≡ no_stock }
{
    Stock { made: 0, handed: 0 }
}

// The stock behind a change.
fn stock_with(change: &Change, stock: &Stock) -> Stock
    ensures { result ≡ stock_with change.now stock.now }
{
    Stock {
        made: bounded(u128::from(stock.made) + u128::from(change.made)),
        handed: bounded(u128::from(stock.handed) + u128::from(change.handed)),
    }
}

// Whether so many more keys may be handed out.
fn is_covered(handed: u64, stock: &Stock) -> bool
    ensures { result ≡ is_covered handed stock.now }
{
    u128::from(stock.handed) + u128::from(handed) <= u128::from(stock.made)
}

// The key of a pool in a table.
fn pool_key(pool: &Pool) -> [u64; 3]
    ensures { result ≡ pool_key pool.now }
{
    [pool.master, pool.slave, pool.bits]
}

impl Pools {
    /// Before the first item. The call allocates nothing.
    pub fn new(alloc: Global) -> Self
        ensures { (s : Lines) → AreStocked s result [] }
    {
        Pools {
            stocks: BTreeMap::new(alloc),
        }
    }

    // The stock of a pool.
    fn at(&self, pool: &Pool) -> Stock
        ensures { result ≡ stock_at self.now pool.now }
    {
        match self.stocks.get(&pool_key(pool)) {
            Some(stock) => *stock,
            None => no_stock(),
        }
    }

    // Puts the stock of a pool in place of the earlier one.
    fn put(&mut self, pool: &Pool, stock: Stock) -> Result<(), Memory>
        ensures { OnOk result ((p : PoolValue) → stock_at self.new p ≡ (if pool_eq pool.now p then stock else stock_at self.old p)) }
    {
        self.stocks.insert(pool_key(pool), stock)?;
        Ok(())
    }

    /// Whether a pool has as many keys as are told of as ready.
    pub fn have(&self, ready: &Option<Change>) -> bool
        ensures { (s : Lines) (before : List Told) → AreStocked s self.now before → result ≡ is_in_stock ready.now (λ p. stock_of s p before) }
    {
        match ready {
            Some(ready) => is_covered(ready.handed, &self.at(&ready.pool)),
            None => true,
        }
    }

    /// Adds what an item changes. The only error is that memory runs out.
    pub fn learn(&mut self, word: &Option<Change>) -> Result<(), Memory>
        ensures { (s : Lines) (told : Told) (before : List Told) → word.now ≡ change s told → AreStocked s self.old before → OnOk result (AreStocked s self.new (told ∷ before)) }
    {
        match word {
            Some(change) => {
                let stock = stock_with(change, &self.at(&change.pool));
                self.put(&change.pool, stock)
            }
            None => Ok(()),
        }
    }
}
