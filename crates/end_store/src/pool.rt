// Pools of keys, and the three orders in which waiting keys are listed.
ghost use Rattle.std.specs.Prelude.{◌≡◌};
ghost use Rattle.end_store.specs.Waiting.{line_entry, pool_entry};

use ordered_set::Entry;
use qkd_base::SaeNo;

/// The pool of the keys that have this master, this slave and this size in octets.
#[derive(Clone, Copy, Debug, PartialEq, Eq)]
pub struct Pool {
    pub master: SaeNo,
    pub slave: SaeNo,
    pub octets: u64,
}

/// A list of what waits for its master. Each item has a count, and the list is ordered by it.
#[derive(Clone, Copy, Debug)]
pub enum Line {
    /// All keys of a pool. The count is the place in the list of facts.
    Stock(Pool),
    /// The ready keys of a pool that this node named. The count is that of the key's name.
    Keys(Pool),
    /// The parts, in a pool, of the group keys that this node named. The count is that of the group key's name.
    Parts(Pool),
}

// The index entry of a pool at a count. Its first number holds both the tag and the master.
fn pool_entry(tag: u8, pool: Pool, count: u64) -> Entry
    ensures { result ≡ pool_entry tag pool count }
{
    [
        tag as u64 + 8 * pool.master.get() as u64,
        pool.slave.get() as u64,
        pool.octets,
        0,
        count,
    ]
}

impl Line {
    /// The index entry of this list at a count.
    pub fn entry(&self, count: u64) -> Entry
        ensures { result ≡ line_entry self.now count }
    {
        match *self {
            Line::Stock(pool) => pool_entry(0, pool, count),
            Line::Keys(pool) => pool_entry(1, pool, count),
            Line::Parts(pool) => pool_entry(2, pool, count),
        }
    }
}
