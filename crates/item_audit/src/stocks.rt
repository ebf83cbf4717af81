// Rule 13, as to one item: keys of a pool.
ghost use Rattle.std.specs.Prelude.{◌≡◌};
ghost use Rattle.std.specs.Option.{option_copied};
ghost use Rattle.item_audit.specs.Stocks.{pool_of, made_by, handed_by, change_of, change_if, ready_in, ready_of, ready_if};

use qkd_base::SaeNo;
use run_types::{Command, Item, Refusal};

/// The keys of a size that a master and one slave share.
#[derive(Clone, Copy)]
pub struct Pool {
    pub master: u64,
    pub slave: u64,
    pub bits: u64,
}

/// How many keys of a pool are made, and handed to its master.
#[derive(Clone, Copy)]
pub struct Change {
    pub pool: Pool,
    pub made: u64,
    pub handed: u64,
}

// The pool of a pair and a size.
fn pool_of(master: SaeNo, slave: SaeNo, bits: u16) -> Pool
    ensures { result ≡ pool_of master slave bits }
{
    Pool {
        master: u64::from(master.get()),
        slave: u64::from(slave.get()),
        bits: u64::from(bits),
    }
}

// What a fill of a pool adds, or may have added.
fn made_by(pool: Pool, count: u16, item: &Item) -> Option<Change>
    ensures { result ≡ made_by pool count item.now }
{
    let change = Change {
        pool,
        made: u64::from(count),
        handed: 0,
    };
    match item {
        Item::Made { .. } => Some(change),
        Item::Refused(Refusal::Stopped) => Some(change),
        _ => None,
    }
}

// What the master of a pool gets.
fn handed_by(pool: Pool, item: &Item) -> Option<Change>
    ensures { result ≡ handed_by pool item.now }
{
    match item {
        Item::Keys(keys) => Some(Change {
            pool,
            made: 0,
            handed: keys.len() as u64,
        }),
        _ => None,
    }
}

// How a line changes its pool.
fn change_of(command: &Command, item: &Item) -> Option<Change>
    ensures { result ≡ change_of command.now item.now }
{
    match command {
        Command::Fill {
            master,
            slave,
            bits,
            count,
        } => made_by(pool_of(*master, *slave, *bits), *count, item),
        Command::Enc {
            master,
            slave,
            bits,
            ..
        } => handed_by(pool_of(*master, *slave, *bits), item),
        _ => None,
    }
}

/// How an item changes the pool of its line, if there is a line, and it has a pool.
pub fn change_if(command: &Option<&Command>, item: &Item) -> Option<Change>
    ensures { result ≡ change_if (option_copied command.now) item.now }
{
    match command {
        Some(command) => change_of(command, item),
        None => None,
    }
}

// How many keys of a pool are told of as ready.
fn ready_in(pool: Pool, item: &Item) -> Option<Change>
    ensures { result ≡ ready_in pool item.now }
{
    match item {
        Item::Keys(keys) => Some(Change {
            pool,
            made: 0,
            handed: keys.len() as u64,
        }),
        Item::Refused(Refusal::Few { count }) => Some(Change {
            pool,
            made: 0,
            handed: u64::from(*count),
        }),
        Item::Ready { count } => Some(Change {
            pool,
            made: 0,
            handed: u64::from(*count),
        }),
        _ => None,
    }
}

// How many keys of its pool a line tells of as ready.
fn ready_of(command: &Command, item: &Item) -> Option<Change>
    ensures { result ≡ ready_of command.now item.now }
{
    match command {
        Command::Enc {
            master,
            slave,
            bits,
            ..
        } => ready_in(pool_of(*master, *slave, *bits), item),
        Command::Status { master, slave, .. } => ready_in(pool_of(*master, *slave, 256), item),
        _ => None,
    }
}

/// How many keys of the pool of its line an item tells of as ready, as if they were handed out.
pub fn ready_if(command: &Option<&Command>, item: &Item) -> Option<Change>
    ensures { result ≡ ready_if (option_copied command.now) item.now }
{
    match command {
        Some(command) => ready_of(command, item),
        None => None,
    }
}
