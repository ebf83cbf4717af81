// Functions that add waiting facts to the index and remove them. When memory runs out, the index lags behind the
// facts.
ghost use Rattle.std.specs.Prelude.{◌≡◌, ◌+◌, IsTrue, IfSome, true, false};
ghost use Rattle.std.specs.Option.{option_copied};
ghost use Rattle.net_model.specs.Table.{fact_at, was_handed};
ghost use Rattle.end_store.specs.Waiting.{is_own, is_taken, pool_of, place_entry, count_entry, free_entry, brought_entry, GrowsBy, ShrinksBy, AreWaiting};

use crate::{Line, Marks, Pool};
use net_model::Fact;
use ordered_set::{Entries, Entry};
use qkd_base::{KeyName, NameKind, NodeNo, Octets, SaeNo};
use relay_core::Known;

// Whether the master has got this key, or the group key of this part.
fn is_taken(fact: &Fact, handed: &Marks) -> bool
    ensures { result ≡ is_taken handed.now.pairs fact.now }
{
    match fact {
        Fact::Key { name, master, .. } => handed.has(*name, *master),
        Fact::Part { key, master, .. } => handed.has(*key, *master),
        _ => false,
    }
}

/// The pool of a key or part with these bytes.
pub fn pool_of(master: SaeNo, slave: SaeNo, bytes: &Octets) -> Pool
    ensures { result ≡ pool_of master slave bytes.now }
{
    Pool {
        master,
        slave,
        octets: bytes.len() as u64,
    }
}

/// Whether this node gave the key its name.
pub fn is_own(name: KeyName, me: NodeNo) -> bool
    ensures { result ≡ is_own me name }
{
    name.node() == me && name.kind() == NameKind::Key
}

// The index entry of a fact. Its count is the fact's place in the list of facts.
fn place_entry(fact: &Fact, place: usize) -> Option<Entry>
    ensures { result ≡ place_entry place fact.now }
{
    match fact {
        Fact::Key {
            master,
            slave,
            bytes,
            ..
        } => Some(Line::Stock(pool_of(*master, *slave, bytes)).entry(place as u64)),
        _ => None,
    }
}

// The index entry of a fact. Its count is that of the name under which the master gets the key.
fn count_entry(fact: &Fact, me: NodeNo) -> Option<Entry>
    ensures { result ≡ count_entry me fact.now }
{
    match fact {
        Fact::Key {
            name,
            master,
            slave,
            bytes,
            ..
        } => {
            if is_own(*name, me) {
                Some(Line::Keys(pool_of(*master, *slave, bytes)).entry(name.count()))
            } else {
                None
            }
        }
        Fact::Part {
            key,
            master,
            slave,
            bytes,
            ..
        } => {
            if is_own(*key, me) {
                Some(Line::Parts(pool_of(*master, *slave, bytes)).entry(key.count()))
            } else {
                None
            }
        }
        _ => None,
    }
}

// The index entry, by count, of the fact of this name. `None` if its master has got it.
fn free_entry(known: &Known, handed: &Marks, name: KeyName) -> Option<Entry>
    ensures { result ≡ free_entry known.now.me handed.now.pairs (fact_at known.now.facts name) }
{
    match known.fact(name) {
        None => None,
        Some(fact) => match count_entry(fact, known.me()) {
            None => None,
            Some(entry) => {
                if is_taken(fact, handed) {
                    None
                } else {
                    Some(entry)
                }
            }
        },
    }
}

// The index entry, by count, that is added when this fact is learned. A key needs both itself and a note that
// confirms it: the later of the two brings the entry.
fn brought_entry(known: &Known, handed: &Marks, fact: &Fact) -> Option<Entry>
    ensures { result ≡ brought_entry known.now.me known.now.facts handed.now.pairs fact.now }
{
    match fact {
        Fact::Key { name, .. } => {
            if is_own(*name, known.me()) && known.is_confirmed(*name) {
                count_entry(fact, known.me())
            } else {
                None
            }
        }
        Fact::Stored { about, .. } => free_entry(known, handed, *about),
        _ => count_entry(fact, known.me()),
    }
}

// Adds an entry to the index, if there is one. False if memory runs out.
fn add(index: &mut Entries, entry: Option<Entry>) -> bool
    ensures done { IsTrue result → GrowsBy index.old index.new entry }
    ensures not_done { result ≡ false → index.new ≡ index.old }
{
    match entry {
        None => true,
        Some(entry) => match index.insert(entry) {
            Ok(()) => true,
            Err(_) => false,
        },
    }
}

// Removes an entry from the index, if there is one.
fn drop_entry(index: &mut Entries, entry: Option<Entry>)
    ensures { ShrinksBy index.old index.new entry }
{
    match entry {
        None => {}
        Some(entry) => index.remove(entry),
    }
}

// Adds the fact at a place to the index, unless its master has got it. False if memory runs out.
fn list_one(index: &mut Entries, known: &Known, handed: &Marks, place: usize) -> bool
    requires waiting { AreWaiting known.now.me known.now.facts handed.now.pairs index.old place }
    ensures done { IsTrue result → AreWaiting known.now.me known.now.facts handed.now.pairs index.new (place + 1) }
    ensures not_done { result ≡ false → AreWaiting known.now.me known.now.facts handed.now.pairs index.new place }
{
    // The contract of `len` also says that all names differ.
    let count = known.len();
    match known.at(place) {
        None => false,
        Some(fact) => {
            // The fact that was learned last can't have been handed out yet, so it isn't tested.
            if place + 1 < count && is_taken(fact, handed) {
                return true;
            }
            if !add(index, place_entry(fact, place)) {
                return false;
            }
            add(index, brought_entry(known, handed, fact))
        }
    }
}

/// Adds the facts from a place on to the index, until memory runs out. Returns the number of leading facts that are
/// listed then.
pub fn list_more(index: &mut Entries, known: &Known, handed: &Marks, from: usize) -> usize
    requires { AreWaiting known.now.me known.now.facts handed.now.pairs index.old from }
    ensures { AreWaiting known.now.me known.now.facts handed.now.pairs index.new result }
{
    let mut place = from;
    while place < known.len() {
        if !list_one(index, known, handed, place) {
            return place;
        }
        place += 1;
    }
    place
}

// The last pair of a key and the application that got it.
fn last_of(pairs: &[(KeyName, SaeNo)]) -> Option<&(KeyName, SaeNo)>
    ensures { IfSome (option_copied result) (λ pair. was_handed pairs.now pair.0 pair.1 ≡ true) }
{
    pairs.last()
}

// Whether the last pair hands this key, or the group key of this part, to its master.
fn is_taken_last(fact: &Fact, handed: &Marks) -> bool
    ensures { IsTrue result → is_taken handed.now.pairs fact.now ≡ true }
{
    match last_of(handed.as_slice()) {
        None => false,
        Some(pair) => match fact {
            Fact::Key { name, master, .. } => *name == pair.0 && *master == pair.1,
            Fact::Part { key, master, .. } => *key == pair.0 && *master == pair.1,
            _ => false,
        },
    }
}

/// Removes the fact at a place from the index, if the last pair handed it to its master.
pub fn release(index: &mut Entries, known: &Known, handed: &Marks, count: usize, place: usize)
    requires { AreWaiting known.now.me known.now.facts handed.now.pairs index.old count }
    ensures { AreWaiting known.now.me known.now.facts handed.now.pairs index.new count }
{
    match known.at(place) {
        None => {}
        Some(fact) => {
            if is_taken_last(fact, handed) {
                drop_entry(index, place_entry(fact, place));
                drop_entry(index, count_entry(fact, known.me()));
            }
        }
    }
}

/// Removes the parts of a group key from the index, if the last pair handed this key to its master.
pub fn release_parts(index: &mut Entries, known: &Known, handed: &Marks, count: usize, key: KeyName)
    requires { AreWaiting known.now.me known.now.facts handed.now.pairs index.old count }
    ensures { AreWaiting known.now.me known.now.facts handed.now.pairs index.new count }
{
    let mut from = 0;
    while from < known.len() {
        match known.next_part(key, from) {
            None => return,
            Some(place) => {
                release(index, known, handed, count, place);
                from = place + 1;
            }
        }
    }
}
