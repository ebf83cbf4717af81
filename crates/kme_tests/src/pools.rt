use crate::parts::{name, node, sae};
use end_store::{EndStore, Line, Pool};
use net_model::Fact;
use qkd_base::{KeyName, Memory, NameKind, Octets, PoolNo, Route};
use std::alloc::Global;

fn first() -> KeyName {
    name(0, NameKind::Key, 1)
}

fn third() -> KeyName {
    name(0, NameKind::Key, 3)
}

fn way() -> Result<Route, Memory> {
    Route::new(&[node(0), node(1)]).ok_or(Memory)
}

fn key(alloc: Global, name: KeyName) -> Result<Fact, Memory> {
    Ok(Fact::Key {
        name,
        master: sae(0),
        slave: sae(1),
        route: way()?,
        bytes: Octets::from_slice(alloc, &[7; 8])?,
    })
}

// A part, in the pool of the keys, of group key 5.
fn part(alloc: Global) -> Result<Fact, Memory> {
    Ok(Fact::Part {
        name: name(0, NameKind::Key, 6),
        key: name(0, NameKind::Key, 5),
        master: sae(0),
        slave: sae(1),
        route: way()?,
        bytes: Octets::from_slice(alloc, &[7; 8])?,
    })
}

// The word that a key has come.
fn note(note: KeyName, about: KeyName) -> Result<Fact, Memory> {
    Ok(Fact::Stored {
        note,
        about,
        route: way()?.reversed(),
    })
}

// Keys 3 and 1, of which key 3 is confirmed.
fn filled(alloc: Global) -> Result<EndStore, Memory> {
    let mut store = EndStore::new(alloc, node(0));
    store.learn(key(alloc, third())?)?;
    store.learn(key(alloc, first())?)?;
    store.learn(note(name(1, NameKind::Note, 1), third())?)?;
    Ok(store)
}

// Hands a key to the first application. The answer is whether there is room.
fn hand(store: &mut EndStore, name: KeyName) -> bool {
    let Ok(()) = store.room_handed(1) else {
        return false;
    };
    store.mark(name, sae(0));
    true
}

// Learns a fact. The answer is whether there is room.
fn learn(store: &mut EndStore, fact: Result<Fact, Memory>) -> bool {
    let Ok(fact) = fact else {
        return false;
    };
    store.learn(fact).is_ok()
}

// The first ready key from a count on.
fn first_key(store: &EndStore, from: u64) -> Option<u64> {
    let pool = Pool {
        master: sae(0),
        slave: sae(1),
        octets: 8,
    };
    store.next(&Line::Keys(pool), from)
}

fn of_bits(bits: u16) -> PoolNo {
    PoolNo {
        master: sae(0),
        slave: sae(1),
        bits,
    }
}

// How many keys of so many bits are ready, and how many their master hasn't got.
fn counts(store: &EndStore, bits: u16) -> (usize, usize) {
    let pool = of_bits(bits);
    (store.ready_count(&pool, 5), store.unhanded_count(&pool, 5))
}

#[test]
fn a_key_is_ready_once_it_is_known_and_confirmed(rt: HostRuntime) {
    let Ok(mut store) = filled(rt.alloc()) else {
        panic!(rt; "no memory");
    };
    let fourth = name(0, NameKind::Key, 4);
    // Another node's word about key 3.
    assert!(rt; learn(&mut store, note(name(2, NameKind::Note, 1), third())));
    assert!(rt; counts(&store, 64) == (1, 2));
    // Key 4 comes behind the word about it.
    assert!(rt; learn(&mut store, note(name(1, NameKind::Note, 2), fourth)));
    assert!(rt; counts(&store, 64) == (1, 2));
    assert!(rt; learn(&mut store, key(rt.alloc(), fourth)));
    assert!(rt; counts(&store, 64) == (2, 3));
    assert!(rt; first_key(&store, 4) == Some(4));
    // A group key is none of the pool.
    assert!(rt; learn(&mut store, part(rt.alloc())));
    assert!(rt;
        learn(
            &mut store,
            note(name(1, NameKind::Note, 3), name(0, NameKind::Key, 6))
        )
    );
    assert!(rt; counts(&store, 64) == (2, 3));
    // Key 1 isn't confirmed.
    assert!(rt; hand(&mut store, first()));
    assert!(rt; counts(&store, 64) == (2, 2));
    assert!(rt; hand(&mut store, third()));
    assert!(rt; hand(&mut store, third()));
    assert!(rt; counts(&store, 64) == (1, 1));
}
