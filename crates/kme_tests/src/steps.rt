use kme_base::{Change, Step};
use net_model::{Fact, Record, Records, Reply};
use qkd_base::{Items, KeyName, Memory, NameKind, NodeNo, Octets, Route, SaeNo};
use std::alloc::Global;
use std::test::Fail;

fn key_name(count: u64) -> Result<KeyName, Memory> {
    let node = NodeNo::new(0).ok_or(Memory)?;
    KeyName::new(node, NameKind::Key, count).ok_or(Memory)
}

fn sae(number: u16) -> Result<SaeNo, Memory> {
    SaeNo::new(number).ok_or(Memory)
}

fn way() -> Result<Route, Memory> {
    let nodes = [NodeNo::new(0).ok_or(Memory)?, NodeNo::new(1).ok_or(Memory)?];
    Route::new(&nodes).ok_or(Memory)
}

fn zeros(alloc: Global) -> Result<Octets, Memory> {
    Octets::from_slice(alloc, &[0; 2])
}

fn learned_key(alloc: Global, count: u64) -> Result<Record, Memory> {
    let fact = Fact::Key {
        name: key_name(count)?,
        master: sae(0)?,
        slave: sae(1)?,
        route: way()?,
        bytes: zeros(alloc)?,
    };
    Ok(Record::Learned { fact })
}

fn learned_part(alloc: Global, count: u64, of: u64) -> Result<Record, Memory> {
    let fact = Fact::Part {
        name: key_name(count)?,
        key: key_name(of)?,
        master: sae(0)?,
        slave: sae(1)?,
        route: way()?,
        bytes: zeros(alloc)?,
    };
    Ok(Record::Learned { fact })
}

// A key, two parts of one group key, a part of another, and a key.
fn made(alloc: Global) -> Result<Step, Memory> {
    let mut batch: Records = Items::new(alloc);
    batch.push(learned_key(alloc, 1)?)?;
    batch.push(learned_part(alloc, 3, 2)?)?;
    batch.push(learned_part(alloc, 4, 2)?)?;
    batch.push(learned_part(alloc, 6, 5)?)?;
    batch.push(learned_key(alloc, 7)?)?;
    Ok(Step {
        batch,
        reply: Reply::Noted,
        change: Change::Same,
    })
}

// The first octet of what a record has learned.
fn first_octet(step: &Step, place: usize) -> Option<u8> {
    match step.batch.get(place) {
        Some(
            Record::Learned {
                fact: Fact::Key { bytes, .. },
            },
        ) => bytes.get(0).copied(),
        Some(
            Record::Learned {
                fact: Fact::Part { bytes, .. },
            },
        ) => bytes.get(0).copied(),
        _ => None,
    }
}

#[test]
fn parts_of_one_key_share_their_octets(rt: HostRuntime) -> Result<(), Fail> {
    let mut step = made(rt.alloc())?;
    step.put_random(rt.alloc(), &[1, 2, 3, 4, 5, 6, 7]);
    assert_eq!(rt; first_octet(&step, 0), Some(1));
    assert_eq!(rt; first_octet(&step, 1), Some(3));
    assert_eq!(rt; first_octet(&step, 2), Some(3));
    assert_eq!(rt; first_octet(&step, 3), Some(5));
    assert_eq!(rt; first_octet(&step, 4), Some(7));
    Ok(())
}
