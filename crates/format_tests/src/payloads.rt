use crate::cases::holds_at;
use frame_codec::{PayloadRefusal, read, spell};
use net_model::{Fact, Payload, spelled_len, well_formed};
use qkd_base::{FrameOctets, KeyName, Memory, NameKind, NodeNo, Octets};
use std::alloc::Global;
use std::process::Abort;

const KEY: [u8; 34] = [
    1, 0, 0, 0, 0, 0, 0, 0x80, 0, 0x80, 0, 0, 0, 0, 0, 0, 1, 0, 2, 0, 0xff, 0, 8, 2, 0, 1, 0xa0,
    0xa1, 0xa2, 0xa3, 0xa4, 0xa5, 0xa6, 0xa7,
];

const STORED: [u8; 36] = [
    2, 0, 0, 0, 0, 0, 0, 0x80, 1, 0x80, 2, 0, 0, 0, 0, 0, 1, 0, 0, 0, 0, 0, 0, 0x80, 0, 0x80, 0, 0,
    0, 0, 0, 0, 1, 2, 1, 0,
];

const ACK: [u8; 17] = [3, 0, 0, 0, 0, 0, 0, 0x80, 1, 0x80, 2, 0, 0, 0, 0, 0, 1];

const OPEN: [u8; 26] = [
    4, 0, 0, 0, 0, 0, 0, 0x80, 0, 0x80, 1, 0, 0, 0, 0, 0, 3, 0, 1, 0, 2, 2, 0, 2, 0, 0x0f,
];

const JOINED: [u8; 36] = [
    5, 0, 0, 0, 0, 0, 0, 0x80, 1, 0x80, 2, 0, 0, 0, 0, 0, 1, 0, 0, 0, 0, 0, 0, 0x80, 0, 0x80, 1, 0,
    0, 0, 0, 0, 3, 2, 1, 0,
];

const CHUNK: [u8; 50] = [
    6, 0, 0, 0, 0, 0, 0, 0x80, 0, 0x80, 0, 0, 0, 0, 0, 0, 1, 0, 0, 0, 0, 0, 0, 0x80, 0, 0x80, 1, 0,
    0, 0, 0, 0, 3, 1, 2, 3, 4, 0, 8, 2, 0, 1, 0xa0, 0xa1, 0xa2, 0xa3, 0xa4, 0xa5, 0xa6, 0xa7,
];

const PART: [u8; 51] = [
    7, 0, 0, 0, 0, 0, 0, 0x80, 0x0f, 0x80, 0, 0xff, 0xff, 0xff, 0xff, 0xff, 0xff, 0, 0, 0, 0, 0, 0,
    0x80, 0, 0x80, 0, 0, 0, 0, 0, 0, 1, 0, 2, 0, 3, 0, 8, 3, 0, 4, 1, 0xa0, 0xa1, 0xa2, 0xa3, 0xa4,
    0xa5, 0xa6, 0xa7,
];

// Octets that are read, and spelled again, at a place of their own.
fn is_payload(rt: &impl Abort, alloc: Global, octets: &[u8]) {
    let Ok(payload) = read(alloc, octets) else {
        panic!(rt; "not read");
    };
    assert!(rt; well_formed(&payload));
    let size = usize::from(spelled_len(&payload));
    let mut room = FrameOctets::new();
    assert!(rt; spell(&payload, &mut room, 3) == size);
    assert!(rt; size == octets.len());
    assert!(rt; &room.octets[3..3 + size] == octets);
}

// The place at which octets are refused, none where they are a payload or there is no memory.
fn refused_at(alloc: Global, octets: &[u8]) -> Option<usize> {
    match read(alloc, octets) {
        Err(PayloadRefusal::NotAPayload(place)) => Some(place),
        _ => None,
    }
}

// The last of these fields that begins before a cut or at it.
fn last_before(fields: &[usize], cut: usize) -> usize {
    let mut place = 0;
    for field in fields {
        if *field <= cut {
            place = *field;
        }
    }
    place
}

// These octets, and one more.
fn longer(alloc: Global, octets: &[u8]) -> Result<Octets, Memory> {
    let mut longer = Octets::from_slice(alloc, octets)?;
    longer.push(0)?;
    Ok(longer)
}

// The payload has a field at each of these places. Cut anywhere it is refused at the last of them before the cut, and with an
// octet more at that octet.
fn is_refused_when_cut(rt: &impl Abort, alloc: Global, octets: &[u8], fields: &[usize]) {
    for cut in 0..octets.len() {
        let place = refused_at(alloc, &octets[..cut]);
        assert!(rt; place == Some(last_before(fields, cut)), "cut at {cut}");
    }
    let Ok(longer) = longer(alloc, octets) else {
        panic!(rt; "no memory");
    };
    assert!(rt; refused_at(alloc, longer.as_slice()) == Some(octets.len()));
}

// The octets of each kind at its shortest (an acknowledgement has one length), by hand, and their fields.
const SHORTEST: [(&[u8], &[usize]); 7] = [
    (&KEY, &[0, 1, 17, 19, 21, 23, 26]),
    (&STORED, &[0, 1, 17, 33]),
    (&ACK, &[0, 1]),
    (&OPEN, &[0, 1, 17, 19, 21, 23]),
    (&JOINED, &[0, 1, 17, 33]),
    (&CHUNK, &[0, 1, 17, 33, 37, 39, 42]),
    (&PART, &[0, 1, 17, 33, 35, 37, 39, 43]),
];

#[test]
fn shortest_payloads_and_their_fields(rt: HostRuntime) {
    for (octets, fields) in &SHORTEST {
        is_payload(&rt, rt.alloc(), octets);
        is_refused_when_cut(&rt, rt.alloc(), octets, fields);
    }
}

// An octet that is changed, and the place of the field that doesn't fit then.
const CHANGES: [(&[u8], usize, u8, usize); 26] = [
    (&KEY, 0, 0, 0),
    (&KEY, 0, 8, 0),
    (&KEY, 1, 1, 1),
    (&KEY, 8, 16, 1),
    (&KEY, 10, 2, 1),
    (&KEY, 16, 0, 1),
    (&KEY, 17, 1, 17),
    (&KEY, 19, 1, 19),
    (&KEY, 22, 7, 21),
    (&KEY, 21, 2, 21),
    (&KEY, 23, 1, 23),
    (&KEY, 23, 10, 23),
    (&KEY, 24, 1, 23),
    (&KEY, 25, 16, 23),
    (&KEY, 22, 9, 26),
    (&STORED, 10, 0, 1),
    (&STORED, 26, 2, 17),
    (&STORED, 34, 0, 33),
    (&ACK, 10, 3, 1),
    (&OPEN, 10, 0, 1),
    (&OPEN, 22, 1, 21),
    (&JOINED, 26, 0, 17),
    (&CHUNK, 26, 0, 17),
    (&CHUNK, 38, 6, 37),
    (&PART, 26, 1, 17),
    (&PART, 33, 1, 33),
];

// The place at which octets are refused, one of which is changed.
fn refused_changed(alloc: Global, octets: &[u8], at: usize, octet: u8) -> Option<usize> {
    let mut room = [0u8; 600];
    let size = octets.len().min(600);
    let changed = &mut room[..size];
    changed.copy_from_slice(&octets[..size]);
    *changed.get_mut(at)? = octet;
    refused_at(alloc, changed)
}

#[test]
fn fields_that_do_not_fit(rt: HostRuntime) {
    for (octets, at, octet, place) in &CHANGES {
        let refused = refused_changed(rt.alloc(), octets, *at, *octet);
        holds_at(&rt, *at, *octet, refused == Some(*place));
    }
}

// A key, a chunk and a part at their longest, each up to its route, and their sizes.
const HEADS: [(&[u8], usize, usize); 3] = [(&KEY, 21, 545), (&CHUNK, 37, 561), (&PART, 37, 561)];

// Octets with a route over 9 nodes and 512 octets behind them.
fn longest(alloc: Global, head: &[u8]) -> Result<Octets, Memory> {
    let mut octets = Octets::from_slice(alloc, head)?;
    octets.extend(&[2, 0, 9, 15, 14, 13, 12, 11, 10, 9, 8, 7])?;
    octets.extend(&[0x5a; 512])?;
    Ok(octets)
}

#[test]
fn longest_payloads(rt: HostRuntime) {
    for (octets, head, size) in &HEADS {
        let (head, _) = octets.split_at((*head).min(octets.len()));
        let Ok(octets) = longest(rt.alloc(), head) else {
            panic!(rt; "no memory");
        };
        assert!(rt; octets.len() == *size);
        is_payload(&rt, rt.alloc(), octets.as_slice());
    }
}

#[test]
fn a_part_has_its_fields(rt: HostRuntime) {
    let (Some(last), Ok(payload)) = (NodeNo::new(15), read(rt.alloc(), &PART)) else {
        panic!(rt; "not read");
    };
    match &payload {
        Payload::Data(
            Fact::Part {
                name,
                key,
                master,
                slave,
                route,
                bytes,
            },
        ) => {
            assert!(rt; KeyName::new(last, NameKind::Key, 281474976710655) == Some(*name));
            assert!(rt; key.count() == 1);
            assert!(rt; master.get() == 2 && slave.get() == 3);
            assert!(rt; route.first().get() == 0 && route.last().get() == 1);
            assert!(rt; bytes.as_slice() == [160, 161, 162, 163, 164, 165, 166, 167].as_slice());
        }
        _ => panic!(rt; "no part"),
    }
}
