ghost use Rattle.std.specs.Prelude.{◌<◌, ◌≡◌};

use crate::cases::holds;
use key_uuid::{from_uuid, to_uuid};
use qkd_base::{
    Dues, FrameOctets, Items, KeyName, Lane, LinkNo, Lists, Memory, NameKind, NodeNo, Octets,
    PoolNo, Replica, Route, SaeNo, Text, Texts, Way,
};
use std::alloc::Global;
use uuid::Uuid;

// A number, and whether a node and a link have it.
const NUMBERS: [(u8, bool, bool); 5] = [
    (0, true, true),
    (15, true, true),
    (16, false, true),
    (31, false, true),
    (32, false, false),
];

#[test]
fn numbers_have_their_ranges(rt: HostRuntime) {
    for (number, node, link) in &NUMBERS {
        let case = u64::from(*number);
        holds(&rt, case, NodeNo::new(*number).is_some() == *node);
        holds(&rt, case, LinkNo::new(*number).is_some() == *link);
    }
    let Some(last) = SaeNo::new(255) else {
        panic!(rt; "no last one");
    };
    assert!(rt; last.get() == 255);
    assert!(rt; SaeNo::new(256).is_none());
}

// The parts of names, and their texts, which are those that RFC 9562's hyphenated form gives the layout.
const NAMES: [(u8, NameKind, u64, &str); 3] = [
    (0, NameKind::Key, 1, "00000000-0000-8000-8000-000000000001"),
    (1, NameKind::Note, 1, "00000000-0000-8001-8002-000000000001"),
    (
        15,
        NameKind::Stream,
        281474976710655,
        "00000000-0000-800f-8001-ffffffffffff",
    ),
];

fn name_of(node: u8, kind: NameKind, count: u64) -> Option<KeyName> {
    KeyName::new(NodeNo::new(node)?, kind, count)
}

// Whether a name has that text, and is read from it, and from its octets.
fn is_spelled(name: KeyName, text: &str) -> bool {
    let Ok(uuid) = Uuid::parse_str(text) else {
        return false;
    };
    let mut buffer = Uuid::encode_buffer();
    *to_uuid(name).hyphenated().encode_lower(&mut buffer) == *text
        && from_uuid(uuid) == Some(name)
        && KeyName::from_octets(&name.to_octets()) == Some(name)
}

#[test]
fn names_are_uuids(rt: HostRuntime) {
    for (node, kind, count, text) in &NAMES {
        let Some(name) = name_of(*node, *kind, *count) else {
            panic!(rt; "no name");
        };
        holds(&rt, *count, is_spelled(name, text));
    }
    assert!(rt; name_of(0, NameKind::Key, 0).is_none());
    assert!(rt; name_of(0, NameKind::Key, 281474976710656).is_none());
}

// The texts of no name.
const NO_NAMES: [&str; 6] = [
    "00000000-0000-8000-8000-000000000000",
    "00000000-0000-8010-8000-000000000001",
    "00000000-0000-4000-8000-000000000001",
    "00000000-0000-8000-9000-000000000001",
    "00000000-0000-8000-8003-000000000001",
    "00000001-0000-8000-8000-000000000001",
];

// Whether that is a UUID, and no name.
fn is_refused(text: &str) -> bool {
    match Uuid::parse_str(text) {
        Ok(uuid) => from_uuid(uuid).is_none(),
        Err(_) => false,
    }
}

#[test]
fn other_uuids_are_no_names(rt: HostRuntime) {
    for text in &NO_NAMES {
        assert!(rt; is_refused(text), "{text}");
    }
}

fn node(number: u8) -> NodeNo
    requires { number < 16 }
    ensures { result ≡ number }
{
    NodeNo::new(number).unwrap()
}

#[test]
fn routes_are_lists_of_different_nodes(rt: HostRuntime) {
    let (a, b, c) = (node(3), node(0), node(7));
    let Some(route) = Route::new(&[a, b, c]) else {
        panic!(rt; "no route");
    };
    assert!(rt; route.first() == a);
    assert!(rt; route.last() == c);
    assert!(rt; route.next_after(a) == Some(b));
    assert!(rt; route.next_after(b) == Some(c));
    assert!(rt; route.next_after(c).is_none());
    assert!(rt; route.reversed().as_slice() == [c, b, a].as_slice());
    assert!(rt; Route::new(&[a]).is_none());
    assert!(rt; Route::new(&[a, b, a]).is_none());
}

// A copy of a list of one list of three octets.
fn lists(alloc: Global) -> Result<Lists, Memory> {
    let mut bytes = Octets::from_slice(alloc, b"ab")?;
    bytes.extend(b"c")?;
    let mut lists: Lists = Items::new(alloc);
    lists.push(bytes)?;
    lists.copy()
}

// A copy of a list of one text.
fn texts(alloc: Global) -> Result<Texts, Memory> {
    let mut texts: Texts = Items::new(alloc);
    texts.push(Text::from_string(String::from_str(alloc, "alice")?))?;
    texts.copy()
}

#[test]
fn lists_keep_their_items(rt: HostRuntime) {
    let (Ok(lists), Ok(texts)) = (lists(rt.alloc()), texts(rt.alloc())) else {
        panic!(rt; "no memory");
    };
    assert!(rt; lists.len() == 1);
    assert!(rt; !lists.is_empty());
    let (Some(octets), Some(text)) = (lists.get(0), texts.get(0)) else {
        panic!(rt; "no items");
    };
    assert!(rt; octets.as_slice() == b"abc".as_slice());
    assert!(rt; text.as_str() == "alice");
    let dues: Dues = Items::from_vec(Vec::new(rt.alloc()));
    assert!(rt; dues.into_vec().is_empty());
}

#[test]
fn parts_are_compared(rt: HostRuntime) {
    assert!(rt; FrameOctets::new().octets[599] == 0);
    let (Some(link), Some(sae)) = (LinkNo::new(2), SaeNo::new(9)) else {
        panic!(rt; "no number");
    };
    let lane = Lane {
        link,
        way: Way::Down,
    };
    let same_lane = lane;
    assert!(rt; lane == same_lane);
    let pool = PoolNo {
        master: sae,
        slave: sae,
        bits: 256,
    };
    let same_pool = pool;
    assert!(rt; pool == same_pool);
}
