use net_model::{Event, Reply};
use qkd_base::{KeyName, Memory, NameKind, NodeNo, Octets, SaeNo};
use qkd004_wire::{BadCall, answer_line, read_call};
use scenario_text::read_scenario;
use std::alloc::Global;
use std::test::Fail;

const SITE: &str = "node A\nnode B\nsae alice A\nsae bob B\nend";

// Where a line is no call.
fn place_of(call: Result<Event, BadCall>) -> Option<usize> {
    match call {
        Ok(_) => None,
        Err(bad) => Some(bad.place),
    }
}

// Each line with the place at which it is no call.
const LINES: &[(&str, Option<usize>)] = &[
    ("OPEN_CONNECT alice bob - 65535", None),
    (
        "OPEN_CONNECT  bob alice 00000000-0000-8000-8001-000000000001   256",
        None,
    ),
    (
        "GET_KEY bob 00000000-0000-8000-8001-000000000001 4294967295",
        None,
    ),
    ("CLOSE alice 00000000-0000-8000-8001-000000000001", None),
    ("", Some(0)),
    ("OPEN", Some(0)),
    ("close alice 00000000-0000-8000-8001-000000000001", Some(0)),
    (" CLOSE alice 00000000-0000-8000-8001-000000000001", Some(0)),
    ("OPEN_CONNECT", Some(1)),
    ("OPEN_CONNECT carol bob - 256", Some(1)),
    ("OPEN_CONNECT alice carol - 256", Some(2)),
    ("OPEN_CONNECT alice bob -- 256", Some(3)),
    (
        "OPEN_CONNECT alice bob 00000000-0000-8000-8000-000000000001 256",
        Some(3),
    ),
    (
        "OPEN_CONNECT alice bob 00000000-0000-8000-8001-00000000000A 256",
        Some(3),
    ),
    ("OPEN_CONNECT alice bob - 65536", Some(4)),
    ("OPEN_CONNECT alice bob -", Some(4)),
    ("OPEN_CONNECT alice bob - 256 1", Some(5)),
    ("OPEN_CONNECT alice bob - 256 ", Some(5)),
    ("GET_KEY bob - 0", Some(2)),
    (
        "GET_KEY bob 00000000-0000-8000-8001-000000000001 4294967296",
        Some(3),
    ),
    ("GET_KEY bob 00000000-0000-8000-8001-000000000001", Some(3)),
    ("CLOSE alice", Some(2)),
    ("CLOSE alice ", Some(2)),
    (
        "CLOSE alice 00000000-0000-8000-8001-000000000001\n",
        Some(2),
    ),
];

#[test]
fn lines_are_calls_or_refused_at_a_place(rt: HostRuntime) -> Result<(), Fail> {
    let scenario = match read_scenario(rt.alloc(), SITE.as_bytes()) {
        Ok(scenario) => scenario,
        Err(_) => return Err("site".into()),
    };
    for (line, place) in LINES {
        let call = read_call(line.as_bytes(), &scenario.site);
        assert_eq!(rt; place_of(call), *place, "{line}");
    }
    let open = read_call(b"OPEN_CONNECT alice bob - 7", &scenario.site);
    assert!(rt; matches!(open, Ok(Event::Open { bits: 7, .. })));
    Ok(())
}

// The answer to OPEN_CONNECT.
#[tactic(auto, unfolding(qkd004_wire::specs::Answer::told))]
fn opened(
    alloc: Global,
    source: SaeNo,
    status: u8,
    stream: Option<KeyName>,
) -> Result<Octets, Memory> {
    let event = Event::Open {
        source,
        peer: source,
        bits: 256,
    };
    let reply = Reply::Stream {
        status,
        stream,
        index: 0,
        bytes: Octets::new(alloc),
    };
    answer_line(alloc, &event, &reply)
}

// The answer to GET_KEY at index 3.
#[tactic(auto, unfolding(qkd004_wire::specs::Answer::told))]
fn got(
    alloc: Global,
    caller: SaeNo,
    stream: KeyName,
    status: u8,
    bytes: Octets,
) -> Result<Octets, Memory> {
    let event = Event::Get {
        caller,
        stream,
        index: 3,
    };
    let reply = Reply::Stream {
        status,
        stream: None,
        index: 3,
        bytes,
    };
    answer_line(alloc, &event, &reply)
}

// A manager that is down, asked to CLOSE.
#[tactic(auto, unfolding(qkd004_wire::specs::Answer::told))]
fn refused(alloc: Global, caller: SaeNo, stream: KeyName) -> Result<Octets, Memory> {
    let event = Event::Close { caller, stream };
    answer_line(alloc, &event, &Reply::Down)
}

#[test]
fn answers_have_their_texts(rt: HostRuntime) -> Result<(), Fail> {
    let alloc = rt.alloc();
    let node = NodeNo::new(0).ok_or("node")?;
    let sae = SaeNo::new(0).ok_or("sae")?;
    let stream = KeyName::new(node, NameKind::Stream, 1).ok_or("name")?;
    let text = opened(alloc, sae, 1, Some(stream))?;
    let expected = b"OPEN_CONNECT 1 00000000-0000-8000-8001-000000000001";
    assert_eq!(rt; text.as_slice(), expected.as_slice());
    let text = opened(alloc, sae, 7, None)?;
    assert_eq!(rt; text.as_slice(), b"OPEN_CONNECT 7".as_slice());
    let text = got(alloc, sae, stream, 0, Octets::from_slice(alloc, b"kL")?)?;
    assert_eq!(rt; text.as_slice(), b"GET_KEY 0 3 6b4c".as_slice());
    let text = got(alloc, sae, stream, 2, Octets::new(alloc))?;
    assert_eq!(rt; text.as_slice(), b"GET_KEY 2".as_slice());
    let text = refused(alloc, sae, stream)?;
    assert_eq!(rt; text.as_slice(), b"down".as_slice());
    Ok(())
}
