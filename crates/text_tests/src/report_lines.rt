use qkd_base::{Items, Text, Texts};
use report_parser::{ReportRefusal, read_line};
use std::alloc::Global;
use std::test::Fail;

// The nodes A and Bob.
fn nodes(alloc: Global) -> Result<Texts, Fail> {
    let mut nodes = Items::new(alloc);
    nodes.push(Text::from_string(String::from_str(alloc, "A")?))?;
    nodes.push(Text::from_string(String::from_str(alloc, "Bob")?))?;
    Ok(nodes)
}

// Where a line is refused.
fn place(alloc: Global, nodes: &Texts, line: &str) -> Option<usize> {
    match read_line(alloc, nodes, line.as_bytes()) {
        Err(ReportRefusal::NotALine(place)) => Some(place),
        _ => None,
    }
}

// Whether it is read.
fn is_read(alloc: Global, nodes: &Texts, line: &str) -> bool {
    read_line(alloc, nodes, line.as_bytes()).is_ok()
}

// Each line with the place of its first octet that fits no line.
const MISFITS: &[(&str, usize)] = &[
    ("", 0),
    ("7", 1),
    ("07 down\n", 1),
    ("4294967296 down\n", 9),
    ("7  down\n", 2),
    ("7 down", 6),
    ("7 down \n", 6),
    ("7 down\nx", 7),
    ("7 tick C new 1 again 2\n", 7),
    ("7 tick Bo down\n", 9),
    ("7 tick A new 1 and 2\n", 16),
    ("7 link 32 up\n", 8),
    ("7 link-full 1025\n", 15),
    ("7 bad-tag 00ff\n", 14),
    ("7 no-bits 12 3\n", 12),
    ("7 unknown 70000\n", 14),
    ("7 GET_KEY 256\n", 12),
    ("7 made 1 00000000-0000-8001-8000-000000000000\n", 44),
    ("7 show A 00000000-0000-8001-8003-000000000001 made -\n", 31),
    ("7 keys 00000000-0000-8001-8000-000000000001 00f\n", 47),
];

#[test]
fn lines_are_refused_at_their_first_misfit(rt: HostRuntime) -> Result<(), Fail> {
    let nodes = nodes(rt.alloc())?;
    for (line, at) in MISFITS {
        assert_eq!(rt; place(rt.alloc(), &nodes, line), Some(*at), "{line}");
    }
    Ok(())
}

// Lines that are read.
const ROWS: &[&str] = &[
    "7 unknown-stream\n",
    "7 bits 0 high link-full 1024\n",
    "7 tick Bob new 1 again 2\n",
    "7 pass 0 up 1 taken key 00000000-0000-8001-8000-000000000001\n",
    "7 stopped\n",
    "7 keys\n",
    "7 keys 00000000-0000-8001-8000-000000000001 00ff 00000000-0000-8001-8000-000000000002 01\n",
    "7 http A 200 {\"a\": 1}\n",
    "7 GET_KEY 0 5 00ff\n",
    "7 show A 00000000-0000-8001-8000-000000000001 given -\n",
    "7 ledger 0 up received 1 unused 2 spent 3 burnt 4\n",
];

#[test]
fn rows_are_read(rt: HostRuntime) -> Result<(), Fail> {
    let nodes = nodes(rt.alloc())?;
    for line in ROWS {
        assert!(rt; is_read(rt.alloc(), &nodes, line), "{line}");
    }
    Ok(())
}
