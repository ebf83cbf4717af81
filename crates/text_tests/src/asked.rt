use asked_lines::{KeptLines, tell_asked};
use edge_io::{MemSink, Sink};
use qkd_base::{Items, Text, Texts};
use run_lines::Stop;
use std::alloc::Global;
use std::test::Fail;

// The nodes A and again.
fn nodes(alloc: Global) -> Result<Texts, Fail> {
    let mut nodes = Items::new(alloc);
    nodes.push(Text::from_string(String::from_str(alloc, "A")?))?;
    nodes.push(Text::from_string(String::from_str(alloc, "again")?))?;
    Ok(nodes)
}

// Lines of reports, and whether a person asked for them.
const LINES: &[(&str, bool)] = &[
    ("7 bits 0 low 0\n", false),
    ("7 bits 0 high no-bits\n", true),
    ("7 bits 0 high link-full 1024\n", true),
    ("8 made 1 00000000-0000-8000-8000-000000000001\n", true),
    ("9 tick A new 1 again 0\n", false),
    ("9 tick again new 0 again 2\n", false),
    ("9 tick again down\n", true),
    ("9 tick again journal-full 33554000 800\n", true),
    ("9 idle again\n", false),
    ("9 short 0 up 554 546 1024\n", true),
    ("9 sent 0 up 0 8 58\n", false),
    ("9 unsent 0 up 8 wire-fault\n", true),
    (
        "10 pass 0 up 0 taken key 00000000-0000-8000-8000-000000000001\n",
        false,
    ),
    (
        "10 pass 0 up 0 again key 00000000-0000-8000-8000-000000000001\n",
        false,
    ),
    ("10 pass 0 up 9 no-frame 1\n", true),
    (
        "11 flip 0 up 0 7 bad-tag 0000000000000000 0000000000000001\n",
        true,
    ),
    (
        "12 forge 0 up again key 00000000-0000-8000-8000-000000000001\n",
        true,
    ),
    ("13 crashed\n", false),
    ("13 down\n", true),
    ("14 started\n", false),
    ("14 up\n", false),
    ("14 stopped\n", true),
    ("14 foreign 5\n", true),
    ("15 armed\n", false),
    ("16 link 0 up\n", false),
    ("17 keys 00000000-0000-8000-8000-000000000001 00ff\n", true),
    ("18 few 0\n", true),
    ("19 status 2\n", true),
    ("20 http A 503 {\"message\":\"0 keys ready\"}\n", true),
    ("21 CLOSE 0\n", true),
    (
        "22 show A 00000000-0000-8000-8000-000000000001 absent\n",
        true,
    ),
    ("23 ledger 0 up received 0 unused 0 spent 0 burnt 0\n", true),
    ("no line of a report\n", true),
];

#[test]
fn lines_that_were_asked_for_are_written(rt: HostRuntime) -> Result<(), Fail> {
    let alloc = rt.alloc();
    let nodes = nodes(alloc)?;
    let mut kept = KeptLines::new(alloc);
    let mut wanted = String::new(alloc);
    let mut pieces = 0usize;
    for (line, is_asked) in LINES {
        assert!(rt; kept.write_all(line.as_bytes()).is_ok());
        if *is_asked {
            wanted.push_str(line)?;
            pieces = pieces.saturating_add(1);
        }
    }
    // A sink with room for two reports.
    let room = wanted.len().saturating_mul(2);
    let mut sink = MemSink::new(alloc, room, Vec::new(alloc))?;
    assert!(rt; tell_asked(alloc, &nodes, &kept, Ok(()), &mut sink).is_ok());
    assert_eq!(rt; sink.taken(), wanted.as_bytes());
    assert_eq!(rt; sink.pieces(), pieces);
    let forged = tell_asked(alloc, &nodes, &kept, Err(Stop::Forged(9)), &mut sink);
    assert_eq!(rt; forged, Err(Stop::Forged(9)));
    assert_eq!(rt; sink.pieces(), pieces.saturating_mul(2));
    let full = tell_asked(alloc, &nodes, &kept, Ok(()), &mut sink);
    assert_eq!(rt; full, Err(Stop::WriteFault));
    Ok(())
}
