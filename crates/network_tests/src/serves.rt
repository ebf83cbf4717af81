// Scenarios whose managers are served.
ghost use Rattle.std.specs.Prelude.{◌≡◌, [], IfOk};

use crate::bench::{FirstParts, is_whole};
use crate::run::{ROOM, over_ports, source};
use edge_io::{
    Ended, MemConnection, MemListener, MemPorts, MemQueue, MemSink, MemSocket, OpenGate,
};
use qkd_base::Memory;
use qkd_network::Status;
use std::alloc::Global;
use std::sync::Wait;
use std::test::Fail;
use std::thread::Threads;

// What waits for one listener: what the peer of each connection sends, and which calls of the listener fail.
type Queue = (&'static [&'static str], &'static [u64]);

// A port that can be opened: what waits for its listener, and for each twin of that.
type Socket = (u16, &'static [Queue]);

// A call, and what comes of it.
struct Row {
    words: &'static str,
    text: &'static str,
    sockets: &'static [Socket],
    // Which openings fail, and which writes.
    open_fails: &'static [u64],
    write_fails: &'static [u64],
    status: Status,
    report: &'static str,
    // The ports that were asked for, and what was written to the connections of each listener that came back.
    asked: &'static [u16],
    written: &'static [&'static [&'static str]],
}

// A request for one key.
const GET: &str =
    "GET /api/v1/keys/bob/enc_keys?number=1&size=256 HTTP/1.1\r\nHost: kme-a.example\r\nUser-Agent: curl/8.5.0\r\nAccept: */*\r\nX-SAE-ID: alice\r\n\r\n";

// The response with the first key, and that with the second.
const FIRST: &str =
    "HTTP/1.1 200 OK\r\nContent-Type: application/json\r\nContent-Length: 113\r\nConnection: keep-alive\r\n\r\n{\"keys\":[{\"key\":\"AAECAwQFBgcICQoLDA0ODxAREhMUFRYXGBkaGxwdHh8=\",\"key_ID\":\"00000000-0000-8000-8000-000000000001\"}]}";

const SECOND: &str =
    "HTTP/1.1 200 OK\r\nContent-Type: application/json\r\nContent-Length: 113\r\nConnection: keep-alive\r\n\r\n{\"keys\":[{\"key\":\"ICEiIyQlJicoKSorLC0uLzAxMjM0NTY3ODk6Ozw9Pj8=\",\"key_ID\":\"00000000-0000-8000-8000-000000000002\"}]}";

const ONE_NODE: &str = "node A\nend\n";

const TWO_NODES: &str = "node A\nnode B\nend\n";

const ROWS: &[Row] = &[
    // Two workers at one node, each with a connection that ends at once.
    Row {
        words: "serve 2 1 9000",
        text: ONE_NODE,
        sockets: &[(9000, &[(&[""], &[]), (&[""], &[])])],
        open_fails: &[],
        write_fails: &[],
        status: Status::Done,
        report: "served 2\n",
        asked: &[9000],
        written: &[&[""], &[""]],
    },
    // The first opening fails.
    Row {
        words: "serve 2 1 9000",
        text: ONE_NODE,
        sockets: &[(9000, &[(&[""], &[]), (&[""], &[])])],
        open_fails: &[0],
        write_fails: &[],
        status: Status::ListenFault,
        report: "",
        asked: &[9000],
        written: &[],
    },
    // The twin fails.
    Row {
        words: "serve 2 1 9000",
        text: ONE_NODE,
        sockets: &[(9000, &[(&[""], &[0]), (&[""], &[])])],
        open_fails: &[],
        write_fails: &[],
        status: Status::ListenFault,
        report: "",
        asked: &[9000],
        written: &[&[]],
    },
    // The second opening fails.
    Row {
        words: "serve 2 1 9000",
        text: TWO_NODES,
        sockets: &[(9000, &[(&[""], &[])]), (9001, &[(&[""], &[])])],
        open_fails: &[1],
        write_fails: &[],
        status: Status::ListenFault,
        report: "",
        asked: &[9000, 9001],
        written: &[&[]],
    },
    // No connection waits for the second worker.
    Row {
        words: "serve 2 1 9000",
        text: TWO_NODES,
        sockets: &[(9000, &[(&[""], &[])]), (9001, &[(&[], &[])])],
        open_fails: &[],
        write_fails: &[],
        status: Status::ListenFault,
        report: "",
        asked: &[9000, 9001],
        written: &[&[""], &[]],
    },
    // There is no node.
    Row {
        words: "serve 2 1 9000",
        text: "end\n",
        sockets: &[(9000, &[(&[""], &[]), (&[""], &[])])],
        open_fails: &[],
        write_fails: &[],
        status: Status::Done,
        report: "served 0\n",
        asked: &[],
        written: &[],
    },
    // There is no end to the connections of no node.
    Row {
        words: "serve 2 forever 9000",
        text: "end\n",
        sockets: &[(9000, &[(&[""], &[])])],
        open_fails: &[],
        write_fails: &[],
        status: Status::Done,
        report: "served 0\n",
        asked: &[],
        written: &[],
    },
    // Three workers at two nodes.
    Row {
        words: "serve 3 2 9000",
        text: TWO_NODES,
        sockets: &[
            (9001, &[(&["", ""], &[])]),
            (9000, &[(&["", ""], &[]), (&["", ""], &[])]),
        ],
        open_fails: &[],
        write_fails: &[],
        status: Status::Done,
        report: "served 6\n",
        asked: &[9000, 9001],
        written: &[&["", ""], &["", ""], &["", ""]],
    },
    // The line is not written.
    Row {
        words: "serve 1 1 9000",
        text: TWO_NODES,
        sockets: &[(9000, &[(&[""], &[])])],
        open_fails: &[],
        write_fails: &[0],
        status: Status::WriteFault,
        report: "",
        asked: &[9000],
        written: &[&[""]],
    },
];

fn queue(alloc: Global, queue: &Queue) -> Result<MemQueue, Memory> {
    let (sent, fails) = queue;
    let mut waiting = Vec::new(alloc);
    for text in *sent {
        let octets = text.as_bytes().to_vec(alloc)?;
        let connection = MemConnection::new(alloc, octets, Vec::new(alloc), ROOM, Vec::new(alloc))?;
        waiting.push(connection)?;
    }
    Ok(MemQueue::new(alloc, waiting, fails.to_vec(alloc)?)?)
}

fn socket(alloc: Global, socket: &Socket) -> Result<MemSocket, Memory> {
    let (port, queues) = socket;
    let mut twins = Vec::new(alloc);
    let mut first = MemQueue::new(alloc, Vec::new(alloc), Vec::new(alloc))?;
    for (place, waiting) in queues.iter().enumerate() {
        let waiting = queue(alloc, waiting)?;
        if place == 0 {
            first = waiting;
        } else {
            twins.push(waiting)?;
        }
    }
    Ok(MemSocket::new(*port, first, twins))
}

fn ports(alloc: Global, sockets: &[Socket], fails: &[u64]) -> Result<MemPorts, Memory>
    ensures { IfOk result (λ ports. (ports.asked ≡ []) × (ports.back ≡ [])) }
{
    let mut all = Vec::new(alloc);
    for one in sockets {
        all.push(socket(alloc, one)?)?;
    }
    MemPorts::new(alloc, all, fails.to_vec(alloc)?)
}

// Whether its connections ended by themselves, when this was written to them.
fn has_written(listener: &MemListener, written: &[&str]) -> bool {
    listener.done().len() == written.len()
        && listener.done().iter().zip(written).all(|(finished, text)| {
            finished.ended == Ended::Closed && finished.sink.taken() == text.as_bytes()
        })
}

// Runs a call over ports in memory, and notes what comes otherwise.
fn compare<R: Threads + Wait + Sync>(
    rt: &R,
    alloc: Global,
    row: &Row,
    report: &str,
    wrong: &mut String,
) -> Result<(), Memory> {
    let mut source = source(alloc, row.text)?;
    let mut sink = MemSink::new(alloc, ROOM, row.write_fails.to_vec(alloc)?)?;
    let mut ports = ports(alloc, row.sockets, row.open_fails)?;
    let first = FirstParts::new(alloc, 8)?;
    let (status, bench) = over_ports(
        rt,
        alloc,
        &OpenGate,
        row.words,
        first,
        &mut source,
        &mut sink,
        &mut ports,
    )?;
    let is_right = status == row.status
        && sink.taken() == report.as_bytes()
        && ports.asked() == row.asked
        && ports.back().len() == row.written.len()
        && ports
            .back()
            .iter()
            .zip(row.written)
            .all(|(listener, written)| has_written(listener, written))
        && is_whole(&bench);
    if !is_right {
        let taken = String::from_utf8_lossy(alloc, sink.taken())?;
        let said = format!(in alloc;
            "{} {:?}: {status}, {} of {:?} came back, {taken:?}\n",
            row.words,
            row.text,
            ports.back().len(),
            ports.asked()
        )?;
        wrong.push_str(said.as_str())?;
    }
    Ok(())
}

#[test]
fn each_port_is_opened_once_and_comes_back(rt: HostRuntime) -> Result<(), Fail> {
    let alloc = rt.alloc();
    let mut wrong = String::new(alloc);
    for row in ROWS {
        compare(&rt, alloc, row, row.report, &mut wrong)?;
    }
    assert_eq!(rt; wrong.as_str(), "");
    Ok(())
}

// Two keys for alice and bob, and the report of that.
const KEYS: &str = "node A\n\
    node B\n\
    link A B\n\
    sae alice A\n\
    sae bob B\n\
    allow alice bob\n\
    bits 0 both 2\n\
    fill alice bob 256 2\n\
    settle 10\n\
    end\n";

const KEYS_REPORT: &str = "7 bits 0 low 0\n\
    7 bits 0 high 0\n\
    7 bits 0 low 1\n\
    7 bits 0 high 1\n\
    8 made 2 00000000-0000-8000-8000-000000000001\n\
    9 tick A new 2 again 0\n\
    9 sent 0 up 0 8 58\n\
    9 sent 0 up 1 74 58\n\
    9 pass 0 up 0 taken key 00000000-0000-8000-8000-000000000001\n\
    9 pass 0 up 1 taken key 00000000-0000-8000-8000-000000000002\n\
    9 tick B new 4 again 0\n\
    9 sent 0 down 0 8 17\n\
    9 sent 0 down 1 33 17\n\
    9 sent 0 down 2 58 36\n\
    9 sent 0 down 3 102 36\n\
    9 pass 0 down 0 taken ack 00000000-0000-8000-8000-000000000001\n\
    9 pass 0 down 1 taken ack 00000000-0000-8000-8000-000000000002\n\
    9 pass 0 down 2 taken stored 00000000-0000-8001-8002-000000000001\n\
    9 pass 0 down 3 taken stored 00000000-0000-8001-8002-000000000002\n\
    9 tick A new 2 again 0\n\
    9 sent 0 up 2 140 17\n\
    9 sent 0 up 3 165 17\n\
    9 pass 0 up 2 taken ack 00000000-0000-8001-8002-000000000001\n\
    9 pass 0 up 3 taken ack 00000000-0000-8001-8002-000000000002\n";

// The keys go to two connections of one worker, and then there is none that waits, which is a failure where there is no end to them.
// The report is what stands behind that of the keys.
const HANDED: &[Row] = &[
    Row {
        words: "serve 1 2 9000",
        text: KEYS,
        sockets: &[(9000, &[(&[GET, GET], &[])])],
        open_fails: &[],
        write_fails: &[],
        status: Status::Done,
        report: "served 2\n",
        asked: &[9000],
        written: &[&[FIRST, SECOND]],
    },
    Row {
        words: "serve 1 forever 9000",
        text: KEYS,
        sockets: &[(9000, &[(&[GET, GET], &[])])],
        open_fails: &[],
        write_fails: &[],
        status: Status::ListenFault,
        report: "",
        asked: &[9000],
        written: &[&[FIRST, SECOND]],
    },
    Row {
        words: "serve 1 3 9000",
        text: KEYS,
        sockets: &[(9000, &[(&[GET, GET], &[])])],
        open_fails: &[],
        write_fails: &[],
        status: Status::ListenFault,
        report: "",
        asked: &[9000],
        written: &[&[FIRST, SECOND]],
    },
];

#[test]
fn connections_get_keys(rt: HostRuntime) -> Result<(), Fail> {
    let alloc = rt.alloc();
    let mut wrong = String::new(alloc);
    for row in HANDED {
        let report = format!(in alloc; "{KEYS_REPORT}{}", row.report)?;
        compare(&rt, alloc, row, report.as_str(), &mut wrong)?;
    }
    assert_eq!(rt; wrong.as_str(), "");
    Ok(())
}
