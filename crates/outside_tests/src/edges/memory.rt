// The forms in memory.
ghost use Rattle.std.specs.Prelude.{◌≡◌, [], OnOk};

use edge_io::{
    Ended, Failed, Listener, MemConnection, MemListener, MemPorts, MemQueue, MemSink, MemSocket,
    MemSource, Ports, Sink, Source,
};
use qkd_base::Memory;
use std::alloc::Global;
use std::process::Abort;

// A source of three bytes, whose second call fails.
fn source(alloc: Global) -> Result<MemSource, Memory> {
    let bytes = b"pqr".to_vec(alloc)?;
    Ok(MemSource::new(bytes, vec![in alloc; 1u64]?))
}

#[test]
fn listed_reads_fail(rt: HostRuntime) {
    let Ok(mut source) = source(rt.alloc()) else {
        panic!(rt; "no memory");
    };
    let mut buffer = [0u8; 2];
    assert!(rt; source.read(&mut buffer) == Ok(2));
    assert!(rt; source.read(&mut buffer) == Err(Failed));
    assert!(rt; buffer == *b"pq");
    assert!(rt; source.left() == b"r".as_slice());
    assert!(rt; source.read(&mut buffer) == Ok(1));
    assert!(rt; buffer == *b"rq");
    assert!(rt; source.read(&mut buffer) == Ok(0));
}

// A sink with room for four bytes, whose second call fails.
fn sink(alloc: Global) -> Result<MemSink, Memory> {
    MemSink::new(alloc, 4, vec![in alloc; 1u64]?)
}

#[test]
fn listed_writes_fail(rt: HostRuntime) {
    let Ok(mut sink) = sink(rt.alloc()) else {
        panic!(rt; "no memory");
    };
    assert!(rt; sink.write_all(b"ab") == Ok(()));
    assert!(rt; sink.write_all(b"c") == Err(Failed));
    assert!(rt; sink.write_all(b"cd") == Ok(()));
    assert!(rt; sink.write_all(b"e") == Err(Failed));
    assert!(rt; sink.taken() == b"abcd".as_slice());
    assert!(rt; sink.pieces() == 2);
}

// A queue of one connection, whose peer sends one octet and has room for one.
fn one(alloc: Global, octet: u8) -> Result<MemQueue, Memory> {
    let sent = vec![in alloc; octet]?;
    let connection = MemConnection::new(alloc, sent, Vec::new(alloc), 1, Vec::new(alloc))?;
    let mut waiting = Vec::new(alloc);
    waiting.push(connection)?;
    MemQueue::new(alloc, waiting, Vec::new(alloc))
}

// One port, whose listener has one twin.
fn sockets(alloc: Global) -> Result<Vec<MemSocket>, Memory> {
    let mut twins = Vec::new(alloc);
    twins.push(one(alloc, b'b')?)?;
    let mut sockets = Vec::new(alloc);
    sockets.push(MemSocket::new(9000, one(alloc, b'a')?, twins))?;
    Ok(sockets)
}

// Sends the first connection its octet back, and finishes it.
fn echo(rt: &impl Abort, door: &mut MemListener, octet: u8) -> Result<(), Failed>
    requires none_accepted { door.old.accepted ≡ 0 }
    requires none_done { door.old.done ≡ [] }
    ensures one_accepted { OnOk result (door.new.accepted ≡ 1) }
{
    let mut buffer = [0u8; 4];
    let (mut source, mut sink) = door.accept()?;
    assert!(rt; source.read(&mut buffer) == Ok(1));
    assert!(rt; buffer[0] == octet);
    assert!(rt; sink.write_all(&buffer[..1]) == Ok(()));
    door.finish(source, sink, Ended::Closed);
    Ok(())
}

// Whether a listener has finished one connection, which was echoed.
fn has_echoed(door: &MemListener, octet: u8) -> bool {
    match door.done() {
        [done] => {
            done.source.left().is_empty()
                && done.sink.taken() == [octet].as_slice()
                && done.ended == Ended::Closed
        }
        _ => false,
    }
}

#[test]
fn a_port_is_opened_once_and_has_one_queue_a_listener(rt: HostRuntime) {
    let alloc = rt.alloc();
    let (Ok(sockets), Ok(fails)) = (sockets(alloc), vec![in alloc; 0u64]) else {
        panic!(rt; "no memory");
    };
    let Ok(mut ports) = MemPorts::new(alloc, sockets, fails) else {
        panic!(rt; "no memory");
    };
    assert!(rt; ports.open(9000).is_err());
    let Ok(mut door) = ports.open(9000) else {
        panic!(rt; "not opened");
    };
    assert!(rt; ports.open(9000).is_err());
    assert!(rt; ports.open(9001).is_err());
    let Ok(mut twin) = door.twin() else {
        panic!(rt; "no twin");
    };
    assert!(rt; door.twin().is_err());
    let Ok(()) = echo(&rt, &mut door, b'a') else {
        panic!(rt; "no connection");
    };
    let Ok(()) = echo(&rt, &mut twin, b'b') else {
        panic!(rt; "no connection");
    };
    assert!(rt; door.accept().is_err());
    ports.shut(door);
    ports.shut(twin);
    assert!(rt; ports.asked() == [9000, 9000, 9000, 9001].as_slice());
    match ports.back() {
        [first, second] => assert!(rt; has_echoed(first, b'a') && has_echoed(second, b'b')),
        _ => panic!(rt; "not two"),
    }
}
