// Connections of doors in memory.
ghost use Rattle.std.specs.Prelude.{◌≡◌, [], IfOk};

use crate::givers::Giving;
use crate::rows::{MANY, RESPONSES, ROWS, Row};
use crate::site::api;
use edge_io::{Ended, MemConnection, MemFinished, MemListener, MemQueue, MemSocket};
use kme_serve::{Connections, serve_door};
use qkd_base::{Memory, NodeNo};
use std::alloc::Global;
use std::test::Fail;

// More than is written to any connection.
const ROOM: usize = 262144;

// A door where these connections wait.
pub(crate) fn door(alloc: Global, waiting: Vec<MemConnection>) -> Result<MemListener, Memory>
    ensures accepted { IfOk result (λ door. door.accepted ≡ 0) }
    ensures done { IfOk result (λ door. door.done ≡ []) }
{
    let queue = MemQueue::new(alloc, waiting, Vec::new(alloc))?;
    Ok(MemListener::new(MemSocket::new(9000, queue, Vec::new(alloc))))
}

// The connection of a row.
fn connection(alloc: Global, row: &Row) -> Result<MemConnection, Memory> {
    let mut sent = Vec::new(alloc);
    for part in row.sent {
        sent.extend_from_slice(part.as_bytes())?;
    }
    let read_fails = row.read_fails.to_vec(alloc)?;
    let write_fails = row.write_fails.to_vec(alloc)?;
    MemConnection::new(alloc, sent, read_fails, ROOM, write_fails)
}

// Whether it was finished as a row says.
fn is_as_told(alloc: Global, row: &Row, finished: &MemFinished) -> Result<bool, Memory> {
    let mut texts = Vec::new(alloc);
    for response in row.responses {
        texts.extend_from_slice(RESPONSES.get(*response).ok_or(Memory)?.as_bytes())?;
    }
    Ok(
        finished.ended == row.ended
            && finished.sink.taken() == texts.as_slice()
            && finished.sink.pieces() == row.writes,
    )
}

#[test]
fn each_connection_is_answered_and_ends_as_told(rt: HostRuntime) -> Result<(), Fail> {
    let alloc = rt.alloc();
    let api = api(alloc)?;
    let node = NodeNo::new(0).ok_or(Memory)?;
    let mut waiting = Vec::new(alloc);
    for row in ROWS {
        waiting.push(connection(alloc, row)?)?;
    }
    let mut door = door(alloc, waiting)?;
    let mut turns = 0;
    let served = serve_door(
        &rt,
        alloc,
        &Giving { alloc },
        &api,
        &mut turns,
        node,
        &mut door,
        Connections::new(ROWS.len() as u32),
    );
    assert!(rt; served.is_ok());
    assert_eq!(rt; door.done().len(), ROWS.len());
    for (row, finished) in ROWS.iter().zip(door.done()) {
        assert!(rt; is_as_told(alloc, row, finished)?);
    }
    Ok(())
}

// A connection whose peer sends one request 1,001 times.
fn many(alloc: Global) -> Result<MemConnection, Memory> {
    let (request, _, _) = MANY;
    let mut sent = Vec::new(alloc);
    for _ in 0..1001 {
        sent.extend_from_slice(request.as_bytes())?;
    }
    MemConnection::new(alloc, sent, Vec::new(alloc), ROOM, Vec::new(alloc))
}

// Whether it was answered 1,000 times, and then closed.
fn is_answered_often(alloc: Global, finished: &MemFinished) -> Result<bool, Memory> {
    let (_, first, last) = MANY;
    let mut texts = Vec::new(alloc);
    for _ in 0..999 {
        texts.extend_from_slice(RESPONSES.get(first).ok_or(Memory)?.as_bytes())?;
    }
    texts.extend_from_slice(RESPONSES.get(last).ok_or(Memory)?.as_bytes())?;
    Ok(finished.ended == Ended::Closed && finished.sink.taken() == texts.as_slice())
}

#[test]
fn a_connection_closes_behind_its_1000th_response(rt: HostRuntime) -> Result<(), Fail> {
    let alloc = rt.alloc();
    let api = api(alloc)?;
    let node = NodeNo::new(0).ok_or(Memory)?;
    let mut waiting = Vec::new(alloc);
    waiting.push(many(alloc)?)?;
    let mut door = door(alloc, waiting)?;
    let mut turns = 0;
    let served = serve_door(
        &rt,
        alloc,
        &Giving { alloc },
        &api,
        &mut turns,
        node,
        &mut door,
        Connections::forever(),
    );
    assert!(rt; served.is_err());
    assert_eq!(rt; turns, 0);
    assert_eq!(rt; door.done().len(), 1);
    assert!(rt; is_answered_often(alloc, &door.done()[0])?);
    Ok(())
}
