// Workers at doors in memory.
ghost use Rattle.std.specs.Prelude.{◌≡◌, [], All, IfOk, length};

use crate::doors::door;
use crate::site::api;
use crate::tellers::Telling;
use edge_io::{Ended, MemConnection, MemListener};
use kme_serve::{Connections, ServeRefusal, Worker, serve};
use qkd_base::Memory;
use std::alloc::Global;
use std::sync::atomic::{AtomicU64, Ordering};
use std::test::*;

const NODES: u8 = 2;

/// Requests, each its connection's only one: alice asks for keys, and bob for a key of alice.
const REQUESTS: &[&str] = &[
    "GET /api/v1/keys/bob/enc_keys HTTP/1.1\r\nX-SAE-ID: alice\r\n\r\n",
    "GET /api/v1/keys/alice/dec_keys?key_ID=00000000-0000-8000-8000-000000000001 HTTP/1.1\r\nX-SAE-ID: bob\r\n\r\n",
];

const NOT_ALLOWED: &str =
    "HTTP/1.1 401 Unauthorized\r\nContent-Type: application/json\r\nContent-Length: 25\r\nConnection: keep-alive\r\n\r\n{\"message\":\"not allowed\"}";

/// What each node answers to these: alice is at home at node 0, bob at node 1.
const RESPONSES: &[&[&str]] = &[
    &[
        "HTTP/1.1 503 Service Unavailable\r\nContent-Type: application/json\r\nContent-Length: 26\r\nConnection: keep-alive\r\n\r\n{\"message\":\"7 keys ready\"}",
        NOT_ALLOWED,
    ],
    &[
        NOT_ALLOWED,
        "HTTP/1.1 503 Service Unavailable\r\nContent-Type: application/json\r\nContent-Length: 27\r\nConnection: keep-alive\r\n\r\n{\"message\":\"11 keys ready\"}",
    ],
];

/// Workers: for each the requests of the connections that wait at its door. How many connections each is to serve, whether
/// all of its own came, how many are reported as served, and how often the managers of both nodes were asked.
struct Case {
    doors: &'static [&'static [usize]],
    connections: u32,
    came: &'static [bool],
    served: Result<u64, ServeRefusal>,
    asked: (u64, u64),
}

const CASES: &[Case] = &[
    Case {
        doors: &[&[0, 1], &[1, 0]],
        connections: 2,
        came: &[true, true],
        served: Ok(4),
        asked: (1, 1),
    },
    Case {
        doors: &[&[0, 0, 0], &[1, 1, 1], &[0, 0, 1]],
        connections: 2,
        came: &[true, true, true],
        served: Ok(6),
        asked: (4, 2),
    },
    Case {
        doors: &[&[0, 0], &[1], &[0, 0]],
        connections: 2,
        came: &[true, false, true],
        served: Err(ServeRefusal::Listen),
        asked: (4, 1),
    },
    Case {
        doors: &[&[], &[1]],
        connections: 1,
        came: &[false, true],
        served: Err(ServeRefusal::Listen),
        asked: (0, 1),
    },
    Case {
        doors: &[&[0]],
        connections: 0,
        came: &[true],
        served: Ok(0),
        asked: (0, 0),
    },
];

// A worker whose door has connections with these requests.
fn worker(alloc: Global, requests: &[usize]) -> Result<Worker<u64, MemListener>, Memory>
    ensures pass { IfOk result (λ worker. worker.pass ≡ 0) }
    ensures door { IfOk result (λ worker. (worker.door.accepted ≡ 0) × (worker.door.done ≡ [])) }
{
    let mut waiting = Vec::new(alloc);
    for request in requests {
        let sent = REQUESTS
            .get(*request)
            .ok_or(Memory)?
            .as_bytes()
            .to_vec(alloc)?;
        waiting.push(MemConnection::new(alloc, sent, Vec::new(alloc), 1000, Vec::new(alloc))?)?;
    }
    Ok(Worker {
        pass: 0,
        door: door(alloc, waiting)?,
        outcome: Ok(()),
    })
}

// A worker for each door.
fn workers(alloc: Global, doors: &[&[usize]]) -> Result<Vec<Worker<u64, MemListener>>, Memory>
    ensures length { IfOk result (λ workers. length workers.items ≡ length doors.now) }
    ensures fresh { IfOk result (λ workers. All (λ worker. (worker.pass ≡ 0) × (worker.door.accepted ≡ 0) × (worker.door.done ≡ [])) workers.items) }
{
    let mut workers = Vec::new(alloc);
    for requests in doors {
        workers.push(worker(alloc, requests)?)?;
    }
    Ok(workers)
}

// Whether the first connections of a worker were answered by its node, each once, and no others.
fn is_answered(worker: &Worker<u64, MemListener>, place: usize, case: &Case) -> bool {
    let node = place % NODES as usize;
    let (Some(requests), Some(responses)) = (case.doors.get(place), RESPONSES.get(node)) else {
        return false;
    };
    let done = worker.door.done();
    done.len() == requests.len().min(case.connections as usize)
        && requests.iter().zip(done).all(|(request, finished)| {
            finished.ended == Ended::Closed
                && responses
                    .get(*request)
                    .is_some_and(|text| finished.sink.taken() == text.as_bytes())
        })
}

#[test]
fn each_worker_serves_its_own_door(rt: HostRuntime) -> Result<(), Fail> {
    let alloc = rt.alloc();
    let api = api(alloc)?;
    for case in CASES {
        let managers = Telling {
            first: AtomicU64::new(0),
            second: AtomicU64::new(0),
        };
        let before = workers(alloc, case.doors)?;
        assert!(rt; !before.is_empty() && before.len() <= 32);
        let connections = Connections::new(case.connections);
        let (served, after) = serve(&rt, alloc, &managers, &api, before, NODES, connections);
        assert_eq!(rt; served, case.served);
        assert_eq!(rt; after.len(), case.came.len());
        for (place, (worker, came)) in after.iter().zip(case.came).enumerate() {
            assert_eq!(rt; worker.outcome.is_ok(), *came);
            assert!(rt; is_answered(worker, place, case));
        }
        assert_eq!(rt; managers.first.load(Ordering::SeqCst), case.asked.0);
        assert_eq!(rt; managers.second.load(Ordering::SeqCst), case.asked.1);
    }
    Ok(())
}

#[test]
fn a_refusal_tells_its_cause(rt: HostRuntime) -> Result<(), Fail> {
    let listen = format!(in rt.alloc(); "{}", ServeRefusal::Listen)?;
    assert_eq!(rt; listen.as_str(), "listen fault");
    let memory = format!(in rt.alloc(); "{}", ServeRefusal::Memory)?;
    assert_eq!(rt; memory.as_str(), "out of memory");
    Ok(())
}
