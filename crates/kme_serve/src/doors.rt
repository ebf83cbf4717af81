// The calls that open and close the listeners of the workers.
ghost use Rattle.std.specs.Prelude.{◌≡◌, ◌+◌, ◌%◌, ◌<◌, ◌≤◌, ℕ, [], Some, Ok, Err, IfOk, OnErr, IsSome, MatchResult, length, min, slice_get};
ghost use Rattle.edge_io.specs.Writes.{Adds};
ghost use Rattle.kme_serve.specs.Doors.{HasRoom, AreOpened, WereOpened, IsListenFault, ports_of, ports_told, telling};
ghost use Rattle.kme_serve.specs.declared.port_refusal.DoorRefusal.TheVariants as refusals;

use crate::DoorRefusal;
use crate::port_open::open_all;
use edge_io::{Failed, Ports};
use std::alloc::Global;

/// Opens a listener for each worker. Worker w serves node w modulo `nodes`, at port `port` plus the node's number. Each port is
/// opened once, in rising order. Then the workers that share a node's port get twins (second listeners) of its listener. So the
/// connections that wait at a port go to the workers of its node, a queue to each, in their order. If a port or a listener
/// fails, all listeners opened so far are given back.
pub fn open_doors<P: Ports>(
    alloc: Global,
    ports: &mut P,
    port: u16,
    workers: u32,
    nodes: u32,
) -> Result<Vec<P::Door>, DoorRefusal>
where
    P::Door: Drop,
    requires nodes { 0 < nodes }
    requires ports { port + min workers nodes ≤ 65536 }
    requires asked { HasRoom P.asked ports.old workers }
    requires back { HasRoom P.back ports.old workers }
    ensures opened { IfOk result (λ doors.
        AreOpened (telling P.Door.port P.Door.accepted P.Door.finished P.Door.waiting P.Door.done) P.Door.faults (IsSome (P.asked ports.old)) (P.queues ports.old) port workers nodes doors.items) }
    ensures asked { IfOk result (λ doors. Adds (P.asked ports.old) (P.asked ports.new) (ports_of port workers nodes)) }
    ensures same { IfOk result (λ doors. (P.back ports.new ≡ P.back ports.old) × (P.faults ports.new ≡ P.faults ports.old)) }
    ensures room { IfOk result (λ doors. HasRoom P.back ports.new workers) }
    ensures memory { result ≡ Err refusals.Memory → ports.new ≡ ports.old }
    ensures listen { result ≡ Err refusals.Listen →
        WereOpened (telling P.Door.port P.Door.accepted P.Door.finished P.Door.waiting P.Door.done) P.Door.faults port workers nodes
        (ports_told P.asked P.back P.queues ports.old) (ports_told P.asked P.back P.queues ports.new) }
    ensures fault { result ≡ Err refusals.Listen → IsListenFault P.Door.faults (P.faults ports.old) (P.faults ports.new)
        (ports_told P.asked P.back P.queues ports.old) (ports_told P.asked P.back P.queues ports.new) }
{
    let mut doors = match Vec::with_capacity(alloc, workers as usize) {
        Ok(doors) => doors,
        Err(_) => return Err(DoorRefusal::Memory),
    };
    match open_all(ports, port, workers, nodes, &mut doors) {
        Ok(()) => Ok(doors),
        Err(Failed) => {
            shut_doors(ports, doors);
            Err(DoorRefusal::Listen)
        }
    }
}

/// Gives listeners back, in their order.
pub fn shut_doors<P: Ports>(ports: &mut P, doors: Vec<P::Door>)
where
    P::Door: Drop,
    requires room { HasRoom P.back ports.old (length doors.items) }
    ensures back { Adds (P.back ports.old) (P.back ports.new) doors.items }
    ensures same { (P.asked ports.new ≡ P.asked ports.old) × (P.faults ports.new ≡ P.faults ports.old) }
{
    for door in doors {
        ports.shut(door);
    }
}
