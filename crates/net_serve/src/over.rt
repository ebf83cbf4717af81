// Serving the managers of a state over ports.
ghost use Rattle.std.specs.Prelude.{◌≡◌, ◌<◌, ◌≤◌, Err, IsSome, length};
ghost use Rattle.declared_site.specs.SiteOf.{IsDeclared};
ghost use Rattle.net_model.specs.World.{Network, World};
ghost use Rattle.kme_serve.specs.Doors.{HasRoom, IsListenFault, ports_told};
ghost use Rattle.kme_serve.specs.declared.refusal.ServeRefusal.TheVariants as refusals;
ghost use Rattle.kme_serve.specs.Endless.{endless};
ghost use Rattle.world_state.specs.Stands.{Stands};
ghost use Rattle.net_serve.specs.Behind.{IsServed, served_as};
ghost use Rattle.world_state.specs.Outside.{outside};

use crate::serve;
use disk_model::Disk;
use edge_io::{Listener, Ports};
use kme_serve::{Connections, DoorRefusal, ServeRefusal, open_doors, shut_doors};
use source_devices::{Device, Entropy, Wire};
use std::alloc::Global;
use std::sync::Wait;
use std::thread::Threads;
use world_state::State;

// Opens a listener for each worker before any of them accepts, and gives each listener back.
fn serve_over<
    R: Threads + Wait + Sync,
    K: Disk + Drop + Send,
    Q: Device + Drop + Send,
    E: Entropy + Drop + Send,
    X: Wire + Drop + Send,
    P: Ports,
>(
    rt: &R,
    alloc: Global,
    state: &mut State<K, Q, E, X>,
    workers: u32,
    connections: Connections,
    port: u16,
    ports: &mut P,
) -> Result<(), ServeRefusal>
where
    P::Door: Drop + Send + Sync,
    <P::Door as Listener>::In: Send,
    <P::Door as Listener>::Out: Send,
    requires ready { (net : Network) × (w : World) × Stands (outside K.Disk Q.Device E.Entropy X.Wire) state.old net w }
    requires declared { IsDeclared state.old.site }
    requires some { 0 < length state.old.site.nodes }
    requires workers { (1 ≤ workers) × (workers ≤ 32) }
    requires connections { connections ≤ endless }
    requires port { port ≤ 65520 }
    requires asked { HasRoom P.asked ports.old workers }
    requires back { HasRoom P.back ports.old workers }
    ensures site { state.new.site ≡ state.old.site }
    ensures served { (net : Network) (w : World) → Stands (outside K.Disk Q.Device E.Entropy X.Wire) state.old net w →
        IsServed (outside K.Disk Q.Device E.Entropy X.Wire)
        (λ d. record { port = P.Door.port d; accepted = P.Door.accepted d; finished = P.Door.finished d; waiting = P.Door.waiting d; done = P.Door.done d }) P.Door.faults (IsSome (P.asked ports.old))
        workers connections port state.old state.new net w (ports_told P.asked P.back P.queues ports.old) (ports_told P.asked P.back P.queues ports.new)
        (served_as result) }
    ensures listen { result ≡ Err refusals.Listen → IsListenFault P.Door.faults (P.faults ports.old) (P.faults ports.new)
        (ports_told P.asked P.back P.queues ports.old) (ports_told P.asked P.back P.queues ports.new) }
{
    let nodes = state.site.nodes.len() as u32;
    let doors = match open_doors(alloc, ports, port, workers, nodes) {
        Ok(doors) => doors,
        Err(DoorRefusal::Listen) => return Err(ServeRefusal::Listen),
        Err(DoorRefusal::Memory) => return Err(ServeRefusal::Memory),
    };
    let (result, doors) = serve(rt, alloc, state, doors, connections);
    shut_doors(ports, doors);
    result
}

/// Serves the managers of a state over the ports from `port` on. Each worker serves `connections` connections at its own listener. Its node
/// is the worker's number modulo the number of nodes. If there is no node, no port is touched.
pub(crate) fn serve_nodes<
    R: Threads + Wait + Sync,
    K: Disk + Drop + Send,
    Q: Device + Drop + Send,
    E: Entropy + Drop + Send,
    X: Wire + Drop + Send,
    P: Ports,
>(
    rt: &R,
    alloc: Global,
    state: &mut State<K, Q, E, X>,
    workers: u32,
    connections: Connections,
    port: u16,
    ports: &mut P,
) -> Result<(), ServeRefusal>
where
    P::Door: Drop + Send + Sync,
    <P::Door as Listener>::In: Send,
    <P::Door as Listener>::Out: Send,
    requires ready { (net : Network) × (w : World) × Stands (outside K.Disk Q.Device E.Entropy X.Wire) state.old net w }
    requires declared { IsDeclared state.old.site }
    requires workers { (1 ≤ workers) × (workers ≤ 32) }
    requires connections { connections ≤ endless }
    requires port { port ≤ 65520 }
    requires asked { HasRoom P.asked ports.old workers }
    requires back { HasRoom P.back ports.old workers }
    ensures site { state.new.site ≡ state.old.site }
    ensures served { (net : Network) (w : World) → Stands (outside K.Disk Q.Device E.Entropy X.Wire) state.old net w →
        IsServed (outside K.Disk Q.Device E.Entropy X.Wire)
        (λ d. record { port = P.Door.port d; accepted = P.Door.accepted d; finished = P.Door.finished d; waiting = P.Door.waiting d; done = P.Door.done d }) P.Door.faults (IsSome (P.asked ports.old))
        workers connections port state.old state.new net w (ports_told P.asked P.back P.queues ports.old) (ports_told P.asked P.back P.queues ports.new)
        (served_as result) }
    ensures listen { result ≡ Err refusals.Listen → IsListenFault P.Door.faults (P.faults ports.old) (P.faults ports.new)
        (ports_told P.asked P.back P.queues ports.old) (ports_told P.asked P.back P.queues ports.new) }
{
    if state.site.nodes.len() == 0 {
        return Ok(());
    }
    serve_over(rt, alloc, state, workers, connections, port, ports)
}
