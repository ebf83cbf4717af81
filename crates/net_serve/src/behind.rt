// What is done after the lines of a scenario.
ghost use Rattle.std.specs.Prelude.{◌≡◌, ◌≤◌, Err, IsSome, Result, MatchResult, OnOk, length};
ghost use Rattle.declared_site.specs.SiteOf.{IsDeclared};
ghost use Rattle.net_model.specs.World.{Network, World};
ghost use Rattle.kme_serve.specs.Doors.{HasRoom, IsListenFault, ports_told};
ghost use Rattle.kme_serve.specs.Endless.{endless};
ghost use Rattle.run_types.specs.Texts.{served_text};
ghost use Rattle.run_model.specs.Course.{Serve, served_by};
ghost use Rattle.run_model.specs.Headline.{given_to};
ghost use Rattle.world_state.specs.Sized.{IsSized};
ghost use Rattle.world_state.specs.Rests.{Rests};
ghost use Rattle.world_state.specs.Stands.{Stands};
ghost use Rattle.run_lines.specs.Reporting.{InLines};
ghost use Rattle.net_serve.specs.Behind.{Ends};
ghost use Rattle.net_serve.specs.Lines.{IsServedLine};
ghost use Rattle.net_serve.specs.BenchServing.{IsBlamed};
ghost use Rattle.net_serve.specs.declared.stop.ServeStop.TheVariants.{Listen, Stopped};
ghost use Rattle.world_state.specs.Outside.{outside};

use crate::line::{connections_in_all, write_served};
use crate::over::serve_nodes;
use crate::{ServeStop, Service};
use disk_model::Disk;
use edge_io::{Listener, Ports, Sink};
use kme_serve::ServeRefusal;
use run_lines::Stop;
use source_devices::{Device, Entropy, Wire};
use std::alloc::Global;
use std::sync::Wait;
use std::thread::Threads;
use world_state::State;

/// If the lines of a scenario came to their end, serves the managers of the state that they left, and tells the sink how many connections
/// there were. Otherwise it does nothing more.
pub(crate) fn serve_behind<
    R: Threads + Wait + Sync,
    K: Disk + Drop + Send,
    Q: Device + Drop + Send,
    E: Entropy + Drop + Send,
    X: Wire + Drop + Send,
    W: Sink,
    P: Ports,
>(
    rt: &R,
    alloc: Global,
    lines: Result<(), Stop>,
    state: &mut State<K, Q, E, X>,
    service: Service,
    sink: &mut W,
    ports: &mut P,
) -> Result<(), ServeStop>
where
    P::Door: Drop + Send + Sync,
    <P::Door as Listener>::In: Send,
    <P::Door as Listener>::Out: Send,
    requires ready { OnOk lines ((net : Network) × (w : World) × Stands (outside K.Disk Q.Device E.Entropy X.Wire) state.old net w) }
    requires declared { IsDeclared state.old.site }
    requires sized { IsSized state.old }
    requires workers { (1 ≤ service.workers) × (service.workers ≤ 32) }
    requires connections { service.connections ≤ endless }
    requires port { service.port ≤ 65520 }
    requires asked { HasRoom P.asked ports.old service.workers }
    requires back { HasRoom P.back ports.old service.workers }
    ensures site { state.new.site ≡ state.old.site }
    ensures sized { IsSized state.new }
    ensures ends { (net : Network) (w : World) → MatchResult lines (λ done. Stands (outside K.Disk Q.Device E.Entropy X.Wire) state.old net w) (λ stop. Rests (outside K.Disk Q.Device E.Entropy X.Wire) state.old net w) →
        Ends (outside K.Disk Q.Device E.Entropy X.Wire)
        (λ d. record { port = P.Door.port d; accepted = P.Door.accepted d; finished = P.Door.finished d; waiting = P.Door.waiting d; done = P.Door.done d }) P.Door.faults (IsSome (P.asked ports.old))
        service.workers service.connections service.port state.old state.new net w (ports_told P.asked P.back P.queues ports.old) (ports_told P.asked P.back P.queues ports.new)
        (given_to W.taken W.pieces sink.old) (given_to W.taken W.pieces sink.new) (served_text (served_by (Serve service.workers service.connections service.port) (length state.old.site.nodes))) lines result }
    ensures blame { MatchResult lines (λ done. IsBlamed (W.faults sink.old) (W.faults sink.new) result) (λ stop. (result ≡ Err (Stopped stop)) × (sink.new ≡ sink.old)) }
    ensures lined { MatchResult lines (λ done. InLines W.taken W.pieces IsServedLine sink.old sink.new result) (λ stop. (result ≡ Err (Stopped stop)) × (sink.new ≡ sink.old)) }
    ensures listen { result ≡ Err Listen → IsListenFault P.Door.faults (P.faults ports.old) (P.faults ports.new)
        (ports_told P.asked P.back P.queues ports.old) (ports_told P.asked P.back P.queues ports.new) }
{
    let Service {
        workers,
        connections,
        port,
    } = service;
    if let Err(stop) = lines {
        return Err(ServeStop::Stopped(stop));
    }
    let all = connections_in_all(&state.site, workers, connections);
    match serve_nodes(rt, alloc, state, workers, connections, port, ports) {
        Ok(()) => {}
        Err(ServeRefusal::Listen) => return Err(ServeStop::Listen),
        Err(ServeRefusal::Memory) => return Err(ServeStop::Stopped(Stop::Memory)),
    }
    write_served(alloc, all, sink)
}
