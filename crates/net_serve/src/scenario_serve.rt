// A scenario over a bench, and its managers over ports.
ghost use Rattle.std.specs.Prelude.{◌≡◌, ◌⊎◌, ◌≤◌, Err, IsSome};
ghost use Rattle.std.specs.List.{All};
ghost use Rattle.run_model.specs.Headline.{given_to};
ghost use Rattle.kme_serve.specs.Doors.{HasRoom, IsListenFault, ports_told};
ghost use Rattle.kme_serve.specs.Endless.{endless};
ghost use Rattle.run_ops.specs.Runnable.{IsRunnable};
ghost use Rattle.run_lines.specs.Reporting.{InLines};
ghost use Rattle.net_world.specs.Laid.{IsWhole};
ghost use Rattle.net_world.specs.New.{IsNew};
ghost use Rattle.net_serve.specs.Lines.{IsServeLine};
ghost use Rattle.net_serve.specs.BenchServing.{HasServedHeadlines, IsBlamed, WasLeft, ended};
ghost use Rattle.net_serve.specs.declared.stop.ServeStop.TheVariants.{Listen};
ghost use Rattle.world_state.specs.Outside.{outside};

use crate::behind::serve_behind;
use crate::{ServeStop, Service, law_bench_serves};
use disk_model::Disk;
use edge_io::{Gate, Listener, Ports, Sink};
use law_run::law_tasks_are_run;
use net_world::{Bench, Left, law_bench_begins, put_back, run_out};
use run_lines::Stop;
use run_types::Scenario;
use source_devices::{Device, Entropy, Wire};
use std::alloc::Global;
use std::sync::Wait;
use std::thread::Threads;

/// Runs a scenario over a new bench, and reports it to the sink. The service's workers do its blocks; the gate can hold each of them. If all
/// lines are done, the managers of its nodes are then served over ports. Each worker serves its connections, in sequence, at a listener of
/// its own, for the node whose number is the worker's modulo the number of nodes. All listeners are open before a worker accepts, and each
/// port is opened once. In the end the sink takes the number of connections served. The bench has all its parts back, and the ports all
/// listeners. If memory runs out before the first line, bench, sink and ports are as they were.
pub fn run_serve<
    R: Threads + Wait + Sync,
    G: Gate,
    K: Disk + Drop + Send,
    Q: Device + Drop + Send,
    E: Entropy + Drop + Send,
    X: Wire + Drop + Send,
    W: Sink,
    P: Ports,
>(
    rt: &R,
    alloc: Global,
    gate: &G,
    scenario: Scenario,
    service: Service,
    sink: &mut W,
    bench: &mut Bench<K, Q, E, X>,
    ports: &mut P,
) -> Result<(), ServeStop>
where
    P::Door: Drop + Send + Sync,
    <P::Door as Listener>::In: Send,
    <P::Door as Listener>::Out: Send,
    requires runnable { IsRunnable scenario }
    requires workers { (1 ≤ service.workers) × (service.workers ≤ 32) }
    requires connections { service.connections ≤ endless }
    requires port { service.port ≤ 65520 }
    requires fresh { IsNew (outside K.Disk Q.Device E.Entropy X.Wire) bench.old }
    requires unarmed { All (λ k. (K.armings k).count ≡ 0) bench.old.disks.items }
    requires asked { HasRoom P.asked ports.old service.workers }
    requires back { HasRoom P.back ports.old service.workers }
    ensures headline { WasLeft bench.old bench.new sink.old sink.new ports.old ports.new result
        ⊎ HasServedHeadlines (outside K.Disk Q.Device E.Entropy X.Wire)
        (λ d. record { port = P.Door.port d; accepted = P.Door.accepted d; finished = P.Door.finished d; waiting = P.Door.waiting d; done = P.Door.done d }) P.Door.faults (IsSome (P.asked ports.old))
        bench.old bench.new (ports_told P.asked P.back P.queues ports.old) (ports_told P.asked P.back P.queues ports.new)
        service.workers service.connections service.port scenario (given_to W.taken W.pieces sink.old) (given_to W.taken W.pieces sink.new) (ended result) }
    ensures whole { IsWhole bench.new }
    ensures blame { IsBlamed (W.faults sink.old) (W.faults sink.new) result }
    ensures lined { InLines W.taken W.pieces (IsServeLine scenario.site.nodes) sink.old sink.new result }
    ensures listen { result ≡ Err Listen → IsListenFault P.Door.faults (P.faults ports.old) (P.faults ports.new)
        (ports_told P.asked P.back P.queues ports.old) (ports_told P.asked P.back P.queues ports.new) }
{
    law_tasks_are_run();
    law_bench_begins::<K, Q, E, X>();
    law_bench_serves::<K, Q, E, X>();
    match run_out(rt, alloc, gate, scenario, service.workers, sink, bench) {
        Err(_) => Err(ServeStop::Stopped(Stop::Memory)),
        Ok(left) => {
            let Left { mut state, ended } = left;
            let result = serve_behind(rt, alloc, ended, &mut state, service, sink, ports);
            put_back(state, bench);
            result
        }
    }
}
