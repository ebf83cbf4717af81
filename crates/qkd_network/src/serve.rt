// Running a scenario, and serving its managers.
ghost use Rattle.std.specs.Prelude.{◌≡◌, ◌⊎◌, ◌≤◌, IsSome};
ghost use Rattle.std.specs.List.{All};
ghost use Rattle.qkd_base.specs.Faults.{Rose};
ghost use Rattle.kme_serve.specs.Doors.{AreFresh, IsListenFault, ports_told, telling};
ghost use Rattle.kme_serve.specs.Endless.{endless};
ghost use Rattle.net_world.specs.Laid.{IsWhole};
ghost use Rattle.net_world.specs.New.{IsNew};
ghost use Rattle.net_serve.specs.BenchServing.{HasServedHeadlines};
ghost use Rattle.run_model.specs.Course.{Serve};
ghost use Rattle.run_model.specs.Headline.{given_to};
ghost use Rattle.qkd_network.specs.Lines.{WroteLines};
ghost use Rattle.qkd_network.specs.Outcome.{ScenarioOutcome, beside};
ghost use Rattle.qkd_network.specs.declared.status.Status.TheVariants.{ReadFault, WriteFault, ListenFault};
ghost use Rattle.net_world.specs.New.{outside};

use crate::Status;
use crate::source_scenario::scenario_in;
use disk_model::Disk;
use edge_io::{Gate, Listener, Ports, Sink, Source};
use net_serve::{Service, run_serve};
use net_world::Bench;
use source_devices::{Device, Entropy, Wire};
use std::alloc::Global;
use std::sync::Wait;
use std::thread::Threads;

// Reads a scenario from the source, runs it over a new bench, and serves its managers over ports.
pub(crate) fn serve<
    R: Threads + Wait + Sync,
    S: Source,
    W: Sink,
    K: Disk + Drop + Send,
    Q: Device + Drop + Send,
    E: Entropy + Drop + Send,
    X: Wire + Drop + Send,
    P: Ports,
    G: Gate,
>(
    rt: &R,
    alloc: Global,
    service: Service,
    source: &mut S,
    sink: &mut W,
    bench: &mut Bench<K, Q, E, X>,
    ports: &mut P,
    gate: &G,
) -> Status
where
    P::Door: Drop + Send + Sync,
    <P::Door as Listener>::In: Send,
    <P::Door as Listener>::Out: Send,
    requires workers { (1 ≤ service.workers) × (service.workers ≤ 32) }
    requires connections { service.connections ≤ endless }
    requires port { service.port ≤ 65520 }
    requires fresh { IsNew (outside K.Disk Q.Device E.Entropy X.Wire) bench.old }
    requires unarmed { All (λ k. (K.armings k).count ≡ 0) bench.old.disks.items }
    requires ports { AreFresh P.asked P.back ports.old }
    ensures outcome { ScenarioOutcome (λ s. S.left s) (λ scenario stop.
        HasServedHeadlines (outside K.Disk Q.Device E.Entropy X.Wire)
        (telling P.Door.port P.Door.accepted P.Door.finished P.Door.waiting P.Door.done) P.Door.faults (IsSome (P.asked ports.old)) bench.old bench.new
        (ports_told P.asked P.back P.queues ports.old) (ports_told P.asked P.back P.queues ports.new)
        service.workers service.connections service.port scenario (given_to W.taken W.pieces sink.old) (given_to W.taken W.pieces sink.new) stop
        × WroteLines W.taken W.pieces (Serve service.workers service.connections service.port) scenario sink.old sink.new stop)
        result source.old source.new sink.old sink.new (beside bench.old ports.old) (beside bench.new ports.new) }
    ensures whole { IsWhole bench.new }
    ensures read_fault { result ≡ ReadFault → Rose (S.faults source.old) (S.faults source.new) }
    ensures source_calm { (result ≡ ReadFault) ⊎ (S.faults source.new ≡ S.faults source.old) }
    ensures write_fault { result ≡ WriteFault → Rose (W.faults sink.old) (W.faults sink.new) }
    ensures listen_fault { result ≡ ListenFault → IsListenFault P.Door.faults (P.faults ports.old) (P.faults ports.new)
        (ports_told P.asked P.back P.queues ports.old) (ports_told P.asked P.back P.queues ports.new) }
{
    match scenario_in(alloc, source) {
        Err(status) => status,
        Ok(scenario) => Status::of_serve(run_serve(
            rt, alloc, gate, scenario, service, sink, bench, ports,
        )),
    }
}
