// The veil of a scenario's wires.
ghost use Rattle.std.specs.Prelude.{◌≡◌, ◌⊎◌};
ghost use Rattle.std.specs.List.{All};
ghost use Rattle.run_model.specs.Headline.{given_to};
ghost use Rattle.qkd_base.specs.Faults.{Rose};
ghost use Rattle.net_world.specs.Laid.{IsWhole};
ghost use Rattle.net_world.specs.New.{IsNew};
ghost use Rattle.net_world.specs.Veiling.{HasVeiled};
ghost use Rattle.qkd_network.specs.Outcome.{ScenarioOutcome};
ghost use Rattle.qkd_network.specs.declared.status.Status.TheVariants.{ReadFault, WriteFault, ListenFault};
ghost use Rattle.net_world.specs.New.{outside};

use crate::Status;
use crate::source_scenario::scenario_in;
use disk_model::Disk;
use edge_io::{Gate, Sink, Source};
use net_world::{Bench, run_veil};
use source_devices::{Device, Entropy, Wire};
use std::alloc::Global;
use std::sync::Wait;
use std::thread::Threads;

// Reads a scenario from the source, runs it over a new bench, and counts the veil of the wires that it leaves.
pub(crate) fn veil<
    R: Threads + Wait + Sync,
    S: Source,
    W: Sink,
    K: Disk + Drop + Send,
    Q: Device + Drop + Send,
    E: Entropy + Drop + Send,
    X: Wire + Drop + Send,
    G: Gate,
>(
    rt: &R,
    alloc: Global,
    source: &mut S,
    sink: &mut W,
    bench: &mut Bench<K, Q, E, X>,
    gate: &G,
) -> Status
    requires fresh { IsNew (outside K.Disk Q.Device E.Entropy X.Wire) bench.old }
    requires unarmed { All (λ k. (K.armings k).count ≡ 0) bench.old.disks.items }
    ensures outcome { ScenarioOutcome (λ s. S.left s) (λ scenario stop.
        HasVeiled (outside K.Disk Q.Device E.Entropy X.Wire) (λ k. given_to W.taken W.pieces k) bench.old bench.new scenario sink.old sink.new stop)
        result source.old source.new sink.old sink.new bench.old bench.new }
    ensures calm { result ≡ ListenFault → ⊥ }
    ensures whole { IsWhole bench.new }
    ensures read_fault { result ≡ ReadFault → Rose (S.faults source.old) (S.faults source.new) }
    ensures source_calm { (result ≡ ReadFault) ⊎ (S.faults source.new ≡ S.faults source.old) }
    ensures write_fault { result ≡ WriteFault → Rose (W.faults sink.old) (W.faults sink.new) }
{
    match scenario_in(alloc, source) {
        Err(status) => status,
        Ok(scenario) => Status::of_run(run_veil(rt, alloc, gate, scenario, sink, bench)),
    }
}
