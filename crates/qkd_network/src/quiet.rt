// A run of whose report only the lines are written that a person asked for.
ghost use Rattle.std.specs.Prelude.{◌≡◌, ◌⊎◌, ◌≤◌, []};
ghost use Rattle.std.specs.List.{All};
ghost use Rattle.qkd_base.specs.Faults.{Rose};
ghost use Rattle.run_ops.specs.Runnable.{IsRunnable};
ghost use Rattle.run_model.specs.Course.{Run};
ghost use Rattle.run_lines.specs.Reporting.{IsBlamed};
ghost use Rattle.net_world.specs.Laid.{IsWhole};
ghost use Rattle.net_world.specs.New.{IsNew};
ghost use Rattle.net_world.specs.Running.{HasHeadlines, WasLeft, ended};
ghost use Rattle.qkd_network.specs.Quiet.{given_lines, IsQuiet};
ghost use Rattle.qkd_network.specs.Outcome.{ScenarioOutcome};
ghost use Rattle.qkd_network.specs.declared.status.Status.TheVariants.{ReadFault, WriteFault, ListenFault};
ghost use Rattle.net_world.specs.New.{outside};

use crate::Status;
use crate::source_scenario::scenario_in;
use asked_lines::{KeptLines, tell_asked};
use disk_model::Disk;
use edge_io::{Gate, Sink, Source};
use net_world::{Bench, run_scenario};
use qkd_base::Replica;
use run_lines::Stop;
use run_types::Scenario;
use source_devices::{Device, Entropy, Wire};
use std::alloc::Global;
use std::sync::Wait;
use std::thread::Threads;

// Runs a scenario over a new bench, and keeps its report. Then the sink takes those lines of it that a person asked for. If memory runs out
// before the first line, bench and sink are as they were.
fn run_quietly<
    R: Threads + Wait + Sync,
    G: Gate,
    K: Disk + Drop + Send,
    Q: Device + Drop + Send,
    E: Entropy + Drop + Send,
    X: Wire + Drop + Send,
    W: Sink,
>(
    rt: &R,
    alloc: Global,
    gate: &G,
    scenario: Scenario,
    workers: u32,
    sink: &mut W,
    bench: &mut Bench<K, Q, E, X>,
) -> Result<(), Stop>
    requires runnable { IsRunnable scenario }
    requires workers { (1 ≤ workers) × (workers ≤ 32) }
    requires fresh { IsNew (outside K.Disk Q.Device E.Entropy X.Wire) bench.old }
    requires unarmed { All (λ k. (K.armings k).count ≡ 0) bench.old.disks.items }
    ensures quiet { WasLeft bench.old bench.new sink.old sink.new result
        ⊎ IsQuiet W.taken W.pieces (λ report stop. HasHeadlines (outside K.Disk Q.Device E.Entropy X.Wire)
        bench.old bench.new (Run workers) scenario (given_lines []) report stop) scenario.site.nodes sink.old sink.new (ended result) }
    ensures whole { IsWhole bench.new }
    ensures blame { IsBlamed (W.faults sink.old) (W.faults sink.new) result }
{
    let nodes = scenario.site.nodes.copy()?;
    let mut kept = KeptLines::new(alloc);
    let ended = run_scenario(rt, alloc, gate, scenario, workers, &mut kept, bench);
    tell_asked(alloc, &nodes, &kept, ended, sink)
}

// Reads a scenario from the source, runs it over a new bench, and writes the lines of its report that a person asked for.
pub(crate) fn quiet<
    R: Threads + Wait + Sync,
    S: Source,
    W: Sink,
    K: Disk + Drop + Send,
    Q: Device + Drop + Send,
    E: Entropy + Drop + Send,
    X: Wire + Drop + Send,
    G: Gate,
>(
    rt: &R,
    alloc: Global,
    workers: u32,
    source: &mut S,
    sink: &mut W,
    bench: &mut Bench<K, Q, E, X>,
    gate: &G,
) -> Status
    requires workers { (1 ≤ workers) × (workers ≤ 32) }
    requires fresh { IsNew (outside K.Disk Q.Device E.Entropy X.Wire) bench.old }
    requires unarmed { All (λ k. (K.armings k).count ≡ 0) bench.old.disks.items }
    ensures outcome { ScenarioOutcome (λ s. S.left s) (λ scenario stop.
        IsQuiet W.taken W.pieces (λ report stop. HasHeadlines (outside K.Disk Q.Device E.Entropy X.Wire)
        bench.old bench.new (Run workers) scenario (given_lines []) report stop) scenario.site.nodes sink.old sink.new stop)
        result source.old source.new sink.old sink.new bench.old bench.new }
    ensures calm { result ≡ ListenFault → ⊥ }
    ensures whole { IsWhole bench.new }
    ensures read_fault { result ≡ ReadFault → Rose (S.faults source.old) (S.faults source.new) }
    ensures source_calm { (result ≡ ReadFault) ⊎ (S.faults source.new ≡ S.faults source.old) }
    ensures write_fault { result ≡ WriteFault → Rose (W.faults sink.old) (W.faults sink.new) }
{
    match scenario_in(alloc, source) {
        Err(status) => status,
        Ok(scenario) => Status::of_run(run_quietly(
            rt, alloc, gate, scenario, workers, sink, bench,
        )),
    }
}
