// A scenario over a bench.
ghost use Rattle.std.specs.Prelude.{◌≡◌, ◌⊎◌, ◌≤◌};
ghost use Rattle.std.specs.List.{All};
ghost use Rattle.run_ops.specs.Runnable.{IsRunnable};
ghost use Rattle.run_model.specs.Course.{Run};
ghost use Rattle.run_model.specs.Headline.{given_to};
ghost use Rattle.run_lines.specs.Reporting.{InLines, IsBlamed, IsItemLine};
ghost use Rattle.net_world.specs.Laid.{IsWhole};
ghost use Rattle.net_world.specs.New.{IsNew};
ghost use Rattle.net_world.specs.Running.{HasHeadlines, WasLeft, ended};
ghost use Rattle.world_state.specs.Outside.{outside};

use crate::out::run_out;
use crate::{Bench, Left, law_bench_headline, put_back};
use disk_model::Disk;
use edge_io::{Gate, Sink};
use run_lines::Stop;
use run_types::Scenario;
use source_devices::{Device, Entropy, Wire};
use std::alloc::Global;
use std::sync::Wait;
use std::thread::Threads;

/// Runs a scenario over a new bench, and reports it to the sink. The given number of workers do its blocks; the gate can hold each of them.
/// The bench has all its parts back at the end. If memory runs out before the first line, bench and sink are as they were.
pub fn run_scenario<
    R: Threads + Wait + Sync,
    G: Gate,
    K: Disk + Drop + Send,
    Q: Device + Drop + Send,
    E: Entropy + Drop + Send,
    X: Wire + Drop + Send,
    W: Sink,
>(
    rt: &R,
    alloc: Global,
    gate: &G,
    scenario: Scenario,
    workers: u32,
    sink: &mut W,
    bench: &mut Bench<K, Q, E, X>,
) -> Result<(), Stop>
    requires runnable { IsRunnable scenario }
    requires workers { (1 ≤ workers) × (workers ≤ 32) }
    requires fresh { IsNew (outside K.Disk Q.Device E.Entropy X.Wire) bench.old }
    requires unarmed { All (λ k. (K.armings k).count ≡ 0) bench.old.disks.items }
    ensures headline { WasLeft bench.old bench.new sink.old sink.new result
        ⊎ HasHeadlines (outside K.Disk Q.Device E.Entropy X.Wire) bench.old bench.new (Run workers) scenario (given_to W.taken W.pieces sink.old) (given_to W.taken W.pieces sink.new) (ended result) }
    ensures whole { IsWhole bench.new }
    ensures blame { IsBlamed (W.faults sink.old) (W.faults sink.new) result }
    ensures lined { InLines W.taken W.pieces (IsItemLine scenario.site.nodes) sink.old sink.new result }
{
    match run_out(rt, alloc, gate, scenario, workers, sink, bench) {
        Err(_) => Err(Stop::Memory),
        Ok(left) => {
            let Left { state, ended } = left;
            put_back(state, bench);
            law_bench_headline::<K, Q, E, X>();
            ended
        }
    }
}
