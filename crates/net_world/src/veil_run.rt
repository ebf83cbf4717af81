// A scenario over a bench, and the veil of its wires.
ghost use Rattle.std.specs.Prelude.{◌≡◌, ◌⊎◌, Err, OnOk};
ghost use Rattle.std.specs.List.{All};
ghost use Rattle.net_model.specs.World.{Network, World};
ghost use Rattle.run_model.specs.Headline.{given_to};
ghost use Rattle.run_ops.specs.Runnable.{IsRunnable};
ghost use Rattle.run_lines.specs.Reporting.{IsBlamed};
ghost use Rattle.run_lines.specs.declared.stop.Stop.TheVariants.{WriteFault};
ghost use Rattle.net_world.specs.Lanes.{veil_line};
ghost use Rattle.world_state.specs.Stands.{Stands};
ghost use Rattle.net_world.specs.Laid.{IsWhole};
ghost use Rattle.net_world.specs.New.{IsNew};
ghost use Rattle.net_world.specs.Running.{WasLeft, ended};
ghost use Rattle.net_world.specs.Veiling.{HasVeiled, Ends};
ghost use Rattle.world_state.specs.Outside.{outside};

use crate::{Bench, Left, law_other_keys_fit, put_back, run_out, tell};
use disk_model::Disk;
use edge_io::{Gate, Sink};
use hop_frames::frames_of_a_network;
use law_run::{law_headline_of_tasks, law_lines_are_the_whole, law_tasks_are_run};
use run_lines::Stop;
use run_tasks::Unheard;
use run_types::Scenario;
use source_devices::{Device, Entropy, Wire};
use std::alloc::Global;
use std::sync::Wait;
use std::thread::Threads;

// If the run came to its end, writes the line of the veil of its wires to the sink.
fn tell_after<K: Disk + Drop, Q: Device + Drop, E: Entropy + Drop, X: Wire + Drop, W: Sink>(
    alloc: Global,
    left: &Left<K, Q, E, X>,
    sink: &mut W,
) -> Result<(), Stop>
    requires ready { OnOk left.now.ended ((net : Network) × (w : World) × Stands (outside K.Disk Q.Device E.Entropy X.Wire) left.now.state net w) }
    requires calm { left.now.ended ≡ Err WriteFault → ⊥ }
    ensures ends { (net : Network) (w : World) → OnOk left.now.ended (Stands (outside K.Disk Q.Device E.Entropy X.Wire) left.now.state net w) →
        Ends (λ k. given_to W.taken W.pieces k) left.now.ended (veil_line net w) sink.old sink.new result }
    ensures blame { IsBlamed (W.faults sink.old) (W.faults sink.new) result }
{
    match left.ended {
        Err(stop) => Err(stop),
        Ok(()) => tell(alloc, &left.state.lanes, sink),
    }
}

/// Runs a scenario over a new bench without reporting it. One worker does its blocks; the gate can hold it. If all lines are done, it
/// complements each key in the frames on the wires and keeps the wires the same. The sink takes one line: the number of different frames on
/// all wires, and the number of bytes of all lanes that change. At a forged match the sink is not touched. The bench has all its parts back
/// at the end. If memory runs out before the first line, the bench is as it was.
pub fn run_veil<
    R: Threads + Wait + Sync,
    G: Gate,
    K: Disk + Drop + Send,
    Q: Device + Drop + Send,
    E: Entropy + Drop + Send,
    X: Wire + Drop + Send,
    W: Sink,
>(
    rt: &R,
    alloc: Global,
    gate: &G,
    scenario: Scenario,
    sink: &mut W,
    bench: &mut Bench<K, Q, E, X>,
) -> Result<(), Stop>
    requires runnable { IsRunnable scenario }
    requires fresh { IsNew (outside K.Disk Q.Device E.Entropy X.Wire) bench.old }
    requires unarmed { All (λ k. (K.armings k).count ≡ 0) bench.old.disks.items }
    ensures veiled { WasLeft bench.old bench.new sink.old sink.new result
        ⊎ HasVeiled (outside K.Disk Q.Device E.Entropy X.Wire) (λ k. given_to W.taken W.pieces k) bench.old bench.new scenario sink.old sink.new (ended result) }
    ensures whole { IsWhole bench.new }
    ensures blame { IsBlamed (W.faults sink.old) (W.faults sink.new) result }
{
    frames_of_a_network();
    law_tasks_are_run();
    law_headline_of_tasks();
    law_lines_are_the_whole();
    law_other_keys_fit();
    match run_out(rt, alloc, gate, scenario, 1, &mut Unheard, bench) {
        Err(_) => Err(Stop::Memory),
        Ok(left) => {
            let told = tell_after(alloc, &left, sink);
            let Left { state, .. } = left;
            put_back(state, bench);
            told
        }
    }
}
