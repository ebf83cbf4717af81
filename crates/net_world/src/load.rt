// A generated load over a bench.
ghost use Rattle.std.specs.Prelude.{◌≡◌, ◌≤◌, ◌⊎◌};
ghost use Rattle.run_tasks.specs.Pieces.{IsLoadLine};
ghost use Rattle.run_lines.specs.Reporting.{InLines, IsBlamed};
ghost use Rattle.run_model.specs.Course.{Load};
ghost use Rattle.run_model.specs.Load.{load_scenario};
ghost use Rattle.run_model.specs.Headline.{given_to};
ghost use Rattle.net_world.specs.Laid.{IsWhole};
ghost use Rattle.net_world.specs.New.{IsNew};
ghost use Rattle.net_world.specs.Running.{HasHeadlines, WasLeft, ended};
ghost use Rattle.world_state.specs.Outside.{outside};

use crate::Bench;
use crate::generated::generated;
use crate::lines::run_lines_of;
use disk_model::Disk;
use edge_io::Sink;
use run_lines::Stop;
use source_devices::{Device, Entropy, Wire};
use std::alloc::Global;

/// Runs the generated load of `rounds` rounds over a new bench, and reports its ledgers and the number of keys that it handed out. The
/// bench has all its parts back at the end. If memory runs out before the first line, bench and sink are as they were.
pub fn run_load<K: Disk + Drop, Q: Device + Drop, E: Entropy + Drop, X: Wire + Drop, W: Sink>(
    alloc: Global,
    rounds: u32,
    sink: &mut W,
    bench: &mut Bench<K, Q, E, X>,
) -> Result<(), Stop>
    requires rounds { (1 ≤ rounds) × (rounds ≤ 500) }
    requires fresh { IsNew (outside K.Disk Q.Device E.Entropy X.Wire) bench.old }
    ensures headline { WasLeft bench.old bench.new sink.old sink.new result
        ⊎ HasHeadlines (outside K.Disk Q.Device E.Entropy X.Wire) bench.old bench.new (Load rounds) (load_scenario rounds) (given_to W.taken W.pieces sink.old) (given_to W.taken W.pieces sink.new) (ended result) }
    ensures whole { IsWhole bench.new }
    ensures blame { IsBlamed (W.faults sink.old) (W.faults sink.new) result }
    ensures lined { InLines W.taken W.pieces (IsLoadLine (load_scenario rounds).site.nodes) sink.old sink.new result }
{
    let scenario = match generated(alloc, rounds) {
        Ok(scenario) => scenario,
        Err(_) => return Err(Stop::Memory),
    };
    run_lines_of(alloc, scenario, sink, bench)
}
