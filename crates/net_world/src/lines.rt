// The lines of a generated load over a bench.
ghost use Rattle.std.specs.Prelude.{◌≡◌, ◌⊎◌, ℕ, true};
ghost use Rattle.std.specs.List.{list_all};
ghost use Rattle.run_ops.specs.Runnable.{IsRunnable};
ghost use Rattle.run_tasks.specs.Pieces.{IsLoadLine};
ghost use Rattle.run_lines.specs.Reporting.{InLines, IsBlamed};
ghost use Rattle.run_model.specs.Course.{Load};
ghost use Rattle.run_model.specs.Load.{load_scenario};
ghost use Rattle.run_model.specs.Headline.{given_to};
ghost use Rattle.law_run.specs.Kinds.{is_load_entry};
ghost use Rattle.net_world.specs.Laid.{IsWhole};
ghost use Rattle.net_world.specs.New.{IsNew};
ghost use Rattle.net_world.specs.Running.{HasHeadlines, WasLeft, ended};
ghost use Rattle.world_state.specs.Outside.{outside};

use crate::{Bench, law_bench_headline, lay_out, put_back};
use disk_model::Disk;
use edge_io::Sink;
use hop_frames::frames_of_a_network;
use kme_shared::Running;
use run_lines::Stop;
use run_tasks::{law_load_is_reported, run_load};
use run_types::Scenario;
use source_devices::{Device, Entropy, Wire};
use std::alloc::Global;

/// Runs the scenario of a load over a new bench, and reports its ledgers and the number of keys that it handed out. The bench has all its
/// parts back at the end. If memory runs out before the first line, bench and sink are as they were.
pub fn run_lines_of<K: Disk + Drop, Q: Device + Drop, E: Entropy + Drop, X: Wire + Drop, W: Sink>(
    alloc: Global,
    scenario: Scenario,
    sink: &mut W,
    bench: &mut Bench<K, Q, E, X>,
) -> Result<(), Stop>
    requires runnable { IsRunnable scenario }
    requires load { list_all is_load_entry scenario.entries ≡ true }
    requires fresh { IsNew (outside K.Disk Q.Device E.Entropy X.Wire) bench.old }
    ensures headline { (rounds : ℕ) → scenario ≡ load_scenario rounds → WasLeft bench.old bench.new sink.old sink.new result
        ⊎ HasHeadlines (outside K.Disk Q.Device E.Entropy X.Wire) bench.old bench.new (Load rounds) scenario (given_to W.taken W.pieces sink.old) (given_to W.taken W.pieces sink.new) (ended result) }
    ensures whole { IsWhole bench.new }
    ensures blame { IsBlamed (W.faults sink.old) (W.faults sink.new) result }
    ensures lined { InLines W.taken W.pieces (IsLoadLine scenario.site.nodes) sink.old sink.new result }
{
    let Scenario {
        site,
        node_lines,
        entries,
    } = scenario;
    let state = match lay_out(alloc, bench, site) {
        Err(_) => return Err(Stop::Memory),
        Ok(state) => state,
    };
    frames_of_a_network();
    let mut running = Running::new(state);
    let result = run_load(alloc, &mut running, node_lines.as_slice(), entries, sink);
    put_back(running.into_state(), bench);
    law_bench_headline::<K, Q, E, X>();
    law_load_is_reported();
    result
}
