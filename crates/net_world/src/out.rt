// A scenario is run with parts that are taken out of a bench.
ghost use Rattle.std.specs.Prelude.{◌≡◌, ◌≤◌, IfOk, OnOk, OnErr};
ghost use Rattle.std.specs.List.{All};
ghost use Rattle.net_model.specs.World.{Network, World};
ghost use Rattle.run_model.specs.Headline.{given_to};
ghost use Rattle.run_ops.specs.Runnable.{IsRunnable};
ghost use Rattle.run_ops.specs.Doing.{MayTogether, DidTogether};
ghost use Rattle.run_lines.specs.Reporting.{InLines, IsBlamed, IsItemLine};
ghost use Rattle.net_world.specs.New.{IsNew};
ghost use Rattle.world_state.specs.Armed.{most_armed};
ghost use Rattle.world_state.specs.Rests.{Rests};
ghost use Rattle.world_state.specs.Stands.{Stands};
ghost use Rattle.world_state.specs.Tallied.{Tallied};
ghost use Rattle.net_world.specs.Running.{RanOut};
ghost use Rattle.world_state.specs.Outside.{outside};

use crate::{Bench, Left, law_bench_begins, lay_out};
use disk_model::Disk;
use edge_io::{Gate, Sink};
use kme_shared::{Running, together};
use qkd_base::Memory;
use run_http::SiteRequests;
use run_ops::Job;
use run_tasks::run_entries;
use run_types::Scenario;
use source_devices::{Device, Entropy, Wire};
use std::alloc::Global;
use std::sync::Wait;
use std::thread::Threads;

/// Runs a scenario with the parts of a new bench, and reports it to the sink. The given number of workers do its blocks; the gate can hold
/// each of them. The result has the parts that the run took, for which the bench still has room. `Err` comes only before the first line:
/// memory ran out, and bench and sink are as they were.
pub fn run_out<
    R: Threads + Wait + Sync,
    G: Gate,
    K: Disk + Drop + Send,
    Q: Device + Drop + Send,
    E: Entropy + Drop + Send,
    X: Wire + Drop + Send,
    W: Sink,
>(
    rt: &R,
    alloc: Global,
    gate: &G,
    scenario: Scenario,
    workers: u32,
    sink: &mut W,
    bench: &mut Bench<K, Q, E, X>,
) -> Result<Left<K, Q, E, X>, Memory>
    requires runnable { IsRunnable scenario }
    requires workers { (1 ≤ workers) × (workers ≤ 32) }
    requires fresh { IsNew (outside K.Disk Q.Device E.Entropy X.Wire) bench.old }
    requires unarmed { All (λ k. (K.armings k).count ≡ 0) bench.old.disks.items }
    ensures ran { IfOk result (λ left. RanOut (outside K.Disk Q.Device E.Entropy X.Wire)
        bench.old bench.new workers scenario (given_to W.taken W.pieces sink.old) (given_to W.taken W.pieces sink.new) left.state left.ended) }
    ensures ready { IfOk result (λ left. OnOk left.ended ((net : Network) × (w : World) × Stands (outside K.Disk Q.Device E.Entropy X.Wire) left.state net w)) }
    ensures blame { IfOk result (λ left. IsBlamed (W.faults sink.old) (W.faults sink.new) left.ended) }
    ensures lined { IfOk result (λ left. InLines W.taken W.pieces (IsItemLine scenario.site.nodes) sink.old sink.new left.ended) }
    ensures err { OnErr result ((bench.new ≡ bench.old) × (sink.new ≡ sink.old)) }
{
    let Scenario {
        site,
        node_lines,
        entries,
    } = scenario;
    let requests = match SiteRequests::new(alloc, &site) {
        Err(_) => return Err(Memory),
        Ok(requests) => requests,
    };
    let state = match lay_out(alloc, bench, site) {
        Err(_) => return Err(Memory),
        Ok(state) => state,
    };
    law_bench_begins::<K, Q, E, X>();
    let mut running = Running::new(state);
    let ended = run_entries(
        alloc,
        &mut running,
        &requests,
        &|running: &mut Running<K, Q, E, X>, workers: u32, jobs: &[Job]|
            requires may { MayTogether (λ r. r.state.site) (λ r. Stands (outside K.Disk Q.Device E.Entropy X.Wire) r.state) running.now workers jobs.now }
            ensures did { DidTogether (λ r. r.state.site) (λ r. Stands (outside K.Disk Q.Device E.Entropy X.Wire) r.state)
                (λ r. Rests (outside K.Disk Q.Device E.Entropy X.Wire) r.state) (λ a b. Tallied (outside K.Disk Q.Device E.Entropy X.Wire) a.state b.state)
                (λ r. most_armed K.Disk r.state.posts.items) running.entry.now running.exit.now workers jobs.entry.now result }
        { together(rt, gate, running, workers, jobs) },
        workers,
        node_lines.as_slice(),
        entries,
        sink,
    );
    Ok(Left {
        state: running.into_state(),
        ended,
    })
}
