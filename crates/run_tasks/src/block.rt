// Doing and reporting a block of lines.
ghost use Rattle.std.specs.Prelude.{◌≡◌, ◌≤◌, ◌∷◌, [], ℕ, OnOk};
ghost use Rattle.std.specs.List.{All};
ghost use Rattle.net_model.specs.World.{Network, World};
ghost use Rattle.run_types.specs.declared.entry.Entry.TheVariants as entries;
ghost use Rattle.run_model.specs.Turn.{HttpTexts};
ghost use Rattle.run_model.specs.Report.{Does};
ghost use Rattle.run_model.specs.Headline.{given_to};
ghost use Rattle.run_ops.specs.Acting.{IsReady};
ghost use Rattle.run_ops.specs.Runnable.{IsBlockLineFor};
ghost use Rattle.run_ops.specs.Doing.{MayTogether, DidTogether};
ghost use Rattle.run_lines.specs.Reporting.{InLines, IsBlamed, IsItemLine};
ghost use Rattle.run_lines.specs.Running.{IsReadySomewhere};
ghost use Rattle.run_tasks.specs.Tasks.{RanTasks};

use crate::block_report::report;
use crate::prepared::{Prepared, prepare};
use edge_io::Sink;
use qkd_base::Memory;
use run_lines::{Requests, Stop};
use run_ops::{Acts, DoneBlock, Job};
use run_types::Lines;
use std::alloc::Global;

/// `workers` workers do the lines of a block side by side, through `together`. Then the block is reported: first the answers
/// that needed no manager, then the managers' replies in order of node, and last the frames.
#[tactic(auto, using(run_lines::proofs::Lines::stopped_unwritten))]
pub fn do_block<
    S: Acts,
    T: Fn(&mut S, u32, &[Job]) -> Result<DoneBlock, Memory>,
    H: Requests,
    W: Sink,
>(
    alloc: Global,
    net: &mut S,
    requests: &H,
    together: &T,
    workers: u32,
    lines: Lines,
    sink: &mut W,
) -> Result<(), Stop>
    requires serves { H.serves requests.now (S.site net.old) }
    requires able { (s : _) (workers : ℕ) (jobs : _) → MayTogether S.site S.stands s.now workers jobs.now → T.pre together.now s workers jobs }
    requires does { (s : _) (workers : ℕ) (jobs result after : _) → MayTogether S.site S.stands s.now workers jobs.now → T.post together.now s workers jobs result after
        → DidTogether S.site S.stands S.rests S.tallied S.armed s.now after.now workers jobs.now result }
    requires workers { (1 ≤ workers) × (workers ≤ 32) }
    requires fit { All (IsBlockLineFor (S.site net.old)) lines }
    requires ready { IsReadySomewhere S.stands net.old }
    ensures site { S.site net.new ≡ S.site net.old }
    ensures armed { S.armed net.new ≡ S.armed net.old }
    ensures ready { OnOk result (IsReadySomewhere S.stands net.new) }
    ensures ran { (http : HttpTexts) (n : Network) (w : World) → H.speaks requests.now http → IsReady S.stands net.old n w → RanTasks S.stands S.rests S.tallied (S.site net.old).nodes net.old net.new (given_to W.taken W.pieces sink.old) (given_to W.taken W.pieces sink.new) http n workers w (Does (entries.Block lines) ∷ []) result }
    ensures blame { IsBlamed (W.faults sink.old) (W.faults sink.new) result }
    ensures lined { InLines W.taken W.pieces (IsItemLine (S.site net.old).nodes) sink.old sink.new result }
{
    let prepared = match prepare(alloc, net, requests, lines) {
        Ok(prepared) => prepared,
        Err(_) => return Err(Stop::Memory),
    };
    let Prepared { jobs, places, told } = prepared;
    match together(net, workers, &jobs) {
        Ok(done) => report(
            alloc,
            net.declared(),
            requests,
            &jobs,
            &places,
            &told,
            done,
            sink,
        ),
        Err(_) => Err(Stop::Memory),
    }
}
