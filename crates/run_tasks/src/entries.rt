// Running the tasks of a scenario.
ghost use Rattle.std.specs.Prelude.{◌≡◌, ◌≤◌, ◌+◌, ◌^◌, ◌∷◌, [], if◌then◌else◌, ℕ, map, length, count_by, OnOk};
ghost use Rattle.std.specs.List.{All};
ghost use Rattle.declared_site.specs.SiteOf.{IsDeclared};
ghost use Rattle.net_model.specs.World.{Network, World};
ghost use Rattle.run_model.specs.Turn.{HttpTexts};
ghost use Rattle.run_model.specs.Report.{starts_from, tasks, Does};
ghost use Rattle.run_model.specs.Headline.{given_to};
ghost use Rattle.run_ops.specs.Acting.{IsReady};
ghost use Rattle.run_ops.specs.Runnable.{IsEntryFor, arms_a_disk};
ghost use Rattle.run_ops.specs.Doing.{MayTogether, DidTogether};
ghost use Rattle.run_lines.specs.Reporting.{InLines, IsBlamed, IsItemLine};
ghost use Rattle.run_lines.specs.Running.{IsReadySomewhere};
ghost use Rattle.run_tasks.specs.Tasks.{RanTasks};

use crate::block::do_block;
use edge_io::Sink;
use qkd_base::{Memory, NodeNo};
use run_lines::{Requests, Stop, begin, command};
use run_ops::{Acts, DoneBlock, Job};
use run_types::{Entries, Entry, Line};
use std::alloc::Global;

// Starts the declared nodes in order, each reported under the number of its line.
fn begin_all<S: Acts, W: Sink>(
    alloc: Global,
    net: &mut S,
    node_lines: &[u32],
    sink: &mut W,
) -> Result<(), Stop>
    requires declared { IsDeclared (S.site net.old) }
    requires nodes { length node_lines.now ≤ length (S.site net.old).nodes }
    requires ready { IsReadySomewhere S.stands net.old }
    ensures site { S.site net.new ≡ S.site net.old }
    ensures armed { S.armed net.new ≡ S.armed net.old }
    ensures ran { (http : HttpTexts) (n : Network) (workers : ℕ) (w : World) → IsReady S.stands net.old n w → RanTasks S.stands S.rests S.tallied (S.site net.old).nodes net.old net.new (given_to W.taken W.pieces sink.old) (given_to W.taken W.pieces sink.new) http n workers w (starts_from 0 node_lines.now) result }
    ensures blame { IsBlamed (W.faults sink.old) (W.faults sink.new) result }
    ensures lined { InLines W.taken W.pieces (IsItemLine (S.site net.old).nodes) sink.old sink.new result }
{
    for place in 0..node_lines.len() {
        let node = NodeNo::new(place as u8).unwrap();
        begin(alloc, net, node_lines[place], node, sink)?;
    }
    Ok(())
}

// Does an entry: a line, or a block of lines that `workers` workers do.
fn do_entry<S: Acts, T: Fn(&mut S, u32, &[Job]) -> Result<DoneBlock, Memory>, H: Requests, W: Sink>(
    alloc: Global,
    net: &mut S,
    requests: &H,
    together: &T,
    workers: u32,
    entry: Entry,
    sink: &mut W,
) -> Result<(), Stop>
    requires declared { IsDeclared (S.site net.old) }
    requires serves { H.serves requests.now (S.site net.old) }
    requires able { (s : _) (workers : ℕ) (jobs : _) → MayTogether S.site S.stands s.now workers jobs.now → T.pre together.now s workers jobs }
    requires does { (s : _) (workers : ℕ) (jobs result after : _) → MayTogether S.site S.stands s.now workers jobs.now → T.post together.now s workers jobs result after
        → DidTogether S.site S.stands S.rests S.tallied S.armed s.now after.now workers jobs.now result }
    requires workers { (1 ≤ workers) × (workers ≤ 32) }
    requires fit { IsEntryFor (S.site net.old) entry }
    requires ready { IsReadySomewhere S.stands net.old }
    requires few { S.armed net.old + (if arms_a_disk entry then 1 else 0) ≤ 2 ^ 32 }
    ensures site { S.site net.new ≡ S.site net.old }
    ensures armed { S.armed net.new ≤ S.armed net.old + (if arms_a_disk entry then 1 else 0) }
    ensures ready { OnOk result (IsReadySomewhere S.stands net.new) }
    ensures ran { (http : HttpTexts) (n : Network) (w : World) → H.speaks requests.now http → IsReady S.stands net.old n w → RanTasks S.stands S.rests S.tallied (S.site net.old).nodes net.old net.new (given_to W.taken W.pieces sink.old) (given_to W.taken W.pieces sink.new) http n workers w (Does entry ∷ []) result }
    ensures blame { IsBlamed (W.faults sink.old) (W.faults sink.new) result }
    ensures lined { InLines W.taken W.pieces (IsItemLine (S.site net.old).nodes) sink.old sink.new result }
{
    match entry {
        Entry::Line(line) => {
            let Line {
                number,
                command: asked,
            } = line;
            command(alloc, net, requests, number, asked, sink)
        }
        Entry::Block(lines) => do_block(alloc, net, requests, together, workers, lines, sink),
    }
}

// Does the entries in order.
fn do_all<S: Acts, T: Fn(&mut S, u32, &[Job]) -> Result<DoneBlock, Memory>, H: Requests, W: Sink>(
    alloc: Global,
    net: &mut S,
    requests: &H,
    together: &T,
    workers: u32,
    list: Entries,
    sink: &mut W,
) -> Result<(), Stop>
    requires declared { IsDeclared (S.site net.old) }
    requires serves { H.serves requests.now (S.site net.old) }
    requires able { (s : _) (workers : ℕ) (jobs : _) → MayTogether S.site S.stands s.now workers jobs.now → T.pre together.now s workers jobs }
    requires does { (s : _) (workers : ℕ) (jobs result after : _) → MayTogether S.site S.stands s.now workers jobs.now → T.post together.now s workers jobs result after
        → DidTogether S.site S.stands S.rests S.tallied S.armed s.now after.now workers jobs.now result }
    requires workers { (1 ≤ workers) × (workers ≤ 32) }
    requires fit { All (IsEntryFor (S.site net.old)) list }
    requires ready { IsReadySomewhere S.stands net.old }
    requires few { S.armed net.old + count_by arms_a_disk list ≤ 2 ^ 32 }
    ensures site { S.site net.new ≡ S.site net.old }
    ensures ready { OnOk result (IsReadySomewhere S.stands net.new) }
    ensures ran { (http : HttpTexts) (n : Network) (w : World) → H.speaks requests.now http → IsReady S.stands net.old n w → RanTasks S.stands S.rests S.tallied (S.site net.old).nodes net.old net.new (given_to W.taken W.pieces sink.old) (given_to W.taken W.pieces sink.new) http n workers w (map Does list) result }
    ensures blame { IsBlamed (W.faults sink.old) (W.faults sink.new) result }
    ensures lined { InLines W.taken W.pieces (IsItemLine (S.site net.old).nodes) sink.old sink.new result }
{
    for entry in list.into_vec() {
        do_entry(alloc, net, requests, together, workers, entry, sink)?;
    }
    Ok(())
}

/// Runs a scenario. It starts the declared nodes in order and reports each under the number of its line. Then it does the
/// entries in order; `workers` workers do each block, through `together`. What the entries name must be declared, and at most
/// 2^32 of them may arm a disk.
pub fn run_entries<
    S: Acts,
    T: Fn(&mut S, u32, &[Job]) -> Result<DoneBlock, Memory>,
    H: Requests,
    W: Sink,
>(
    alloc: Global,
    net: &mut S,
    requests: &H,
    together: &T,
    workers: u32,
    node_lines: &[u32],
    list: Entries,
    sink: &mut W,
) -> Result<(), Stop>
    requires declared { IsDeclared (S.site net.old) }
    requires nodes { length node_lines.now ≤ length (S.site net.old).nodes }
    requires serves { H.serves requests.now (S.site net.old) }
    requires able { (s : _) (workers : ℕ) (jobs : _) → MayTogether S.site S.stands s.now workers jobs.now → T.pre together.now s workers jobs }
    requires does { (s : _) (workers : ℕ) (jobs result after : _) → MayTogether S.site S.stands s.now workers jobs.now → T.post together.now s workers jobs result after
        → DidTogether S.site S.stands S.rests S.tallied S.armed s.now after.now workers jobs.now result }
    requires workers { (1 ≤ workers) × (workers ≤ 32) }
    requires fit { All (IsEntryFor (S.site net.old)) list }
    requires ready { IsReadySomewhere S.stands net.old }
    requires few { S.armed net.old + count_by arms_a_disk list ≤ 2 ^ 32 }
    ensures site { S.site net.new ≡ S.site net.old }
    ensures ready { OnOk result (IsReadySomewhere S.stands net.new) }
    ensures ran { (http : HttpTexts) (n : Network) (w : World) → H.speaks requests.now http → IsReady S.stands net.old n w → RanTasks S.stands S.rests S.tallied (S.site net.old).nodes net.old net.new (given_to W.taken W.pieces sink.old) (given_to W.taken W.pieces sink.new) http n workers w (tasks node_lines.now list) result }
    ensures blame { IsBlamed (W.faults sink.old) (W.faults sink.new) result }
    ensures lined { InLines W.taken W.pieces (IsItemLine (S.site net.old).nodes) sink.old sink.new result }
{
    match begin_all(alloc, net, node_lines, sink) {
        Ok(()) => do_all(alloc, net, requests, together, workers, list, sink),
        Err(stop) => Err(stop),
    }
}
