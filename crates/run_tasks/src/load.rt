// Running the tasks of a load.
ghost use Rattle.std.specs.Prelude.{◌≡◌, ◌≤◌, ◌++◌, ◌∷◌, [], true, List, map, length, OnOk, MatchResult};
ghost use Rattle.std.specs.List.{All, AllByRecursion, list_all};
ghost use Rattle.declared_site.specs.SiteOf.{IsDeclared, site_of};
ghost use Rattle.net_model.specs.World.{Network, World};
ghost use Rattle.run_types.specs.declared.line.Line.{Line as LineValue};
ghost use Rattle.run_types.specs.declared.entry.Entry.TheVariants as entries;
ghost use Rattle.run_types.specs.Texts.{handed_text};
ghost use Rattle.run_model.specs.Turn.{HttpTexts};
ghost use Rattle.run_model.specs.Lines.{script_of};
ghost use Rattle.run_model.specs.Report.{Task, starts_from, tasks, Does};
ghost use Rattle.run_model.specs.Headline.{Given, given_to};
ghost use Rattle.run_ops.specs.Acting.{IsReady};
ghost use Rattle.run_ops.specs.Runnable.{IsEntryFor};
ghost use Rattle.run_lines.specs.Reporting.{InLines, IsBlamed, IsItemLine, Wrote};
ghost use Rattle.run_lines.specs.Running.{IsReadySomewhere};
ghost use Rattle.law_run.specs.Kinds.{is_load_entry};
ghost use Rattle.run_tasks.specs.Counting.{no_keys};
ghost use Rattle.run_tasks.specs.Entries.{IsLineFor};
ghost use Rattle.run_tasks.specs.Leading.{Went};
ghost use Rattle.run_tasks.specs.Lines.{Runs};
ghost use Rattle.run_tasks.specs.Pieces.{IsHandedLine, IsLoadLine};
ghost use Rattle.run_tasks.specs.Loaded.{Stopped, Goes, RanLoad};

use crate::handed::Handed;
use crate::lines::load_line;
use crate::unheard::Unheard;
use edge_io::{Failed, Sink};
use qkd_base::NodeNo;
use report_text::handed_text;
use run_lines::{Stop, begin};
use run_ops::Acts;
use run_types::{Entries, Entry, Line};
use std::alloc::Global;

// Starts the declared nodes in order. No sink takes anything of their report. Any tasks after the starts are left to do.
fn begin_all<S: Acts>(alloc: Global, net: &mut S, node_lines: &[u32]) -> Result<(), Stop>
    requires declared { IsDeclared (S.site net.old) }
    requires nodes { length node_lines.now ≤ length (S.site net.old).nodes }
    requires ready { IsReadySomewhere S.stands net.old }
    ensures site { S.site net.new ≡ S.site net.old }
    ensures armed { S.armed net.new ≡ S.armed net.old }
    ensures ran { (http : HttpTexts) (n : Network) (w : World) (last : List Task) (taken : Given) → IsReady S.stands net.old n w →
        MatchResult result
        (λ done. (after : World) × Went S.stands S.tallied (S.site net.old).nodes net.old net.new taken taken http n w (starts_from 0 node_lines.now ++ last) after last no_keys)
        (λ stop. Stopped S.rests S.tallied (S.site net.old).nodes net.old net.new taken taken http n w (starts_from 0 node_lines.now ++ last) stop) }
    ensures blame { IsBlamed 0 0 result }
{
    for place in 0..node_lines.len() {
        let node = NodeNo::new(place as u8).unwrap();
        begin(alloc, net, node_lines[place], node, &mut Unheard)?;
    }
    Ok(())
}

// Does an entry, which must be a line.
#[tactic(auto, using(crate::proofs::Pieces::unwritten))]
fn do_entry<S: Acts, W: Sink>(
    alloc: Global,
    net: &mut S,
    entry: Entry,
    sink: &mut W,
) -> Result<Handed, Stop>
    requires declared { IsDeclared (S.site net.old) }
    requires load { is_load_entry entry ≡ true }
    requires fit { IsLineFor (S.site net.old) entry }
    requires ready { IsReadySomewhere S.stands net.old }
    ensures site { S.site net.new ≡ S.site net.old }
    ensures armed { S.armed net.new ≡ S.armed net.old }
    ensures ready { OnOk result (IsReadySomewhere S.stands net.new) }
    ensures runs { (http : HttpTexts) (line : LineValue) → entry ≡ entries.Line line → Runs S.stands S.rests S.tallied (S.site net.old).nodes net.old net.new (given_to W.taken W.pieces sink.old) (given_to W.taken W.pieces sink.new) line.number (script_of http (site_of (S.site net.old)) line.command) result }
    ensures blame { IsBlamed (W.faults sink.old) (W.faults sink.new) result }
    ensures lined { InLines W.taken W.pieces (IsItemLine (S.site net.old).nodes) sink.old sink.new result }
{
    match entry {
        Entry::Line(line) => {
            let Line { number, command } = line;
            load_line(alloc, net, number, command, sink)
        }
        Entry::Block(_) => Ok(Handed::none()),
    }
}

// Does the entries in order, and counts the keys that they hand out.
fn do_all<S: Acts, W: Sink>(
    alloc: Global,
    net: &mut S,
    list: Entries,
    sink: &mut W,
) -> Result<Handed, Stop>
    requires declared { IsDeclared (S.site net.old) }
    requires load { list_all is_load_entry list ≡ true }
    requires fit { AllByRecursion (IsLineFor (S.site net.old)) list }
    requires ready { IsReadySomewhere S.stands net.old }
    ensures site { S.site net.new ≡ S.site net.old }
    ensures armed { S.armed net.new ≡ S.armed net.old }
    ensures ran { (http : HttpTexts) (n : Network) (w : World) → IsReady S.stands net.old n w → Goes S.stands S.rests S.tallied (S.site net.old).nodes net.old net.new (given_to W.taken W.pieces sink.old) (given_to W.taken W.pieces sink.new) http n w (map Does list) [] result }
    ensures blame { IsBlamed (W.faults sink.old) (W.faults sink.new) result }
    ensures lined { InLines W.taken W.pieces (IsItemLine (S.site net.old).nodes) sink.old sink.new result }
{
    let mut handed = Handed::none();
    for entry in list.into_vec() {
        let more = do_entry(alloc, net, entry, sink)?;
        handed = match handed.plus(more) {
            Ok(all) => all,
            Err(_) => return Err(Stop::Memory),
        };
    }
    Ok(handed)
}

// Writes the last line of the report.
#[tactic(auto, using(crate::proofs::Pieces::unhanded))]
fn write_handed<W: Sink>(alloc: Global, handed: Handed, sink: &mut W) -> Result<(), Stop>
    ensures wrote { Wrote result (given_to W.taken W.pieces sink.old) (given_to W.taken W.pieces sink.new) (handed_text handed.masters handed.slaves ∷ []) }
    ensures blame { IsBlamed (W.faults sink.old) (W.faults sink.new) result }
    ensures lined { InLines W.taken W.pieces IsHandedLine sink.old sink.new result }
{
    let Ok(text) = handed_text(alloc, handed.masters, handed.slaves) else {
        return Err(Stop::Memory);
    };
    match sink.write_all(text.as_slice()) {
        Ok(()) => Ok(()),
        Err(Failed) => Err(Stop::WriteFault),
    }
}

/// Runs a load. It starts the declared nodes in order and then does the entries in order. These are lines of the kinds that a
/// load has, and they name only what is declared. The sink takes the reported ledgers, each under the number of its line.
/// Once all is done, it takes the numbers of keys that were handed to masters and to slaves. The run stops early if the sink
/// fails, if memory runs out, or if octets that nobody put on a wire have a right tag.
pub fn run_load<S: Acts, W: Sink>(
    alloc: Global,
    net: &mut S,
    node_lines: &[u32],
    list: Entries,
    sink: &mut W,
) -> Result<(), Stop>
    requires declared { IsDeclared (S.site net.old) }
    requires nodes { length node_lines.now ≤ length (S.site net.old).nodes }
    requires load { list_all is_load_entry list ≡ true }
    requires fit { All (IsEntryFor (S.site net.old)) list }
    requires ready { IsReadySomewhere S.stands net.old }
    ensures site { S.site net.new ≡ S.site net.old }
    ensures armed { S.armed net.new ≡ S.armed net.old }
    ensures ran { (http : HttpTexts) (n : Network) (w : World) → IsReady S.stands net.old n w → RanLoad S.stands S.rests S.tallied (S.site net.old).nodes net.old net.new (given_to W.taken W.pieces sink.old) (given_to W.taken W.pieces sink.new) http n w (tasks node_lines.now list) result }
    ensures blame { IsBlamed (W.faults sink.old) (W.faults sink.new) result }
    ensures lined { InLines W.taken W.pieces (IsLoadLine (S.site net.old).nodes) sink.old sink.new result }
{
    begin_all(alloc, net, node_lines)?;
    match do_all(alloc, net, list, sink) {
        Ok(handed) => write_handed(alloc, handed, sink),
        Err(stop) => Err(stop),
    }
}
