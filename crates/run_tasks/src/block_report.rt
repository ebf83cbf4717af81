// The report of a block.
ghost use Rattle.std.specs.Prelude.{◌≡◌, ◌++◌, IfOk, map};
ghost use Rattle.std.specs.Option.{option_to_list};
ghost use Rattle.run_model.specs.Turn.{HttpTexts};
ghost use Rattle.run_model.specs.Headline.{given_to, report_pieces};
ghost use Rattle.run_lines.specs.Reporting.{InLines, IsBlamed, IsItemLine, Wrote};
ghost use Rattle.run_tasks.specs.declared.prepared.Telling.TheVariants as tellings;
ghost use Rattle.run_tasks.specs.Prepared.{tells, told_item};
ghost use Rattle.run_tasks.specs.Reported.{number_in, turn_told, turns_told, frames_told};

use crate::prepared::{Place, Telling, Told};
use declared_site::Site;
use edge_io::Sink;
use net_model::Reply;
use qkd_base::{Items, Memory, NodeNo};
use run_lines::{Answer, Requests, Stop, write_item, write_items};
use run_ops::{Delivery, DoneBlock, Job, PutFrame, Turned, http_item, passed_item};
use run_types::Item;
use std::alloc::Global;

// The list of this one item, or the empty list.
fn listed(alloc: Global, item: Option<Item>) -> Result<Items<Item>, Memory>
    ensures { IfOk result (λ items. items ≡ option_to_list item) }
{
    let mut items = Items::new(alloc);
    match item {
        Some(item) => items.push(item)?,
        None => {}
    }
    Ok(items)
}

// The answer to a request, if the job is one.
fn answered<H: Requests>(
    alloc: Global,
    requests: &H,
    job: &Job,
    node: NodeNo,
    reply: &Reply,
) -> Result<Option<Item>, Memory>
    ensures { IfOk result (λ item. (http : HttpTexts) → H.speaks requests.now http → option_to_list item ≡ tells http job.now (tellings.Answered node) reply.now) }
{
    match job {
        Job::Ask { event, .. } => {
            let Answer { status, body } = requests.answer(alloc, event, reply)?;
            Ok(Some(http_item(node, status, body)))
        }
        Job::Nothing => Ok(None),
        Job::Pass { .. } => Ok(None),
    }
}

// What is reported of the reply to a job.
fn told_of<H: Requests>(
    alloc: Global,
    requests: &H,
    job: &Job,
    telling: &Telling,
    reply: Reply,
) -> Result<Items<Item>, Memory>
    ensures { IfOk result (λ items. (http : HttpTexts) → H.speaks requests.now http → items ≡ tells http job.now telling.now reply) }
{
    match telling {
        Telling::Nothing => Ok(Items::new(alloc)),
        Telling::Asked(reporting) => reporting.items(alloc, reply),
        Telling::Passed { lane, frame } => {
            let delivery = Delivery::Replied(reply);
            listed(alloc, passed_item(*lane, *frame, &delivery))
        }
        Telling::Answered { node } => {
            let item = answered(alloc, requests, job, *node, &reply)?;
            listed(alloc, item)
        }
    }
}

// Writes what is reported of lines that ask nobody.
fn write_told<W: Sink>(alloc: Global, site: &Site, told: &[Told], sink: &mut W) -> Result<(), Stop>
    ensures wrote { Wrote result (given_to W.taken W.pieces sink.old) (given_to W.taken W.pieces sink.new) (report_pieces site.now.nodes (map told_item told.now)) }
    ensures blame { IsBlamed (W.faults sink.old) (W.faults sink.new) result }
    ensures lined { InLines W.taken W.pieces (IsItemLine site.now.nodes) sink.old sink.new result }
{
    for each in told {
        write_item(alloc, site, each.number, &each.item, sink)?;
    }
    Ok(())
}

// Writes what is reported of one reply.
#[tactic(auto, using(run_lines::proofs::Lines::stopped_unwritten, run_lines::proofs::Lines::none_lined, run_lines::proofs::Taking::first_none))]
fn write_turn<H: Requests, W: Sink>(
    alloc: Global,
    site: &Site,
    requests: &H,
    jobs: &[Job],
    places: &[Place],
    turned: Turned,
    sink: &mut W,
) -> Result<(), Stop>
    ensures wrote { (http : HttpTexts) → H.speaks requests.now http → Wrote result (given_to W.taken W.pieces sink.old) (given_to W.taken W.pieces sink.new) (report_pieces site.now.nodes (turn_told http jobs.now places.now turned)) }
    ensures blame { IsBlamed (W.faults sink.old) (W.faults sink.new) result }
    ensures lined { InLines W.taken W.pieces (IsItemLine site.now.nodes) sink.old sink.new result }
{
    let Turned { place, reply } = turned;
    match jobs.get(place) {
        None => Ok(()),
        Some(job) => match places.get(place) {
            None => Ok(()),
            Some(at) => match told_of(alloc, requests, job, &at.telling, reply) {
                Ok(items) => write_items(alloc, site, at.number, items.as_slice(), sink),
                Err(_) => Err(Stop::Memory),
            },
        },
    }
}

// Writes what is reported of each reply.
fn write_turns<H: Requests, W: Sink>(
    alloc: Global,
    site: &Site,
    requests: &H,
    jobs: &[Job],
    places: &[Place],
    turns: Vec<Turned>,
    sink: &mut W,
) -> Result<(), Stop>
    ensures wrote { (http : HttpTexts) → H.speaks requests.now http → Wrote result (given_to W.taken W.pieces sink.old) (given_to W.taken W.pieces sink.new) (report_pieces site.now.nodes (turns_told http jobs.now places.now turns.items)) }
    ensures blame { IsBlamed (W.faults sink.old) (W.faults sink.new) result }
    ensures lined { InLines W.taken W.pieces (IsItemLine site.now.nodes) sink.old sink.new result }
{
    for turned in turns {
        write_turn(alloc, site, requests, jobs, places, turned, sink)?;
    }
    Ok(())
}

// The number of the line at a place; 0 if there is no such place.
fn number_at(places: &[Place], place: usize) -> u32
    ensures { result ≡ number_in places.now place }
{
    match places.get(place) {
        None => 0,
        Some(at) => at.number,
    }
}

// Writes what is reported of each frame.
fn write_frames<W: Sink>(
    alloc: Global,
    site: &Site,
    places: &[Place],
    frames: &[PutFrame],
    sink: &mut W,
) -> Result<(), Stop>
    ensures wrote { Wrote result (given_to W.taken W.pieces sink.old) (given_to W.taken W.pieces sink.new) (report_pieces site.now.nodes (frames_told places.now frames.now)) }
    ensures blame { IsBlamed (W.faults sink.old) (W.faults sink.new) result }
    ensures lined { InLines W.taken W.pieces (IsItemLine site.now.nodes) sink.old sink.new result }
{
    for frame in frames {
        let number = number_at(places, frame.place);
        write_item(alloc, site, number, &frame.item, sink)?;
    }
    Ok(())
}

/// Writes the report of a block: the items of lines that ask nobody, then the managers' replies, and last the frames.
pub fn report<H: Requests, W: Sink>(
    alloc: Global,
    site: &Site,
    requests: &H,
    jobs: &[Job],
    places: &[Place],
    told: &[Told],
    done: DoneBlock,
    sink: &mut W,
) -> Result<(), Stop>
    ensures wrote { (http : HttpTexts) → H.speaks requests.now http → Wrote result (given_to W.taken W.pieces sink.old) (given_to W.taken W.pieces sink.new) (report_pieces site.now.nodes (map told_item told.now ++ turns_told http jobs.now places.now done.turns.items ++ frames_told places.now done.frames.items)) }
    ensures blame { IsBlamed (W.faults sink.old) (W.faults sink.new) result }
    ensures lined { InLines W.taken W.pieces (IsItemLine site.now.nodes) sink.old sink.new result }
{
    let DoneBlock { turns, frames } = done;
    write_told(alloc, site, told, sink)?;
    write_turns(alloc, site, requests, jobs, places, turns, sink)?;
    write_frames(alloc, site, places, &frames, sink)
}
