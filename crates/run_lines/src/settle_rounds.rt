// Settle lines: rounds of ticks and passes.
ghost use Rattle.std.specs.Prelude.{◌≡◌, ◌+◌, ◌≤◌, ◌^◌, IfOk, OnErr, MatchResult, map, nat_lt, if◌then◌else◌};
ghost use Rattle.declared_site.specs.SiteOf.{IsDeclared, site_of};
ghost use Rattle.net_model.specs.World.{Network, World};
ghost use Rattle.run_model.specs.Script.{Script, Ends};
ghost use Rattle.run_model.specs.Lines.{all_lanes, all_passes, settle};
ghost use Rattle.run_model.specs.Headline.{given_to};
ghost use Rattle.run_ops.specs.Acting.{IsReady};
ghost use Rattle.run_lines.specs.Reporting.{InLines, IsBlamed, IsItemLine};
ghost use Rattle.run_lines.specs.Going.{Reached};
ghost use Rattle.run_lines.specs.Running.{Finishes, Stops, Runs, IsReadySomewhere};
ghost use Rattle.run_lines.specs.Counting.{on_wire, AreOn, round};

use crate::Stop;
use crate::lanes::all_lanes;
use crate::rounds::{pass_from, tick_all};
use edge_io::Sink;
use qkd_base::{Lane, Memory};
use run_ops::Acts;
use std::alloc::Global;

/// The number of frames on each of some wires, and on all of them.
#[derive(Drop)]
pub struct Frames {
    pub each: Vec<u64>,
    pub all: u64,
}

// Counts the frames on these lanes' wires.
fn count_frames<S: Acts>(alloc: Global, net: &S, lanes: &[Lane]) -> Result<Frames, Memory>
    requires { lanes.now ≡ all_lanes (site_of (S.site net.now)) }
    ensures { IfOk result (λ frames. (n : Network) (w : World) → S.stands net.now n w → AreOn lanes.now w frames) }
{
    let mut each = Vec::new(alloc);
    let mut all = 0u64;
    for lane in lanes {
        let count = net.on_wire(*lane);
        all = more_frames(all, count)?;
        each.push(count)?;
    }
    Ok(Frames { each, all })
}

// The sum of two numbers of frames. An `Err` (out of memory) if it overflows.
fn more_frames(frames: u64, more: u64) -> Result<u64, Memory>
    ensures sum { IfOk result (λ sum. sum ≡ frames + more) }
    ensures large { OnErr result (2 ^ 64 ≤ frames + more) }
{
    match frames.checked_add(more) {
        Some(sum) => Ok(sum),
        None => Err(Memory),
    }
}

// Brings the frames that were put in this round to their receivers, wire by wire. Returns the number of frames on the
// wires.
fn pass_new<S: Acts, W: Sink>(
    alloc: Global,
    net: &mut S,
    number: u32,
    lanes: &[Lane],
    before: &[u64],
    sink: &mut W,
) -> Result<Frames, Stop>
    requires lanes { lanes.now ≡ all_lanes (site_of (S.site net.old)) }
    requires ready { (n : Network) × (earlier : World) × (w : World) × IsReady S.stands net.old n w × (before.now ≡ map (on_wire earlier) lanes.now) }
    ensures site { S.site net.new ≡ S.site net.old }
    ensures armed { S.armed net.new ≡ S.armed net.old }
    ensures runs { (n : Network) (earlier w : World) → IsReady S.stands net.old n w → before.now ≡ map (on_wire earlier) lanes.now →
        MatchResult result
        (λ frames. Finishes S.stands S.tallied (S.site net.old).nodes net.old net.new (given_to W.taken W.pieces sink.old) (given_to W.taken W.pieces sink.new) number n w (all_passes earlier w lanes.now) × AreOn lanes.now w frames)
        (λ stop. Stops S.rests S.tallied (S.site net.old).nodes net.old net.new (given_to W.taken W.pieces sink.old) (given_to W.taken W.pieces sink.new) number n w (all_passes earlier w lanes.now) stop) }
    ensures blame { IsBlamed (W.faults sink.old) (W.faults sink.new) result }
    ensures lined { InLines W.taken W.pieces (IsItemLine (S.site net.old).nodes) sink.old sink.new result }
{
    let mut each = Vec::new(alloc);
    let mut all = 0u64;
    for place in 0..lanes.len() {
        let lane = &lanes[place];
        let count = net.on_wire(*lane);
        pass_from(alloc, net, number, lane, before[place], count, sink)?;
        all = match more_frames(all, count) {
            Ok(sum) => sum,
            Err(_) => return Err(Stop::Memory),
        };
        match each.push(count) {
            Ok(()) => {}
            Err(_) => return Err(Stop::Memory),
        }
    }
    Ok(Frames { each, all })
}

// Runs one round. Returns the number of frames on the wires after it.
fn round<S: Acts, W: Sink>(
    alloc: Global,
    net: &mut S,
    number: u32,
    lanes: &[Lane],
    before: &Frames,
    sink: &mut W,
) -> Result<Frames, Stop>
    requires declared { IsDeclared (S.site net.old) }
    requires lanes { lanes.now ≡ all_lanes (site_of (S.site net.old)) }
    requires ready { (n : Network) × (w : World) × IsReady S.stands net.old n w × AreOn lanes.now w before.now }
    ensures site { S.site net.new ≡ S.site net.old }
    ensures armed { S.armed net.new ≡ S.armed net.old }
    ensures runs { (next : Script) (n : Network) (w : World) → IsReady S.stands net.old n w → AreOn lanes.now w before.now →
        MatchResult result
        (λ now. (after : World) × Reached S.stands S.tallied (S.site net.old).nodes net.old net.new (given_to W.taken W.pieces sink.old) (given_to W.taken W.pieces sink.new) number n w (round (site_of (S.site net.old)) next) after (if nat_lt before.now.all now.all then next else Ends) × AreOn lanes.now after now)
        (λ stop. Stops S.rests S.tallied (S.site net.old).nodes net.old net.new (given_to W.taken W.pieces sink.old) (given_to W.taken W.pieces sink.new) number n w (round (site_of (S.site net.old)) next) stop) }
    ensures blame { IsBlamed (W.faults sink.old) (W.faults sink.new) result }
    ensures lined { InLines W.taken W.pieces (IsItemLine (S.site net.old).nodes) sink.old sink.new result }
{
    match tick_all(alloc, net, number, sink) {
        Ok(()) => pass_new(alloc, net, number, lanes, before.each.as_slice(), sink),
        Err(stop) => Err(stop),
    }
}

/// Runs at most `rounds` rounds. It ends after a round in which no frame was put on a wire.
pub fn settle<S: Acts, W: Sink>(
    alloc: Global,
    net: &mut S,
    number: u32,
    rounds: u16,
    sink: &mut W,
) -> Result<(), Stop>
    requires declared { IsDeclared (S.site net.old) }
    requires ready { IsReadySomewhere S.stands net.old }
    ensures site { S.site net.new ≡ S.site net.old }
    ensures armed { S.armed net.new ≡ S.armed net.old }
    ensures runs { Runs S.stands S.rests S.tallied (S.site net.old).nodes net.old net.new (given_to W.taken W.pieces sink.old) (given_to W.taken W.pieces sink.new) number (settle (site_of (S.site net.old)) rounds) result }
    ensures blame { IsBlamed (W.faults sink.old) (W.faults sink.new) result }
    ensures lined { InLines W.taken W.pieces (IsItemLine (S.site net.old).nodes) sink.old sink.new result }
{
    let lanes = match all_lanes(alloc, net.declared()) {
        Ok(lanes) => lanes,
        Err(_) => return Err(Stop::Memory),
    };
    let mut frames = match count_frames(alloc, net, &lanes) {
        Ok(frames) => frames,
        Err(_) => return Err(Stop::Memory),
    };
    for _turn in 0..rounds {
        let now = round(alloc, net, number, &lanes, &frames, sink)?;
        if now.all <= frames.all {
            return Ok(());
        }
        frames = now;
    }
    Ok(())
}
