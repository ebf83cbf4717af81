// The ticks and passes of a settle line's rounds.
ghost use Rattle.std.specs.Prelude.{◌≡◌, ◌<◌, ◌≤◌, ◌-◌, ◌^◌, true, length, IfOk, OnErr, if◌then◌else◌};
ghost use Rattle.declared_site.specs.SiteOf.{IsDeclared, site_of};
ghost use Rattle.net_model.specs.Site.{count_up};
ghost use Rattle.net_model.specs.Events.{is_lane};
ghost use Rattle.run_model.specs.Script.{Looks, Ends};
ghost use Rattle.run_model.specs.Lines.{ticked, ticks, passes};
ghost use Rattle.run_model.specs.Headline.{given_to};
ghost use Rattle.run_lines.specs.Reporting.{InLines, IsBlamed, IsItemLine};
ghost use Rattle.run_lines.specs.Running.{Runs, IsReadySomewhere};

use crate::Stop;
use crate::frames::pass;
use crate::manager_lines::tick;
use edge_io::Sink;
use qkd_base::{Lane, Memory, NodeNo};
use run_ops::Acts;
use std::alloc::Global;

// A quiet tick of a node, if it is up.
fn tick_if_up<S: Acts, W: Sink>(
    alloc: Global,
    net: &mut S,
    number: u32,
    node: NodeNo,
    sink: &mut W,
) -> Result<(), Stop>
    requires node { node < length (S.site net.old).nodes }
    requires ready { IsReadySomewhere S.stands net.old }
    ensures site { S.site net.new ≡ S.site net.old }
    ensures armed { S.armed net.new ≡ S.armed net.old }
    ensures runs { Runs S.stands S.rests S.tallied (S.site net.old).nodes net.old net.new (given_to W.taken W.pieces sink.old) (given_to W.taken W.pieces sink.new) number (Looks (λ w. if w.up node then ticked (site_of (S.site net.old)) true node else Ends)) result }
    ensures blame { IsBlamed (W.faults sink.old) (W.faults sink.new) result }
    ensures lined { InLines W.taken W.pieces (IsItemLine (S.site net.old).nodes) sink.old sink.new result }
{
    if net.is_up(node) {
        tick(alloc, net, number, node, true, sink)
    } else {
        Ok(())
    }
}

/// A quiet tick of each node that is up, in order.
pub fn tick_all<S: Acts, W: Sink>(
    alloc: Global,
    net: &mut S,
    number: u32,
    sink: &mut W,
) -> Result<(), Stop>
    requires declared { IsDeclared (S.site net.old) }
    requires ready { IsReadySomewhere S.stands net.old }
    ensures site { S.site net.new ≡ S.site net.old }
    ensures armed { S.armed net.new ≡ S.armed net.old }
    ensures runs { Runs S.stands S.rests S.tallied (S.site net.old).nodes net.old net.new (given_to W.taken W.pieces sink.old) (given_to W.taken W.pieces sink.new) number (ticks (site_of (S.site net.old)) (count_up (site_of (S.site net.old)).nodes)) result }
    ensures blame { IsBlamed (W.faults sink.old) (W.faults sink.new) result }
    ensures lined { InLines W.taken W.pieces (IsItemLine (S.site net.old).nodes) sink.old sink.new result }
{
    let nodes = net.declared().nodes.len();
    for place in 0..nodes {
        let node = NodeNo::new(place as u8).unwrap();
        tick_if_up(alloc, net, number, node, sink)?;
    }
    Ok(())
}

// The number of a frame, for a report. An `Err` (out of memory) if it doesn't fit in 32 bits.
fn reported_number(frame: u64) -> Result<u32, Memory>
    ensures number { IfOk result (λ number. number ≡ frame) }
    ensures large { OnErr result (2 ^ 32 ≤ frame) }
{
    match u32::try_from(frame) {
        Ok(number) => Ok(number),
        Err(_) => Err(Memory),
    }
}

/// Brings the frames of a lane's wire with numbers from `from` to `to` - 1 to the lane's receiver.
pub fn pass_from<S: Acts, W: Sink>(
    alloc: Global,
    net: &mut S,
    number: u32,
    lane: &Lane,
    from: u64,
    to: u64,
    sink: &mut W,
) -> Result<(), Stop>
    requires lane { is_lane (site_of (S.site net.old)) lane.now ≡ true }
    requires ready { IsReadySomewhere S.stands net.old }
    ensures site { S.site net.new ≡ S.site net.old }
    ensures armed { S.armed net.new ≡ S.armed net.old }
    ensures runs { Runs S.stands S.rests S.tallied (S.site net.old).nodes net.old net.new (given_to W.taken W.pieces sink.old) (given_to W.taken W.pieces sink.new) number (passes lane.now from (to - from)) result }
    ensures blame { IsBlamed (W.faults sink.old) (W.faults sink.new) result }
    ensures lined { InLines W.taken W.pieces (IsItemLine (S.site net.old).nodes) sink.old sink.new result }
{
    for place in from..to {
        let frame = match reported_number(place) {
            Ok(frame) => frame,
            Err(_) => return Err(Stop::Memory),
        };
        pass(alloc, net, number, lane, frame, sink)?;
    }
    Ok(())
}
