// Lines that ask a manager.
ghost use Rattle.std.specs.Prelude.{◌≡◌, ◌<◌, true, length};
ghost use Rattle.declared_site.specs.SiteOf.{site_of};
ghost use Rattle.net_model.specs.declared.event.Event.TheVariants as events;
ghost use Rattle.net_model.specs.Site.{sender};
ghost use Rattle.net_model.specs.Events.{is_lane};
ghost use Rattle.net_model.specs.Action.{Ok as Fine, Ask};
ghost use Rattle.run_model.specs.Script.{Asks, Looks, asks, reports};
ghost use Rattle.run_model.specs.Outcomes.{ledger_items};
ghost use Rattle.run_model.specs.Lines.{ticked};
ghost use Rattle.run_model.specs.Headline.{given_to};
ghost use Rattle.run_ops.specs.Reported.{reported};
ghost use Rattle.run_ops.specs.Fitting.{is_fit};
ghost use Rattle.run_lines.specs.Reporting.{InLines, IsBlamed, IsItemLine};
ghost use Rattle.run_lines.specs.Running.{Runs, IsReadySomewhere};

use crate::Stop;
use crate::report::{write_items, write_some};
use edge_io::Sink;
use kme_base::sender;
use net_model::Event;
use qkd_base::{Lane, NodeNo};
use run_ops::{Acts, Asked, ledger_item};
use std::alloc::Global;

/// Asks a manager to handle an event, and reports its reply.
#[tactic(auto, using(crate::proofs::Lines::stopped_unwritten))]
pub fn ask<S: Acts, W: Sink>(
    alloc: Global,
    net: &mut S,
    number: u32,
    asked: Asked,
    sink: &mut W,
) -> Result<(), Stop>
    requires fit { is_fit (site_of (S.site net.old)) (Ask asked.node asked.event Fine) ≡ true }
    requires ready { IsReadySomewhere S.stands net.old }
    ensures site { S.site net.new ≡ S.site net.old }
    ensures armed { S.armed net.new ≡ S.armed net.old }
    ensures runs { Runs S.stands S.rests S.tallied (S.site net.old).nodes net.old net.new (given_to W.taken W.pieces sink.old) (given_to W.taken W.pieces sink.new) number (asks (Ask asked.node asked.event Fine) (reported asked.reporting)) result }
    ensures blame { IsBlamed (W.faults sink.old) (W.faults sink.new) result }
    ensures lined { InLines W.taken W.pieces (IsItemLine (S.site net.old).nodes) sink.old sink.new result }
{
    let Asked {
        node,
        event,
        reporting,
    } = asked;
    let reply = net.ask(node, &event);
    match reporting.items(alloc, reply) {
        Ok(items) => write_items(alloc, net.declared(), number, items.as_slice(), sink),
        Err(_) => Err(Stop::Memory),
    }
}

/// Reports how the bytes of a lane were used, if the manager of the lane's sender answers.
pub fn ledger<S: Acts, W: Sink>(
    alloc: Global,
    net: &mut S,
    number: u32,
    lane: &Lane,
    sink: &mut W,
) -> Result<(), Stop>
    requires lane { is_lane (site_of (S.site net.old)) lane.now ≡ true }
    requires fit { is_fit (site_of (S.site net.old)) (Ask (sender (site_of (S.site net.old)) lane.now) (events.Ledger lane.now) Fine) ≡ true }
    requires ready { IsReadySomewhere S.stands net.old }
    ensures site { S.site net.new ≡ S.site net.old }
    ensures armed { S.armed net.new ≡ S.armed net.old }
    ensures runs { Runs S.stands S.rests S.tallied (S.site net.old).nodes net.old net.new (given_to W.taken W.pieces sink.old) (given_to W.taken W.pieces sink.new) number (Asks (Ask (sender (site_of (S.site net.old)) lane.now) (events.Ledger lane.now) Fine) (λ out. Looks (λ w. reports (ledger_items lane.now w out)))) result }
    ensures blame { IsBlamed (W.faults sink.old) (W.faults sink.new) result }
    ensures lined { InLines W.taken W.pieces (IsItemLine (S.site net.old).nodes) sink.old sink.new result }
{
    let node = sender(net.declared(), *lane);
    let reply = net.ask(node, &Event::Ledger { lane: *lane });
    let counts = net.counts(*lane);
    let item = ledger_item(*lane, counts, &reply);
    write_some(alloc, net.declared(), number, item, sink)
}

/// A tick: a node plans, puts its frames on their wires, and notes what became of them. A quiet tick doesn't report
/// that there was nothing to do.
#[tactic(auto, using(crate::proofs::Lines::stopped_unwritten))]
pub fn tick<S: Acts, W: Sink>(
    alloc: Global,
    net: &mut S,
    number: u32,
    node: NodeNo,
    quiet: bool,
    sink: &mut W,
) -> Result<(), Stop>
    requires node { node < length (S.site net.old).nodes }
    requires ready { IsReadySomewhere S.stands net.old }
    ensures site { S.site net.new ≡ S.site net.old }
    ensures armed { S.armed net.new ≡ S.armed net.old }
    ensures runs { Runs S.stands S.rests S.tallied (S.site net.old).nodes net.old net.new (given_to W.taken W.pieces sink.old) (given_to W.taken W.pieces sink.new) number (ticked (site_of (S.site net.old)) quiet node) result }
    ensures blame { IsBlamed (W.faults sink.old) (W.faults sink.new) result }
    ensures lined { InLines W.taken W.pieces (IsItemLine (S.site net.old).nodes) sink.old sink.new result }
{
    match net.tick(node, quiet) {
        Ok(items) => write_items(alloc, net.declared(), number, items.as_slice(), sink),
        Err(_) => Err(Stop::Memory),
    }
}
