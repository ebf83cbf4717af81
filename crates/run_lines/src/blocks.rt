// Lines by which ends of links take blocks of bytes.
ghost use Rattle.std.specs.Prelude.{◌≡◌, true, Bool};
ghost use Rattle.declared_site.specs.SiteOf.{site_of};
ghost use Rattle.net_model.specs.Action.{Ok as Fine, TakeBlock};
ghost use Rattle.run_types.specs.declared.end.End.TheVariants as places;
ghost use Rattle.run_model.specs.Script.{Script};
ghost use Rattle.run_model.specs.Lines.{node_at, is_taken, block_at_end, blocks, has_low, has_high};
ghost use Rattle.run_model.specs.Headline.{given_to};
ghost use Rattle.run_ops.specs.Reported.{taken};
ghost use Rattle.run_ops.specs.Fitting.{is_fit};
ghost use Rattle.run_lines.specs.Reporting.{InLines, IsBlamed, IsItemLine};
ghost use Rattle.run_lines.specs.Running.{Runs, Goes, IsReadySomewhere};

use crate::Stop;
use crate::report::write_some;
use declared_site::Site;
use edge_io::Sink;
use kme_base::{receiver, sender};
use net_model::Reply;
use qkd_base::{Lane, LinkNo, NodeNo, Way};
use run_ops::{Acts, BlockTake, block_item};
use run_types::{End, Ends};
use std::alloc::Global;

// The node at an end of a link.
fn node_at(site: &Site, link: LinkNo, end: End) -> NodeNo
    ensures { result ≡ node_at (site_of site.now) link end }
{
    let lane = Lane { link, way: Way::Up };
    match end {
        End::Low => sender(site, lane),
        End::High => receiver(site, lane),
    }
}

// Whether a block was taken.
fn is_taken(take: &BlockTake) -> bool
    ensures { result ≡ is_taken (taken take.now) }
{
    match take {
        BlockTake::Replied(Reply::Took { .. }) => true,
        _ => false,
    }
}

fn has_low(ends: Ends) -> bool
    ensures { result ≡ has_low ends }
{
    match ends {
        Ends::Low | Ends::Both => true,
        Ends::High => false,
    }
}

fn has_high(ends: Ends) -> bool
    ensures { result ≡ has_high ends }
{
    match ends {
        Ends::High | Ends::Both => true,
        Ends::Low => false,
    }
}

// Takes the next block at an end, if `goes_on` is set. Returns whether this end goes on taking blocks.
#[tactic(auto, using(crate::proofs::Lines::stopped_unwritten))]
fn take_at<S: Acts, W: Sink>(
    alloc: Global,
    net: &mut S,
    number: u32,
    link: LinkNo,
    end: End,
    goes_on: bool,
    sink: &mut W,
) -> Result<bool, Stop>
    requires fit { is_fit (site_of (S.site net.old)) (TakeBlock (node_at (site_of (S.site net.old)) link end) link Fine) ≡ true }
    requires ready { IsReadySomewhere S.stands net.old }
    ensures site { S.site net.new ≡ S.site net.old }
    ensures armed { S.armed net.new ≡ S.armed net.old }
    ensures goes { (next : Bool → Script) → Goes S.stands S.rests S.tallied (S.site net.old).nodes net.old net.new (given_to W.taken W.pieces sink.old) (given_to W.taken W.pieces sink.new) number (block_at_end (site_of (S.site net.old)) link end goes_on next) result next }
    ensures blame { IsBlamed (W.faults sink.old) (W.faults sink.new) result }
    ensures lined { InLines W.taken W.pieces (IsItemLine (S.site net.old).nodes) sink.old sink.new result }
{
    if !goes_on {
        return Ok(false);
    }
    let node = node_at(net.declared(), link, end);
    match net.take_block(node, link) {
        Ok(take) => {
            let item = block_item(link, end, &take);
            match write_some(alloc, net.declared(), number, item, sink) {
                Ok(()) => Ok(is_taken(&take)),
                Err(stop) => Err(stop),
            }
        }
        Err(_) => Err(Stop::Memory),
    }
}

/// The ends of a link take `count` blocks each, the lower end first. An end that fails to take a block takes no more.
pub fn bits<S: Acts, W: Sink>(
    alloc: Global,
    net: &mut S,
    number: u32,
    link: LinkNo,
    ends: Ends,
    count: u16,
    sink: &mut W,
) -> Result<(), Stop>
    requires low { is_fit (site_of (S.site net.old)) (TakeBlock (node_at (site_of (S.site net.old)) link places.Low) link Fine) ≡ true }
    requires high { is_fit (site_of (S.site net.old)) (TakeBlock (node_at (site_of (S.site net.old)) link places.High) link Fine) ≡ true }
    requires ready { IsReadySomewhere S.stands net.old }
    ensures site { S.site net.new ≡ S.site net.old }
    ensures armed { S.armed net.new ≡ S.armed net.old }
    ensures runs { Runs S.stands S.rests S.tallied (S.site net.old).nodes net.old net.new (given_to W.taken W.pieces sink.old) (given_to W.taken W.pieces sink.new) number (blocks (site_of (S.site net.old)) link (has_low ends) (has_high ends) count) result }
    ensures blame { IsBlamed (W.faults sink.old) (W.faults sink.new) result }
    ensures lined { InLines W.taken W.pieces (IsItemLine (S.site net.old).nodes) sink.old sink.new result }
{
    let mut low = has_low(ends);
    let mut high = has_high(ends);
    for _turn in 0..count {
        low = take_at(alloc, net, number, link, End::Low, low, sink)?;
        high = take_at(alloc, net, number, link, End::High, high, sink)?;
    }
    Ok(())
}
