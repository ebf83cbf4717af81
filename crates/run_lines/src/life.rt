// Lines about a manager's start and crash, its disk, and its links.
ghost use Rattle.std.specs.Prelude.{◌≡◌, ◌<◌, ◌≤◌, ◌+◌, ◌^◌, Bool, true};
ghost use Rattle.declared_site.specs.SiteOf.{site_of};
ghost use Rattle.net_model.specs.Action.{Start as Starts, Crash as Crashes, Arm as Arms, SetLink, Recovers};
ghost use Rattle.run_model.specs.Script.{asks};
ghost use Rattle.run_model.specs.Outcomes.{crash_items, start_items, arm_items, link_items};
ghost use Rattle.run_model.specs.Lines.{begins};
ghost use Rattle.run_model.specs.Headline.{given_to};
ghost use Rattle.run_ops.specs.Fitting.{is_fit};
ghost use Rattle.run_ops.specs.Acting.{fault_of};
ghost use Rattle.run_lines.specs.Reporting.{InLines, IsBlamed, IsItemLine};
ghost use Rattle.run_lines.specs.Running.{Runs, IsReadySomewhere};

use crate::Stop;
use crate::report::write_item;
use disk_model::Arm;
use edge_io::Sink;
use qkd_base::{LinkNo, NodeNo};
use run_ops::{Acts, arm_item, crash_item, link_item, start_item};
use run_types::StartResult;
use std::alloc::Global;

/// Crashes a node's manager.
pub fn crash<S: Acts, W: Sink>(
    alloc: Global,
    net: &mut S,
    number: u32,
    node: NodeNo,
    sink: &mut W,
) -> Result<(), Stop>
    requires fit { is_fit (site_of (S.site net.old)) (Crashes node) ≡ true }
    requires ready { IsReadySomewhere S.stands net.old }
    ensures site { S.site net.new ≡ S.site net.old }
    ensures armed { S.armed net.new ≡ S.armed net.old }
    ensures runs { Runs S.stands S.rests S.tallied (S.site net.old).nodes net.old net.new (given_to W.taken W.pieces sink.old) (given_to W.taken W.pieces sink.new) number (asks (Crashes node) crash_items) result }
    ensures blame { IsBlamed (W.faults sink.old) (W.faults sink.new) result }
    ensures lined { InLines W.taken W.pieces (IsItemLine (S.site net.old).nodes) sink.old sink.new result }
{
    let was_up = net.crash(node);
    write_item(alloc, net.declared(), number, &crash_item(was_up), sink)
}

/// Starts a node's manager on its disk.
#[tactic(auto, using(crate::proofs::Lines::stopped_unwritten))]
pub fn start<S: Acts, W: Sink>(
    alloc: Global,
    net: &mut S,
    number: u32,
    node: NodeNo,
    sink: &mut W,
) -> Result<(), Stop>
    requires fit { is_fit (site_of (S.site net.old)) (Starts node (Recovers Bool.false)) ≡ true }
    requires ready { IsReadySomewhere S.stands net.old }
    ensures site { S.site net.new ≡ S.site net.old }
    ensures armed { S.armed net.new ≡ S.armed net.old }
    ensures runs { Runs S.stands S.rests S.tallied (S.site net.old).nodes net.old net.new (given_to W.taken W.pieces sink.old) (given_to W.taken W.pieces sink.new) number (asks (Starts node (Recovers Bool.false)) start_items) result }
    ensures blame { IsBlamed (W.faults sink.old) (W.faults sink.new) result }
    ensures lined { InLines W.taken W.pieces (IsItemLine (S.site net.old).nodes) sink.old sink.new result }
{
    match net.start(node) {
        Ok(start) => write_item(alloc, net.declared(), number, &start_item(start), sink),
        Err(_) => Err(Stop::Memory),
    }
}

/// Starts a declared node at the beginning of a run. A start that succeeds isn't reported. If memory runs out, the
/// run ends.
#[tactic(auto, using(crate::proofs::Lines::stopped_unwritten))]
pub fn begin<S: Acts, W: Sink>(
    alloc: Global,
    net: &mut S,
    number: u32,
    node: NodeNo,
    sink: &mut W,
) -> Result<(), Stop>
    requires fit { is_fit (site_of (S.site net.old)) (Starts node (Recovers Bool.false)) ≡ true }
    requires ready { IsReadySomewhere S.stands net.old }
    ensures site { S.site net.new ≡ S.site net.old }
    ensures armed { S.armed net.new ≡ S.armed net.old }
    ensures runs { Runs S.stands S.rests S.tallied (S.site net.old).nodes net.old net.new (given_to W.taken W.pieces sink.old) (given_to W.taken W.pieces sink.new) number (begins node) result }
    ensures blame { IsBlamed (W.faults sink.old) (W.faults sink.new) result }
    ensures lined { InLines W.taken W.pieces (IsItemLine (S.site net.old).nodes) sink.old sink.new result }
{
    match net.start(node) {
        Ok(StartResult::Started) => Ok(()),
        Ok(StartResult::WasUp) => Ok(()),
        Ok(StartResult::Memory) => Err(Stop::Memory),
        Ok(StartResult::Stopped) => {
            let item = start_item(StartResult::Stopped);
            write_item(alloc, net.declared(), number, &item, sink)
        }
        Ok(StartResult::Foreign { place }) => {
            let item = start_item(StartResult::Foreign { place });
            write_item(alloc, net.declared(), number, &item, sink)
        }
        Err(_) => Err(Stop::Memory),
    }
}

/// Arms a node's disk with a fault. A disk can be armed at most 2^32 times.
pub fn arm<S: Acts, W: Sink>(
    alloc: Global,
    net: &mut S,
    number: u32,
    node: NodeNo,
    arm: Arm,
    sink: &mut W,
) -> Result<(), Stop>
    requires fit { is_fit (site_of (S.site net.old)) (Arms node (fault_of arm)) ≡ true }
    requires ready { IsReadySomewhere S.stands net.old }
    requires few { S.armed net.old < 2 ^ 32 }
    ensures site { S.site net.new ≡ S.site net.old }
    ensures armed { S.armed net.new ≤ S.armed net.old + 1 }
    ensures runs { Runs S.stands S.rests S.tallied (S.site net.old).nodes net.old net.new (given_to W.taken W.pieces sink.old) (given_to W.taken W.pieces sink.new) number (asks (Arms node (fault_of arm)) arm_items) result }
    ensures blame { IsBlamed (W.faults sink.old) (W.faults sink.new) result }
    ensures lined { InLines W.taken W.pieces (IsItemLine (S.site net.old).nodes) sink.old sink.new result }
{
    net.arm(node, arm);
    write_item(alloc, net.declared(), number, &arm_item(), sink)
}

/// Sets a link up or down.
pub fn set_link<S: Acts, W: Sink>(
    alloc: Global,
    net: &mut S,
    number: u32,
    link: LinkNo,
    up: bool,
    sink: &mut W,
) -> Result<(), Stop>
    requires fit { is_fit (site_of (S.site net.old)) (SetLink link up) ≡ true }
    requires ready { IsReadySomewhere S.stands net.old }
    ensures site { S.site net.new ≡ S.site net.old }
    ensures armed { S.armed net.new ≡ S.armed net.old }
    ensures runs { Runs S.stands S.rests S.tallied (S.site net.old).nodes net.old net.new (given_to W.taken W.pieces sink.old) (given_to W.taken W.pieces sink.new) number (asks (SetLink link up) (link_items link up)) result }
    ensures blame { IsBlamed (W.faults sink.old) (W.faults sink.new) result }
    ensures lined { InLines W.taken W.pieces (IsItemLine (S.site net.old).nodes) sink.old sink.new result }
{
    net.set_link(link, up);
    write_item(alloc, net.declared(), number, &link_item(link, up), sink)
}
