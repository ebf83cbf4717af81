// One line of a scenario.
#![tactic(auto, unfolding(run_model::specs::Turn::turn_of))]

ghost use Rattle.std.specs.Prelude.{◌≡◌, ◌≤◌, ◌+◌, ◌^◌, Bool, true, OnOk};
ghost use Rattle.declared_site.specs.SiteOf.{IsDeclared, site_of};
ghost use Rattle.disk_model.specs.declared.arm.Arm.TheVariants as arms;
ghost use Rattle.run_model.specs.Turn.{HttpTexts, turn_of, image_of};
ghost use Rattle.run_model.specs.Lines.{script_of};
ghost use Rattle.net_model.specs.Action as actions;
ghost use Rattle.run_model.specs.Headline.{given_to};
ghost use Rattle.run_ops.specs.Acting.{fault_of};
ghost use Rattle.run_ops.specs.Runnable.{IsTurnFor, IsCommandFor};
ghost use Rattle.run_lines.specs.Reporting.{InLines, IsBlamed, IsItemLine};
ghost use Rattle.run_lines.specs.Running.{Runs, IsReadySomewhere};
ghost use Rattle.run_lines.specs.Commands.{acts_once, any_texts, armings_of, is_request};

use crate::Stop;
use crate::blocks::bits;
use crate::forged_octets::forge;
use crate::frames::{flip, pass};
use crate::http_lines::http;
use crate::life::{arm, crash, set_link, start};
use crate::manager_lines::{ask, ledger, tick};
use crate::requests::Requests;
use crate::settle_rounds::settle;
use disk_model::{Arm, Image};
use edge_io::Sink;
use run_ops::{Acts, asked_by};
use run_types::{Command, Image as CutImage};
use std::alloc::Global;

// The fault of a disk that fails from its given call on.
fn cut_of(call: u32, image: CutImage) -> Arm
    ensures { fault_of result ≡ actions.Cut call (image_of image) }
{
    let image = match image {
        CutImage::Lost => Image::Lost,
        CutImage::Kept => Image::Kept,
        CutImage::Torn => Image::Torn,
    };
    Arm::Cut { call, image }
}

// Runs a line about a manager, a disk or a link, or one that asks a manager to handle an event.
fn act_once<S: Acts, W: Sink>(
    alloc: Global,
    net: &mut S,
    number: u32,
    command: Command,
    sink: &mut W,
) -> Result<(), Stop>
    requires once { acts_once command ≡ true }
    requires fit { IsTurnFor (S.site net.old) (turn_of any_texts (site_of (S.site net.old)) command) }
    requires ready { IsReadySomewhere S.stands net.old }
    requires few { S.armed net.old + armings_of command ≤ 2 ^ 32 }
    ensures site { S.site net.new ≡ S.site net.old }
    ensures armed { S.armed net.new ≤ S.armed net.old + armings_of command }
    ensures runs { (http : HttpTexts) → Runs S.stands S.rests S.tallied (S.site net.old).nodes net.old net.new (given_to W.taken W.pieces sink.old) (given_to W.taken W.pieces sink.new) number (script_of http (site_of (S.site net.old)) command) result }
    ensures blame { IsBlamed (W.faults sink.old) (W.faults sink.new) result }
    ensures lined { InLines W.taken W.pieces (IsItemLine (S.site net.old).nodes) sink.old sink.new result }
{
    match command {
        Command::Crash { node } => crash(alloc, net, number, node, sink),
        Command::Start { node } => start(alloc, net, number, node, sink),
        Command::Cut { node, call, image } => {
            arm(alloc, net, number, node, cut_of(call, image), sink)
        }
        Command::Fail { node, call } => { arm(alloc, net, number, node, Arm::Fail { call }, sink) }
        Command::LinkUp { link } => set_link(alloc, net, number, link, true, sink),
        Command::LinkDown { link } => set_link(alloc, net, number, link, false, sink),
        other => match asked_by(net.declared(), other) {
            Ok(asked) => ask(alloc, net, number, asked, sink),
            Err(_) => Ok(()),
        },
    }
}

// Runs any line but an HTTP request.
fn plain_command<S: Acts, W: Sink>(
    alloc: Global,
    net: &mut S,
    number: u32,
    command: Command,
    sink: &mut W,
) -> Result<(), Stop>
    requires declared { IsDeclared (S.site net.old) }
    requires plain { is_request command ≡ Bool.false }
    requires fit { IsCommandFor (S.site net.old) command }
    requires ready { IsReadySomewhere S.stands net.old }
    requires few { S.armed net.old + armings_of command ≤ 2 ^ 32 }
    ensures site { S.site net.new ≡ S.site net.old }
    ensures armed { S.armed net.new ≤ S.armed net.old + armings_of command }
    ensures runs { (http : HttpTexts) → Runs S.stands S.rests S.tallied (S.site net.old).nodes net.old net.new (given_to W.taken W.pieces sink.old) (given_to W.taken W.pieces sink.new) number (script_of http (site_of (S.site net.old)) command) result }
    ensures blame { IsBlamed (W.faults sink.old) (W.faults sink.new) result }
    ensures lined { InLines W.taken W.pieces (IsItemLine (S.site net.old).nodes) sink.old sink.new result }
{
    match command {
        Command::Bits { link, ends, count } => bits(alloc, net, number, link, ends, count, sink),
        Command::Tick { node } => tick(alloc, net, number, node, false, sink),
        Command::Settle { rounds } => settle(alloc, net, number, rounds, sink),
        Command::Ledger { lane } => ledger(alloc, net, number, &lane, sink),
        Command::Pass {
            lane,
            number: frame,
        } => pass(alloc, net, number, &lane, frame, sink),
        Command::Flip {
            lane,
            number: frame,
            bit,
        } => flip(alloc, net, number, &lane, frame, bit, sink),
        Command::Forge { lane, octets } => {
            forge(alloc, net, number, &lane, octets.as_slice(), sink)
        }
        other => act_once(alloc, net, number, other, sink),
    }
}

/// Runs a line of a scenario, and reports it under the line's number. All that the line names must be declared. The
/// disks of a network can be armed at most 2^32 times.
pub fn command<S: Acts, H: Requests, W: Sink>(
    alloc: Global,
    net: &mut S,
    requests: &H,
    number: u32,
    command: Command,
    sink: &mut W,
) -> Result<(), Stop>
    requires declared { IsDeclared (S.site net.old) }
    requires serves { H.serves requests.now (S.site net.old) }
    requires fit { IsCommandFor (S.site net.old) command }
    requires ready { IsReadySomewhere S.stands net.old }
    requires few { S.armed net.old + armings_of command ≤ 2 ^ 32 }
    ensures site { S.site net.new ≡ S.site net.old }
    ensures armed { S.armed net.new ≤ S.armed net.old + armings_of command }
    ensures ready { OnOk result (IsReadySomewhere S.stands net.new) }
    ensures runs { (http : HttpTexts) → H.speaks requests.now http → Runs S.stands S.rests S.tallied (S.site net.old).nodes net.old net.new (given_to W.taken W.pieces sink.old) (given_to W.taken W.pieces sink.new) number (script_of http (site_of (S.site net.old)) command) result }
    ensures blame { IsBlamed (W.faults sink.old) (W.faults sink.new) result }
    ensures lined { InLines W.taken W.pieces (IsItemLine (S.site net.old).nodes) sink.old sink.new result }
{
    match command {
        Command::Http { node, octets } => http(alloc, net, requests, number, node, octets, sink),
        other => plain_command(alloc, net, number, other, sink),
    }
}
