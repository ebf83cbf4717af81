// Doing a line of a load.
#![tactic(auto, unfolding(run_model::specs::Turn::turn_of))]

ghost use Rattle.std.specs.Prelude.{◌≡◌, ℕ, true, OnOk};
ghost use Rattle.declared_site.specs.SiteOf.{IsDeclared, site_of};
ghost use Rattle.net_model.specs.declared.reply.Reply.{Reply as ReplyValue};
ghost use Rattle.net_model.specs.World.{Network, World};
ghost use Rattle.net_model.specs.Action.{Ok as Fine, Ask, Replies};
ghost use Rattle.run_types.specs.declared.command.Command.TheVariants as commands;
ghost use Rattle.run_model.specs.Turn.{HttpTexts, turn_of};
ghost use Rattle.run_model.specs.Lines.{script_of};
ghost use Rattle.run_model.specs.Headline.{Given, given_to, unknown};
ghost use Rattle.run_ops.specs.Fitting.{is_fit};
ghost use Rattle.run_ops.specs.Acting.{IsReady, Does};
ghost use Rattle.run_ops.specs.Runnable.{IsCommandFor};
ghost use Rattle.run_lines.specs.Reporting.{InLines, IsBlamed, IsItemLine};
ghost use Rattle.run_lines.specs.Running.{Runs as Reports, IsReadySomewhere};
ghost use Rattle.law_run.specs.Handed.{keys_in};
ghost use Rattle.law_run.specs.Kinds.{is_of_load};
ghost use Rattle.run_tasks.specs.Lines.{is_silent, Runs};

use crate::handed::{Handed, keys_in};
use crate::unheard::Unheard;
use edge_io::Sink;
use net_model::Event;
use qkd_base::{Lane, NodeNo};
use run_lines::{Stop, bits, ledger, settle};
use run_ops::{Acts, asked_by};
use run_types::Command;
use std::alloc::Global;

// Asks a manager to make or to hand out keys. Returns the number of keys that the reply hands out.
fn ask_for_keys<S: Acts>(net: &mut S, node: NodeNo, event: Event) -> u64
    requires fit { is_fit (site_of (S.site net.old)) (Ask node event Fine) ≡ true }
    requires ready { IsReadySomewhere S.stands net.old }
    ensures site { S.site net.new ≡ S.site net.old }
    ensures armed { S.armed net.new ≡ S.armed net.old }
    ensures done { (n : Network) (w : World) → IsReady S.stands net.old n w →
        (reply : ReplyValue) × (result ≡ keys_in (Replies reply)) × Does S.stands S.tallied net.old net.new n w (Ask node event Fine) (Replies reply) }
{
    let reply = net.ask(node, &event);
    keys_in(&reply)
}

// Does a line that supplies link bytes, makes keys, or runs rounds of ticks and passes. Its report goes nowhere.
fn unheard_line<S: Acts>(
    alloc: Global,
    net: &mut S,
    number: u32,
    command: Command,
) -> Result<(), Stop>
    requires declared { IsDeclared (S.site net.old) }
    requires silent { is_silent command ≡ true }
    requires fit { IsCommandFor (S.site net.old) command }
    requires ready { IsReadySomewhere S.stands net.old }
    ensures site { S.site net.new ≡ S.site net.old }
    ensures armed { S.armed net.new ≡ S.armed net.old }
    ensures runs { (http : HttpTexts) → Reports S.stands S.rests S.tallied (S.site net.old).nodes net.old net.new unknown unknown number (script_of http (site_of (S.site net.old)) command) result }
    ensures blame { IsBlamed 0 0 result }
{
    match command {
        Command::Bits { link, ends, count } => {
            bits(alloc, net, number, link, ends, count, &mut Unheard)
        }
        Command::Settle { rounds } => settle(alloc, net, number, rounds, &mut Unheard),
        other => match asked_by(net.declared(), other) {
            Ok(asked) => {
                ask_for_keys(net, asked.node, asked.event);
                Ok(())
            }
            Err(_) => Ok(()),
        },
    }
}

// Does such a line. It hands out no key, and no sink takes anything of its report.
fn silent_line<S: Acts>(
    alloc: Global,
    net: &mut S,
    number: u32,
    command: Command,
) -> Result<Handed, Stop>
    requires declared { IsDeclared (S.site net.old) }
    requires silent { is_silent command ≡ true }
    requires fit { IsCommandFor (S.site net.old) command }
    requires ready { IsReadySomewhere S.stands net.old }
    ensures site { S.site net.new ≡ S.site net.old }
    ensures armed { S.armed net.new ≡ S.armed net.old }
    ensures runs { (http : HttpTexts) (taken : Given) → Runs S.stands S.rests S.tallied (S.site net.old).nodes net.old net.new taken taken number (script_of http (site_of (S.site net.old)) command) result }
    ensures blame { (faults : ℕ) → IsBlamed faults faults result }
{
    match unheard_line(alloc, net, number, command) {
        Ok(()) => Ok(Handed::none()),
        Err(stop) => Err(stop),
    }
}

// Reports what became of the bytes of a lane. This hands out no key.
fn ledger_line<S: Acts, W: Sink>(
    alloc: Global,
    net: &mut S,
    number: u32,
    lane: &Lane,
    sink: &mut W,
) -> Result<Handed, Stop>
    requires fit { IsCommandFor (S.site net.old) (commands.Ledger lane.now) }
    requires ready { IsReadySomewhere S.stands net.old }
    ensures site { S.site net.new ≡ S.site net.old }
    ensures armed { S.armed net.new ≡ S.armed net.old }
    ensures runs { (http : HttpTexts) → Runs S.stands S.rests S.tallied (S.site net.old).nodes net.old net.new (given_to W.taken W.pieces sink.old) (given_to W.taken W.pieces sink.new) number (script_of http (site_of (S.site net.old)) (commands.Ledger lane.now)) result }
    ensures blame { IsBlamed (W.faults sink.old) (W.faults sink.new) result }
    ensures lined { InLines W.taken W.pieces (IsItemLine (S.site net.old).nodes) sink.old sink.new result }
{
    match ledger(alloc, net, number, lane, sink) {
        Ok(()) => Ok(Handed::none()),
        Err(stop) => Err(stop),
    }
}

/// Does a line of a load, and writes only the ledgers of its report. Returns the number of keys that it handed out.
#[tactic(auto, using(crate::proofs::Pieces::unwritten))]
pub fn load_line<S: Acts, W: Sink>(
    alloc: Global,
    net: &mut S,
    number: u32,
    command: Command,
    sink: &mut W,
) -> Result<Handed, Stop>
    requires declared { IsDeclared (S.site net.old) }
    requires load { is_of_load command ≡ true }
    requires fit { IsCommandFor (S.site net.old) command }
    requires ready { IsReadySomewhere S.stands net.old }
    ensures site { S.site net.new ≡ S.site net.old }
    ensures armed { S.armed net.new ≡ S.armed net.old }
    ensures ready { OnOk result (IsReadySomewhere S.stands net.new) }
    ensures runs { (http : HttpTexts) → Runs S.stands S.rests S.tallied (S.site net.old).nodes net.old net.new (given_to W.taken W.pieces sink.old) (given_to W.taken W.pieces sink.new) number (script_of http (site_of (S.site net.old)) command) result }
    ensures blame { IsBlamed (W.faults sink.old) (W.faults sink.new) result }
    ensures lined { InLines W.taken W.pieces (IsItemLine (S.site net.old).nodes) sink.old sink.new result }
{
    match command {
        Command::Enc {
            node,
            master,
            slave,
            count,
            bits,
        } => {
            let event = Event::Enc {
                master,
                slave,
                number: count,
                bits,
            };
            let masters = ask_for_keys(net, node, event);
            Ok(Handed { masters, slaves: 0 })
        }
        Command::Dec {
            node,
            slave,
            master,
            names,
        } => {
            let event = Event::Dec {
                slave,
                master,
                names,
            };
            let slaves = ask_for_keys(net, node, event);
            Ok(Handed { masters: 0, slaves })
        }
        Command::Ledger { lane } => ledger_line(alloc, net, number, &lane, sink),
        other => silent_line(alloc, net, number, other),
    }
}
