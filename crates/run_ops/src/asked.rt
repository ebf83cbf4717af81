// The one event of one manager that a line asks for.
#![tactic(auto, unfolding(run_model::specs::Turn::turn_of))]

ghost use Rattle.std.specs.Prelude.{◌≡◌};
ghost use Rattle.declared_site.specs.declared.site.Site.{Site as SiteValue};
ghost use Rattle.run_types.specs.declared.command.Command.TheVariants as commands;
ghost use Rattle.run_model.specs.Turn.{event_of};
ghost use Rattle.run_ops.specs.Asking.{Asks};

use crate::reply_report::Reporting;
use crate::slaves::in_order;
use declared_site::Site;
use kme_base::home;
use net_model::Event;
use qkd_base::{KeyName, Names, NodeNo, SaeNo, Saes};
use run_types::StreamCall;

/// An event for the manager of `node`, and how its reply is reported.
#[derive(Debug, Drop)]
pub struct Asked {
    pub node: NodeNo,
    pub event: Event,
    pub reporting: Reporting,
}

// The event for a call on a stream.
fn event_of(call: &StreamCall) -> Event
    ensures { result ≡ event_of call.now }
{
    match *call {
        StreamCall::Open { source, peer, bits } => Event::Open { source, peer, bits },
        StreamCall::Join {
            caller,
            source,
            stream,
            bits,
        } => Event::Join {
            caller,
            other: source,
            stream,
            bits,
        },
        StreamCall::Get {
            caller,
            stream,
            index,
        } => Event::Get {
            caller,
            stream,
            index,
        },
        StreamCall::Close { caller, stream } => Event::Close { caller, stream },
    }
}

// The event that makes keys at the home of their master.
pub fn fill(site: &Site, master: SaeNo, slave: SaeNo, bits: u16, count: u16) -> Asked
    ensures { Asks site.now (commands.Fill master slave bits count) result }
{
    let node = home(site, master);
    let event = Event::Fill {
        master,
        slave,
        bits,
        count,
    };
    Asked {
        node,
        event,
        reporting: Reporting::Made,
    }
}

// The event that makes group keys for several slaves.
pub fn fill_group(site: &Site, master: SaeNo, bits: u16, count: u16, slaves: Saes) -> Asked
    ensures { Asks site.now (commands.FillGroup master bits count slaves) result }
{
    let node = home(site, master);
    let event = Event::FillGroup {
        master,
        slaves: in_order(slaves),
        bits,
        count,
    };
    Asked {
        node,
        event,
        reporting: Reporting::Made,
    }
}

// The event that hands keys to their master.
pub fn enc(node: NodeNo, master: SaeNo, slave: SaeNo, number: u16, bits: u16) -> Asked
    ensures { (site : SiteValue) → Asks site (commands.Enc node master slave number bits) result }
{
    let event = Event::Enc {
        master,
        slave,
        number,
        bits,
    };
    Asked {
        node,
        event,
        reporting: Reporting::Handed,
    }
}

// The event that hands group keys to their master.
pub fn enc_group(node: NodeNo, master: SaeNo, number: u16, bits: u16, slaves: Saes) -> Asked
    ensures { (site : SiteValue) → Asks site (commands.EncGroup node master number bits slaves) result }
{
    let event = Event::EncGroup {
        master,
        slaves: in_order(slaves),
        number,
        bits,
    };
    Asked {
        node,
        event,
        reporting: Reporting::Handed,
    }
}

// The event that hands keys, asked for by name, to their slave.
pub fn dec(node: NodeNo, slave: SaeNo, master: SaeNo, names: Names) -> Asked
    ensures { (site : SiteValue) → Asks site (commands.Dec node slave master names) result }
{
    let event = Event::Dec {
        slave,
        master,
        names,
    };
    Asked {
        node,
        event,
        reporting: Reporting::Handed,
    }
}

// The event that makes chunks at the first node of their stream.
pub fn feed(stream: KeyName, count: u16) -> Asked
    ensures { (site : SiteValue) → Asks site (commands.Feed stream count) result }
{
    Asked {
        node: stream.node(),
        event: Event::Feed { stream, count },
        reporting: Reporting::Made,
    }
}

// The event that counts the ready keys.
pub fn status(node: NodeNo, master: SaeNo, slave: SaeNo) -> Asked
    ensures { (site : SiteValue) → Asks site (commands.Status node master slave) result }
{
    Asked {
        node,
        event: Event::Status { master, slave },
        reporting: Reporting::Ready,
    }
}

// The event that plans which frames a node sends.
pub fn tick(node: NodeNo) -> Asked
    ensures { (site : SiteValue) → Asks site (commands.Tick node) result }
{
    Asked {
        node,
        event: Event::Plan,
        reporting: Reporting::Ticked { node, quiet: false },
    }
}

// The event of a call on a stream.
pub fn stream(node: NodeNo, call: StreamCall) -> Asked
    ensures { (site : SiteValue) → Asks site (commands.Stream node call) result }
{
    let event = event_of(&call);
    Asked {
        node,
        event,
        reporting: Reporting::Stream(call),
    }
}

// The event that shows what a node has of a key.
pub fn show(node: NodeNo, name: KeyName) -> Asked
    ensures { (site : SiteValue) → Asks site (commands.Show node name) result }
{
    Asked {
        node,
        event: Event::Show { name },
        reporting: Reporting::Shown { node, name },
    }
}
