ghost use Rattle.std.specs.Prelude.{◌<◌, ◌^◌};

use crate::parts::{lane, name, node, sae};
use declared_site::Site;
use kme_base::{Change, Step};
use kme_relay::heard;
use net_model::{Fact, Payload, Reply};
use qkd_base::{Lane, LinkNo, NameKind, NodeNo, Octets, Route, Texts, Way};
use relay_core::Known;
use route_table::RouteTable;
use sae_entitlements::Entitlements;
use std::alloc::Global;

// Nodes 0, 1 and 2, link 0 between the first two and link 1 between the last two.
fn links() -> Option<RouteTable> {
    let mut routes = RouteTable::new();
    for number in 0..2 {
        let link = LinkNo::new(number)?;
        let (a, b) = (NodeNo::new(number)?, NodeNo::new(number + 1)?);
        if a == b || routes.ends(link).is_some() || routes.link_between(a, b).is_some() {
            return None;
        }
        routes.add_link(link, a, b);
    }
    Some(routes)
}

fn line(alloc: Global) -> Option<Site> {
    Some(Site {
        nodes: Texts::new(alloc),
        routes: links()?,
        entitlements: Entitlements::new(alloc),
    })
}

// Along the line from node 0 to node 2.
fn long_way() -> Option<Route> {
    Route::new(&[node(0), node(1), node(2)])
}

// A key of node 0 along a way.
fn key(alloc: Global, count: u64, way: Option<Route>) -> Option<Fact>
    requires first { 0 < count }
    requires last { count < 2 ^ 48 }
{
    Some(Fact::Key {
        name: name(0, NameKind::Key, count),
        master: sae(0),
        slave: sae(1),
        route: way?,
        bytes: Octets::from_slice(alloc, &[5; 32]).ok()?,
    })
}

// What node 1 knows that has learned a key.
fn knowing(alloc: Global, key: Option<Fact>) -> Option<Known> {
    let mut known = Known::new(alloc, node(1));
    known.learn(key?).ok()?;
    Some(known)
}

// What a step answers: fresh, the kind, and how many records it makes; and whether it keeps the window.
type Answer = (bool, u8, usize, bool);

fn answer(step: &Step) -> Option<Answer> {
    match &step.reply {
        Reply::HeardFact { fresh, kind, .. } => {
            let is_same = step.change == Change::Same;
            Some((*fresh, *kind, step.batch.len(), is_same))
        }
        _ => None,
    }
}

// What is answered to a payload at offset 8.
fn hear(
    alloc: Global,
    site: &Site,
    known: &Known,
    lane: Lane,
    payload: &Payload,
) -> Option<Answer> {
    match heard(alloc, site, known, lane, 8, payload) {
        Ok(step) => answer(&step),
        Err(_) => None,
    }
}

// What is answered to a key that comes on link 0.
fn hear_key(alloc: Global, site: &Site, known: &Known, key: Option<Fact>) -> Option<Answer> {
    let payload = Payload::Data(key?);
    hear(alloc, site, known, lane(0, Way::Up), &payload)
}

// What is answered to the acknowledgement of key 1.
fn hear_ack(alloc: Global, site: &Site, known: &Known, lane: Lane) -> Option<Answer> {
    let payload = Payload::Ack(name(0, NameKind::Key, 1));
    hear(alloc, site, known, lane, &payload)
}

// A relay makes no note, and its key is acknowledged by the next node alone, once.
#[test]
fn the_next_node_acknowledges(rt: HostRuntime) {
    let alloc = rt.alloc();
    let (Some(site), Some(known)) = (line(alloc), knowing(alloc, key(alloc, 1, long_way()))) else {
        panic!(rt; "no line");
    };
    let blank = Known::new(alloc, node(1));
    let answer = hear_key(alloc, &site, &blank, key(alloc, 1, long_way()));
    assert!(rt; answer == Some((true, 1, 1, false)));
    let answer = hear_ack(alloc, &site, &known, lane(0, Way::Up));
    assert!(rt; answer == Some((false, 3, 0, true)));
    let answer = hear_ack(alloc, &site, &known, lane(1, Way::Up));
    assert!(rt; answer == Some((false, 3, 0, true)));
    let answer = hear_ack(alloc, &site, &known, lane(1, Way::Down));
    assert!(rt; answer == Some((true, 3, 1, false)));
}
