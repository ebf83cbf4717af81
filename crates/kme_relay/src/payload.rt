// Payloads of frames that are received.
ghost use Rattle.std.specs.Prelude.{◌≡◌, []};
ghost use Rattle.net_model.specs.Site.{sender};
ghost use Rattle.net_model.specs.View.{View};
ghost use Rattle.net_model.specs.Decision.{Does};
ghost use Rattle.net_model.specs.Relay.{receive};
ghost use Rattle.declared_site.specs.SiteOf.{site_of};
ghost use Rattle.kme_base.specs.Steps.{IsStep};
ghost use Rattle.kme_relay.specs.Knows.{Knows};

use crate::acknowledgement::heard_acknowledgement;
use crate::fact::heard_fact;
use declared_site::Site;
use kme_base::{Step, sender};
use net_model::{Payload, Reply};
use qkd_base::{Lane, NodeNo};
use relay_core::Known;
use std::alloc::Global;

// The node at the sending end of a lane.
fn neighbour(site: &Site, lane: &Lane) -> NodeNo
    ensures { result ≡ sender (site_of site.now) lane.now }
{
    sender(site, *lane)
}

/// Decides about a payload, received on a lane at an offset. A new fact is recorded, and if this is the last node of
/// its route, so is a note that goes back. Any fact is acknowledged, new or not. An acknowledgement is recorded if
/// this node owes the fact to the lane's sender. It fails only if memory runs out, or if the note's name would need a
/// count of 2^48 or more.
pub fn heard(
    alloc: Global,
    site: &Site,
    known: &Known,
    lane: Lane,
    offset: u64,
    payload: &Payload,
) -> Result<Step, Reply>
    ensures { (v : View) → Knows v known.now → IsStep v [] (Does (receive (site_of site.now) v lane offset payload.now)) result }
{
    match payload {
        Payload::Data(fact) => heard_fact(alloc, known, lane, offset, fact),
        Payload::Ack(name) => {
            let from = neighbour(site, &lane);
            heard_acknowledgement(alloc, known, from, lane, *name)
        }
    }
}
