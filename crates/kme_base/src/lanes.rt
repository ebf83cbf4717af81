// The lanes of a site, and the nodes at their ends.
ghost use Rattle.std.specs.Prelude.{◌≡◌, ◌&&◌, nat_lt, map, filter, Some, None, IfOk, if◌then◌else◌};
ghost use Rattle.net_model.specs.Site.{count_up, is_incident, outgoing_lane, outgoing_lanes, receiver, sender};
ghost use Rattle.declared_site.specs.SiteOf.{IsDeclared, ends_or_none, site_of};

use declared_site::Site;
use qkd_base::{Lane, LinkNo, Memory, NodeNo, Way};
use std::alloc::Global;

// The two nodes of a link, the lower one first. For a link that the site doesn't have, both are the first node.
fn ends(site: &Site, link: LinkNo) -> (NodeNo, NodeNo)
    ensures { result ≡ ends_or_none site.now.routes link }
{
    let none = NodeNo::new(0).unwrap();
    site.routes.ends(link).unwrap_or((none, none))
}

/// The node that sends on a lane.
pub fn sender(site: &Site, lane: Lane) -> NodeNo
    ensures { result ≡ sender (site_of site.now) lane }
{
    let (low, high) = ends(site, lane.link);
    match lane.way {
        Way::Up => low,
        Way::Down => high,
    }
}

/// The node that receives on a lane.
pub fn receiver(site: &Site, lane: Lane) -> NodeNo
    ensures { result ≡ receiver (site_of site.now) lane }
{
    let (low, high) = ends(site, lane.link);
    match lane.way {
        Way::Up => high,
        Way::Down => low,
    }
}

/// The lane of a link that leaves a node, or `None` if the site has no such link or the node isn't one of its ends.
pub fn outgoing_lane(site: &Site, me: NodeNo, link: LinkNo) -> Option<Lane>
    requires { IsDeclared site.now }
    ensures { result ≡ (if nat_lt link (site_of site.now).links && is_incident (site_of site.now) me link then Some (outgoing_lane (site_of site.now) me link) else None) }
{
    let (low, high) = site.routes.ends(link)?;
    if low == me {
        Some(Lane { link, way: Way::Up })
    } else if high == me {
        Some(Lane {
            link,
            way: Way::Down,
        })
    } else {
        None
    }
}

/// The lanes that leave a node, in order of link.
pub fn outgoing_lanes(alloc: Global, site: &Site, me: NodeNo) -> Result<Vec<Lane>, Memory>
    requires { IsDeclared site.now }
    ensures { IfOk result (λ lanes. lanes.items ≡ outgoing_lanes (site_of site.now) me) }
{
    let mut lanes = Vec::new(alloc);
    for number in 0..32u8 {
        let link = LinkNo::new(number).unwrap();
        match outgoing_lane(site, me, link) {
            Some(lane) => lanes.push(lane)?,
            None => {}
        }
    }
    Ok(lanes)
}
