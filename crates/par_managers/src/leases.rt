// Writing down the leases of the lanes that leave a node, after its plan.
ghost use Rattle.std.specs.Prelude.{◌≡◌, ◌<◌, ◌≤◌, Some, is_some};
ghost use Rattle.qkd_base.specs.declared.lane.Lane.{Lane as LaneValue};
ghost use Rattle.declared_site.specs.SiteOf.{site_of};
ghost use Rattle.world_state.specs.Stands.{place_of};
ghost use Rattle.par_managers.specs.Turning.{planner};
ghost use Rattle.par_managers.specs.Leases.{lease_at, EndsOf, EndsAt, WroteOf, WroteAt};

use declared_site::Site;
use disk_model::Disk;
use kme_base::sender;
use net_model::{Event, Reply};
use qkd_base::{Lane, LinkNo, NodeNo, Way};
use run_ops::Job;
use source_devices::Entropy;
use world_state::Post;

/// The lane at a place, if there is one.
fn lane_at(place: usize) -> Option<Lane>
    ensures { (l : LaneValue) → l.link < 32 → place_of l ≡ place → result ≡ Some l }
{
    if place >= 64 {
        return None;
    }
    let link = LinkNo::new((place / 2) as u8)?;
    let way = if place % 2 == 0 { Way::Up } else { Way::Down };
    Some(Lane { link, way })
}

// A lane's lease, as the manager has it; 0 without a manager.
fn lease<K: Disk + Drop, E: Entropy + Drop>(post: &Post<K, E>, lane: Lane) -> u64
    ensures { result ≡ lease_at post.now lane }
{
    match post {
        Post::On(manager) => manager.lease(lane),
        Post::Off(_, _) => 0,
    }
}

// The lease of a lane that leaves the node; for any other lane, the value that was there.
fn own_end<K: Disk + Drop, E: Entropy + Drop>(
    site: &Site,
    node: NodeNo,
    post: &Post<K, E>,
    lane: &Lane,
    before: u64,
) -> u64
    ensures { EndsOf (site_of site.now) node (lease_at post.now) lane.now before result }
{
    if sender(site, *lane) == node {
        lease(post, *lane)
    } else {
        before
    }
}

// The new value at a place: the lease of the lane there if it leaves the node, or else the value that was there.
fn end_at<K: Disk + Drop, E: Entropy + Drop>(
    site: &Site,
    node: NodeNo,
    post: &Post<K, E>,
    place: usize,
    before: u64,
) -> u64
    requires { (site_of site.now).links ≤ 32 }
    ensures { EndsAt (site_of site.now) node (lease_at post.now) place before result }
{
    match lane_at(place) {
        None => before,
        Some(lane) => own_end(site, node, post, &lane, before),
    }
}

// Writes down the leases of the lanes that leave a node.
fn write_node<K: Disk + Drop, E: Entropy + Drop>(
    site: &Site,
    node: NodeNo,
    post: &Post<K, E>,
    leases: &mut [u64],
)
    requires { (site_of site.now).links ≤ 32 }
    ensures { WroteOf (site_of site.now) node post.now leases.old leases.new }
{
    for (place, end) in leases.iter_mut().enumerate() {
        *end = end_at(site, node, post, place, *end);
    }
}

// Whether the job asked for a plan and the reply is one.
fn is_plan(job: &Job, reply: &Reply) -> bool
    ensures { result ≡ is_some (planner job.now reply.now) }
{
    match job {
        Job::Ask {
            event: Event::Plan,
            ..
        } => match reply {
            Reply::Planned { .. } => true,
            _ => false,
        },
        _ => false,
    }
}

/// If a node's manager replied with its plan, writes down the leases of the lanes that leave the node.
pub fn write_leases<K: Disk + Drop, E: Entropy + Drop>(
    site: &Site,
    node: NodeNo,
    post: &Post<K, E>,
    job: &Job,
    reply: &Reply,
    leases: &mut [u64],
)
    requires { (site_of site.now).links ≤ 32 }
    ensures { WroteAt (site_of site.now) node (planner job.now reply.now) post.now leases.old leases.new }
{
    if is_plan(job, reply) {
        write_node(site, node, post, leases);
    }
}
