// The leases of the lanes that leave a node, after a turn.
ghost use Rattle.std.specs.Prelude.{◌≡◌, ◌≤◌, replicate};
ghost use Rattle.declared_site.specs.SiteOf.{site_of};
ghost use Rattle.par_managers.specs.Turning.{planner};
ghost use Rattle.par_managers.specs.Leases.{WroteAt};

use crate::write_leases;
use declared_site::Site;
use disk_model::Disk;
use net_model::Reply;
use qkd_base::NodeNo;
use run_ops::Job;
use source_devices::Entropy;
use world_state::Post;

/// A value for each place of a lane. If the node's plan was replied, the values of the lanes that leave the node are their
/// leases. All other values are 0.
pub fn ends<K: Disk + Drop, E: Entropy + Drop>(
    site: &Site,
    node: NodeNo,
    post: &Post<K, E>,
    job: &Job,
    reply: &Reply,
) -> [u64; 64]
    requires { (site_of site.now).links ≤ 32 }
    ensures { WroteAt (site_of site.now) node (planner job.now reply.now) post.now (replicate 64 0) result }
{
    let mut ends = [0; 64];
    write_leases(site, node, post, job, reply, &mut ends);
    ends
}
