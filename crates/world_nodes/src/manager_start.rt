// Starting a node's manager.
ghost use Rattle.std.specs.Prelude.{◌≡◌};
ghost use Rattle.declared_site.specs.SiteOf.{IsDeclared};
ghost use Rattle.net_model.specs.World.{Network, World};
ghost use Rattle.world_nodes.specs.Starting.{MayStart, HasStarted, result_of};

use declared_site::Site;
use disk_model::Disk;
use kme_store::{Post, RecoverRefusal, recover};
use qkd_base::NodeNo;
use run_types::StartResult;
use source_devices::Entropy;
use std::alloc::Global;

// How a refused start is reported.
fn result_of(why: RecoverRefusal) -> StartResult
    ensures { result ≡ result_of why }
{
    match why {
        RecoverRefusal::Stopped => StartResult::Stopped,
        RecoverRefusal::Foreign(place) => StartResult::Foreign { place },
        RecoverRefusal::Memory => StartResult::Memory,
    }
}

// Starts a manager on a disk. It first takes the memory for the disk's header and its next calls, as every start does.
fn begin<K: Disk + Drop, E: Entropy>(
    alloc: Global,
    mut disk: K,
    entropy: E,
    site: &Site,
    me: NodeNo,
) -> (Post<K, E>, StartResult)
    requires { IsDeclared site.now }
    ensures { (net : Network) (w : World) → MayStart K.Disk E.Entropy net w me site.now (Post.Off disk entropy)
        → HasStarted K.Disk E.Entropy net w me (Post.Off disk entropy) result.0 result.1 }
{
    match disk.room(17) {
        Err(_) => (Post::Off(disk, entropy), StartResult::Memory),
        Ok(()) => match recover(alloc, disk, entropy, site, me) {
            Ok(manager) => (Post::On(manager), StartResult::Started),
            Err((why, disk, entropy)) => (Post::Off(disk, entropy), result_of(why)),
        },
    }
}

/// Starts a node's manager on its disk, unless it is up. If the start is refused, the node keeps its disk and its entropy.
pub fn start<K: Disk + Drop, E: Entropy>(
    alloc: Global,
    post: Post<K, E>,
    site: &Site,
    me: NodeNo,
) -> (Post<K, E>, StartResult)
    requires { IsDeclared site.now }
    ensures { (net : Network) (w : World) → MayStart K.Disk E.Entropy net w me site.now post
        → HasStarted K.Disk E.Entropy net w me post result.0 result.1 }
{
    match post {
        Post::On(manager) => {
            if manager.is_up() {
                (Post::On(manager), StartResult::WasUp)
            } else {
                let (disk, entropy) = manager.crash();
                begin(alloc, disk, entropy, site, me)
            }
        }
        Post::Off(disk, entropy) => begin(alloc, disk, entropy, site, me),
    }
}
