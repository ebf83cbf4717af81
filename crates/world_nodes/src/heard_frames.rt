// Frames come to the receiver of a lane.
ghost use Rattle.std.specs.Prelude.{◌≡◌, ℕ};
ghost use Rattle.net_model.specs.World.{Network, World};
ghost use Rattle.world_nodes.specs.Hearing.{MayHear, HasHeard};

use crate::event_handler::handle;
use disk_model::Disk;
use kme_store::Post;
use net_model::{Event, Reply};
use qkd_base::{Lane, Octets};
use source_devices::Entropy;

/// A frame of a lane's wire comes to the node that receives on the lane. If the node has no manager that is up, it answers
/// `Down`.
pub fn hear<K: Disk + Drop, E: Entropy>(
    post: &mut Post<K, E>,
    lane: Lane,
    frame: Octets,
    up: u32,
) -> Reply
    requires asked { (net : Network) × (w : World) × (number : ℕ) × MayHear K.Disk E.Entropy net w lane number post.old frame up }
    ensures { (net : Network) (w : World) (number : ℕ) → MayHear K.Disk E.Entropy net w lane number post.old frame up
        → HasHeard K.Disk E.Entropy net w lane number post.old post.new result }
{
    handle(post, &Event::Heard { lane, bytes: frame }, up)
}
