// Asking a node's manager to handle an event.
ghost use Rattle.std.specs.Prelude.{◌≡◌, ℕ};
ghost use Rattle.net_model.specs.World.{Network, World};
ghost use Rattle.world_nodes.specs.Asking.{MayAsk, Asked};

use crate::event_handler::handle;
use disk_model::Disk;
use kme_store::Post;
use net_model::{Event, Reply};
use source_devices::Entropy;

/// Asks a node's manager to handle an event. Bit l of `up` says that link l is up. If the node has no manager that is up, it
/// answers `Down`.
pub fn ask<K: Disk + Drop, E: Entropy>(post: &mut Post<K, E>, event: &Event, up: u32) -> Reply
    requires asked { (net : Network) × (w : World) × (v : ℕ) × MayAsk K.Disk E.Entropy net w v post.old event.now up }
    ensures { (net : Network) (w : World) (v : ℕ) → MayAsk K.Disk E.Entropy net w v post.old event.now up
        → Asked K.Disk E.Entropy net w v event.now post.old post.new result }
{
    handle(post, event, up)
}
