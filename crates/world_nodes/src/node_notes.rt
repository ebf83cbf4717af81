// A node notes what became of its frames.
ghost use Rattle.std.specs.Prelude.{◌≡◌, ℕ, false, IfOk, OnErr};
ghost use Rattle.net_model.specs.World.{Network, World};
ghost use Rattle.world_nodes.specs.Noting.{MayNote, HasNoted, is_memory};
ghost use Rattle.world_nodes.specs.Stands.{PostStands};
ghost use Rattle.world_nodes.specs.Counts.{Counts};

use crate::event_handler::handle;
use disk_model::Disk;
use kme_store::Post;
use net_model::{Event, Placings, Reply};
use qkd_base::Memory;
use source_devices::Entropy;

fn is_memory(reply: &Reply) -> bool
    ensures { result ≡ is_memory reply.now }
{
    match reply {
        Reply::Memory => true,
        _ => false,
    }
}

/// A node's manager notes what became of its frames since the last note. If the node has no manager that is up, it answers
/// `Down`. An `Err` leaves the node as it was.
pub fn note<K: Disk + Drop, E: Entropy>(
    post: &mut Post<K, E>,
    placings: Placings,
    up: u32,
) -> Result<Reply, Memory>
    requires asked { (net : Network) × (w : World) × (v : ℕ) × MayNote K.Disk E.Entropy net w v post.old placings up }
    ensures ok { (net : Network) (w : World) (v : ℕ) → MayNote K.Disk E.Entropy net w v post.old placings up
        → IfOk result (HasNoted K.Disk E.Entropy net w v post.old post.new) }
    ensures err { (net : Network) (w : World) (v : ℕ) → MayNote K.Disk E.Entropy net w v post.old placings up
        → OnErr result (PostStands K.Disk E.Entropy net w v post.new) }
    ensures counts { (net : Network) (w : World) (v : ℕ) → MayNote K.Disk E.Entropy net w v post.old placings up
        → OnErr result (Counts K.Disk E.Entropy false false post.old post.new) }
{
    let reply = handle(post, &Event::Note { placings }, up);
    if is_memory(&reply) {
        return Err(Memory);
    }
    Ok(reply)
}
