// Octets that anybody may have made or changed come to the receiver of a lane.
ghost use Rattle.std.specs.Prelude.{◌≡◌, ℕ, IfOk};
ghost use Rattle.qkd_base.specs.declared.lane.Lane.{Lane as LaneValue};
ghost use Rattle.net_model.specs.Site.{receiver};
ghost use Rattle.net_model.specs.World.{Network, World};
ghost use Rattle.world_nodes.specs.Handled.{MayHandle, Handled};
ghost use Rattle.world_nodes.specs.Tampering.{would_match as matches, ReceiverStands, MayTamper, HasTampered, MayForge, HasForged, MayFlip, HasFlipped};

use crate::event_handler::handle;
use disk_model::Disk;
use kme_store::Post;
use net_model::{Event, Reply};
use qkd_base::{Lane, Memory, Octets};
use source_devices::Entropy;

// Whether the receiver has a manager that is up.
fn is_up<K: Disk + Drop, E: Entropy>(post: &Post<K, E>) -> bool
    ensures { (net : Network) (w : World) (lane : LaneValue) → ReceiverStands K.Disk E.Entropy net w lane post.now → w.up (receiver net.site lane) ≡ result }
{
    match post {
        Post::On(manager) => manager.is_up(),
        Post::Off(_, _) => false,
    }
}

/// Whether octets on a lane have a right tag at its receiver, whose manager is up.
pub fn would_match<K: Disk + Drop, E: Entropy>(
    post: &Post<K, E>,
    lane: Lane,
    octets: &[u8],
) -> Result<bool, Memory>
    ensures { (net : Network) (w : World) → ReceiverStands K.Disk E.Entropy net w lane post.now → IfOk result (λ does. does ≡ matches net w lane octets.now) }
{
    match post {
        Post::On(manager) => manager.would_match(lane, octets),
        Post::Off(_, _) => Ok(false),
    }
}

// Gives octets to the manager of the receiver.
fn heard<K: Disk + Drop, E: Entropy>(
    post: &mut Post<K, E>,
    lane: Lane,
    octets: Octets,
    up: u32,
) -> Reply
    requires asked { (net : Network) × (w : World) × MayHandle K.Disk E.Entropy net w (receiver net.site lane) post.old (Event.Heard lane octets) up }
    ensures { (net : Network) (w : World) → MayHandle K.Disk E.Entropy net w (receiver net.site lane) post.old (Event.Heard lane octets) up
        → Handled K.Disk E.Entropy net w (receiver net.site lane) (Event.Heard lane octets) post.old post.new result }
{
    let bytes = octets;
    handle(post, &Event::Heard { lane, bytes }, up)
}

// Gives octets to the receiver. If they are forged, they aren't given, and the result is `None`.
fn tamper<K: Disk + Drop, E: Entropy>(
    post: &mut Post<K, E>,
    lane: Lane,
    octets: Octets,
    forged: bool,
    up: u32,
) -> Option<Reply>
    requires asked { (net : Network) × (w : World) × MayTamper K.Disk E.Entropy net w lane post.old octets forged up }
    ensures { (net : Network) (w : World) → MayTamper K.Disk E.Entropy net w lane post.old octets forged up
        → HasTampered K.Disk E.Entropy net w lane octets post.old post.new result }
{
    if !is_up(post) {
        return Some(Reply::Down);
    }
    if forged {
        return None;
    }
    Some(heard(post, lane, octets, up))
}

/// Octets that anybody made come to the node that receives on a lane. `forged` says whether no frame on the lane's wire has
/// them, and they would match. Then the result is `None`, and the run ends. Those of a frame count as that frame.
pub fn forge<K: Disk + Drop, E: Entropy>(
    post: &mut Post<K, E>,
    lane: Lane,
    octets: Octets,
    forged: bool,
    up: u32,
) -> Option<Reply>
    requires asked { (net : Network) × (w : World) × MayForge K.Disk E.Entropy net w lane post.old octets forged up }
    ensures { (net : Network) (w : World) → MayForge K.Disk E.Entropy net w lane post.old octets forged up
        → HasForged K.Disk E.Entropy net w lane octets post.old post.new result }
{
    tamper(post, lane, octets, forged, up)
}

/// A frame of the lane's wire with one bit changed comes to the node that receives on the lane. `forged` and the results are
/// those of `forge`.
pub fn flip<K: Disk + Drop, E: Entropy>(
    post: &mut Post<K, E>,
    lane: Lane,
    octets: Octets,
    forged: bool,
    up: u32,
) -> Option<Reply>
    requires asked { (net : Network) × (w : World) × (number : ℕ) × (bit : ℕ) × MayFlip K.Disk E.Entropy net w lane number bit post.old octets forged up }
    ensures { (net : Network) (w : World) (number bit : ℕ) → MayFlip K.Disk E.Entropy net w lane number bit post.old octets forged up
        → HasFlipped K.Disk E.Entropy net w lane number bit post.old post.new result }
{
    tamper(post, lane, octets, forged, up)
}
