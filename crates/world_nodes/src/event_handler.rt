// Giving an event to a node's manager.
ghost use Rattle.std.specs.Prelude.{◌≡◌, ℕ, true};
ghost use Rattle.net_model.specs.Events.{is_valid_event};
ghost use Rattle.net_model.specs.World.{Network, World};
ghost use Rattle.declared_site.specs.SiteOf.{site_of};
ghost use Rattle.world_nodes.specs.Handled.{MayHandle, Handled};
ghost use Rattle.world_nodes.specs.Passed.{ManagerForm, is_up};

use disk_model::Disk;
use kme_store::Post;
use net_model::{Event, Reply};
use source_devices::Entropy;

/// Gives an event to a node's manager. If the manager is up, the event must be valid for it. Bit l of `up` says that link l is up. If the
/// node has no manager that is up, it answers `Down`.
pub fn ask_if_up<K: Disk + Drop, E: Entropy>(post: &mut Post<K, E>, event: &Event, up: u32) -> Reply
    requires valid { (m : ManagerForm K E) → post.old ≡ Post.On m → is_up m.standing ≡ true → is_valid_event (site_of m.site) m.view.me event.now ≡ true }
    ensures { (net : Network) (w : World) (v : ℕ) → MayHandle K.Disk E.Entropy net w v post.old event.now up
        → Handled K.Disk E.Entropy net w v event.now post.old post.new result }
{
    match post {
        Post::On(manager) => {
            if manager.is_up() {
                manager.act(event, up)
            } else {
                Reply::Down
            }
        }
        Post::Off(_, _) => Reply::Down,
    }
}

/// Gives an event to the manager of a node that stands for one of a network in which it may be given.
pub(crate) fn handle<K: Disk + Drop, E: Entropy>(
    post: &mut Post<K, E>,
    event: &Event,
    up: u32,
) -> Reply
    requires asked { (net : Network) × (w : World) × (v : ℕ) × MayHandle K.Disk E.Entropy net w v post.old event.now up }
    ensures { (net : Network) (w : World) (v : ℕ) → MayHandle K.Disk E.Entropy net w v post.old event.now up
        → Handled K.Disk E.Entropy net w v event.now post.old post.new result }
{
    ask_if_up(post, event, up)
}
