// Taking the managers out of a run's state for connections to ask, and putting them back.
ghost use Rattle.std.specs.Prelude.{◌≡◌, ◌≤◌, [], length, map, reverse, vec_len, vec_capacity};
ghost use Rattle.std.specs.List.{AllByRecursion};
ghost use Rattle.std.specs.Vec.{vec_ptr};
ghost use Rattle.net_model.specs.Site.{count_up};
ghost use Rattle.net_model.specs.World.{Network, World};
ghost use Rattle.world_state.specs.Stands.{Stands};
ghost use Rattle.world_state.specs.Outside.{outside};

use crate::ServedPost;
use declared_site::Site;
use disk_model::Disk;
use qkd_base::NodeNo;
use source_devices::{Device, Entropy, Wire};
use std::snapshot::Snapshot;
use world_state::{Post, State};

/// Takes each manager out of the run's state for connections to ask, the last node first.
pub(crate) fn take_out<K: Disk + Drop, Q: Device + Drop, E: Entropy + Drop, X: Wire + Drop>(
    opening: &Snapshot<State<K, Q, E, X>>,
    site: &Site,
    up: u32,
    posts: &mut Vec<Post<K, E>>,
    managers: &mut Vec<ServedPost<K, E>>,
)
    requires sited { site.now ≡ opening.now.value.site }
    requires up { up ≡ opening.now.value.up }
    requires posts { posts.old.items ≡ opening.now.value.posts.items }
    requires ready { (net : Network) × (w : World) × Stands (outside K.Disk Q.Device E.Entropy X.Wire) opening.now.value net w }
    requires nodes { length posts.old.items ≤ 16 }
    requires none { managers.old.items ≡ [] }
    requires room { vec_len posts.old ≤ vec_capacity managers.old }
    ensures posts { posts.new.items ≡ [] }
    ensures block { (vec_ptr posts.new ≡ vec_ptr posts.old) × (vec_capacity posts.new ≡ vec_capacity posts.old) }
    ensures managers { map (λ m. m.post) (reverse managers.new.items) ≡ posts.old.items }
    ensures nodes { map (λ m. m.node) (reverse managers.new.items) ≡ count_up (length posts.old.items) }
    ensures charters { AllByRecursion (λ m. (m.site.value ≡ opening.now.value.site) × (m.up ≡ opening.now.value.up)) managers.new.items }
    ensures capacity { vec_capacity managers.new ≡ vec_capacity managers.old }
{
    for _ in 0..posts.len() {
        let post = posts.take_last();
        let node = NodeNo::new(posts.len() as u8).unwrap();
        let manager = ServedPost {
            node,
            up,
            post,
            site: Snapshot::of(site),
        };
        managers.push_reserved(manager);
    }
}

/// Puts the managers back. The last node's manager comes first in `managers`.
pub(crate) fn put_back<K: Disk + Drop, E: Entropy + Drop>(
    mut managers: Vec<ServedPost<K, E>>,
    posts: &mut Vec<Post<K, E>>,
)
    requires none { posts.old.items ≡ [] }
    requires room { vec_len managers ≤ vec_capacity posts.old }
    ensures posts { posts.new.items ≡ map (λ m. m.post) (reverse managers.items) }
    ensures block { (vec_ptr posts.new ≡ vec_ptr posts.old) × (vec_capacity posts.new ≡ vec_capacity posts.old) }
{
    managers.reverse();
    for manager in managers {
        let ServedPost { post, .. } = manager;
        posts.push_reserved(post);
    }
}
