// Putting the parts of a state back into the bench.
ghost use Rattle.std.specs.Prelude.{◌≡◌, ◌+◌, ◌≤◌, ◌++◌, Some, map, vec_len, vec_capacity};
ghost use Rattle.std.specs.List.{All};
ghost use Rattle.world_state.specs.Passed.{disk_of, entropy_of};
ghost use Rattle.net_world.specs.Laid.{IsOnDisk, HasRoomFor, IsPutBack};

use crate::Bench;
use crate::parts::{put_all, put_first};
use disk_model::Disk;
use lane_sender::LaneSide;
use source_devices::{Device, Entropy, Wire};
use world_state::{Post, State};

// A node's disk and its entropy.
fn parts_of<K: Disk + Drop, E: Entropy + Drop>(post: Post<K, E>) -> (K, E)
    ensures disk { disk_of post ≡ Some result.0 }
    ensures entropy { result.1 ≡ entropy_of post }
    ensures on_disk { IsOnDisk K.Disk post }
{
    match post {
        Post::On(manager) => manager.crash(),
        Post::Off(disk, entropy) => (disk, entropy),
    }
}

// Puts back the disks and the entropies of all nodes.
fn put_posts<K: Disk + Drop, E: Entropy + Drop>(
    posts: &mut Vec<Post<K, E>>,
    disks: &mut Vec<K>,
    entropies: &mut Vec<E>,
)
    requires disk_room { vec_len posts.old + vec_len disks.old ≤ vec_capacity disks.old }
    requires entropy_room { vec_len posts.old + vec_len entropies.old ≤ vec_capacity entropies.old }
    ensures disks { map Some disks.new.items ≡ map disk_of posts.old.items ++ map Some disks.old.items }
    ensures entropies { entropies.new.items ≡ map entropy_of posts.old.items ++ entropies.old.items }
    ensures on_disk { All (IsOnDisk K.Disk) posts.old.items }
{
    for _ in 0..posts.len() {
        let post = posts.take_last();
        let (disk, entropy) = parts_of(post);
        put_first(disks, disk);
        put_first(entropies, entropy);
    }
}

// Puts back the wires of all lanes.
fn put_wires<X: Wire + Drop>(lanes: &mut Vec<LaneSide<X>>, wires: &mut Vec<X>)
    requires room { vec_len lanes.old + vec_len wires.old ≤ vec_capacity wires.old }
    ensures { wires.new.items ≡ map (λ side. side.wire) lanes.old.items ++ wires.old.items }
{
    for _ in 0..lanes.len() {
        let side = lanes.take_last();
        put_first(wires, side.into_wire());
    }
}

/// Puts the parts of a network back into the bench, before those that stayed there. It ends the managers that are up, and allocates no
/// memory.
pub fn put_back<K: Disk + Drop, Q: Device + Drop, E: Entropy + Drop, X: Wire + Drop>(
    state: State<K, Q, E, X>,
    bench: &mut Bench<K, Q, E, X>,
)
    requires room { HasRoomFor bench.old state }
    ensures { IsPutBack K.Disk state bench.old bench.new }
{
    let State {
        mut posts,
        mut lanes,
        mut devices,
        ..
    } = state;
    put_posts(&mut posts, &mut bench.disks, &mut bench.entropies);
    put_wires(&mut lanes, &mut bench.wires);
    put_all(&mut devices, &mut bench.devices);
}
