// Ending the life of a node's manager, and arming its disk with faults.
ghost use Rattle.std.specs.Prelude.{◌≡◌, ◌<◌, ◌^◌, ℕ};
ghost use Rattle.net_model.specs.Action.{Fault};
ghost use Rattle.net_model.specs.World.{Network, World};
ghost use Rattle.world_nodes.specs.Handled.{OnDisk};
ghost use Rattle.world_nodes.specs.Lives.{MayCrash, HasCrashed, MayArm, HasArmed, IsArmedWith};

use disk_model::{Arm, Disk};
use kme_store::Post;
use source_devices::Entropy;

/// Ends the life of a node's manager, and returns whether it was up. The disk keeps its content.
pub fn crash<K: Disk + Drop, E: Entropy>(post: Post<K, E>) -> (Post<K, E>, bool)
    ensures { (net : Network) (w : World) (v : ℕ) → MayCrash K.Disk E.Entropy net w v post
        → HasCrashed K.Disk E.Entropy net w v post result.0 result.1 }
{
    match post {
        Post::On(manager) => {
            if manager.is_up() {
                let (disk, entropy) = manager.crash();
                (Post::Off(disk, entropy), true)
            } else {
                (Post::On(manager), false)
            }
        }
        Post::Off(disk, entropy) => (Post::Off(disk, entropy), false),
    }
}

/// Arms a node's disk with a fault, which replaces an earlier one. Nothing else changes.
pub fn arm<K: Disk + Drop, E: Entropy>(post: &mut Post<K, E>, arm: Arm)
    requires count { OnDisk (λ disk. (K.armings disk).count < 2 ^ 32) post.old }
    ensures armed { IsArmedWith K.Disk E.Entropy arm post.old post.new }
    ensures action { (net : Network) (w : World) (v : ℕ) (fault : Fault) → MayArm K.Disk E.Entropy net w v fault post.old
        → HasArmed K.Disk E.Entropy net w v fault post.new }
{
    match post {
        Post::On(manager) => manager.arm(arm),
        Post::Off(disk, _) => disk.arm(arm),
    }
}
