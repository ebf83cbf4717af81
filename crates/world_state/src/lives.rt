// Ending a manager's life, and arming a disk.
ghost use Rattle.std.specs.Prelude.{◌≡◌, ◌≤◌, ◌<◌, ◌+◌, ◌^◌, true};
ghost use Rattle.declared_site.specs.SiteOf.{site_of};
ghost use Rattle.net_model.specs.World.{Network, World};
ghost use Rattle.net_model.specs.Action.{Armed, Crash as Crashes, Arm as Arms};
ghost use Rattle.run_ops.specs.Reported.{crashed};
ghost use Rattle.run_ops.specs.Fitting.{is_fit};
ghost use Rattle.run_ops.specs.Acting.{IsReady, Does, fault_of};
ghost use Rattle.world_state.specs.Armed.{most_armed};
ghost use Rattle.world_state.specs.Stands.{Stands};
ghost use Rattle.world_state.specs.Tallied.{Tallied};
ghost use Rattle.world_state.specs.Outside.{outside};

use crate::State;
use disk_model::{Arm, Disk};
use qkd_base::NodeNo;
use source_devices::{Device, Entropy, Wire};

/// Ends the life of a node's manager, and returns whether it was up.
pub fn crash<K: Disk + Drop, Q: Device + Drop, E: Entropy + Drop, X: Wire + Drop>(
    state: &mut State<K, Q, E, X>,
    node: NodeNo,
) -> bool
    requires fit { is_fit (site_of state.old.site) (Crashes node) ≡ true }
    requires ready { (net : Network) × (w : World) × IsReady (Stands (outside K.Disk Q.Device E.Entropy X.Wire)) state.old net w }
    ensures site { state.new.site ≡ state.old.site }
    ensures armed { most_armed K.Disk state.new.posts.items ≡ most_armed K.Disk state.old.posts.items }
    ensures done { (net : Network) (w : World) → IsReady (Stands (outside K.Disk Q.Device E.Entropy X.Wire)) state.old net w
        → Does (Stands (outside K.Disk Q.Device E.Entropy X.Wire)) (Tallied (outside K.Disk Q.Device E.Entropy X.Wire)) state.old state.new net w (Crashes node) (crashed result) }
{
    let place = usize::from(node.get());
    let post = state.posts.remove(place);
    let (post, was_up) = world_nodes::crash(post);
    let _ = state.posts.insert(place, post);
    was_up
}

/// Arms a node's disk with a fault, which replaces an earlier one.
pub fn arm<K: Disk + Drop, Q: Device + Drop, E: Entropy + Drop, X: Wire + Drop>(
    state: &mut State<K, Q, E, X>,
    node: NodeNo,
    arm: Arm,
)
    requires fit { is_fit (site_of state.old.site) (Arms node (fault_of arm)) ≡ true }
    requires ready { (net : Network) × (w : World) × IsReady (Stands (outside K.Disk Q.Device E.Entropy X.Wire)) state.old net w }
    requires few { most_armed K.Disk state.old.posts.items < 2 ^ 32 }
    ensures site { state.new.site ≡ state.old.site }
    ensures armed { most_armed K.Disk state.new.posts.items ≤ most_armed K.Disk state.old.posts.items + 1 }
    ensures done { (net : Network) (w : World) → IsReady (Stands (outside K.Disk Q.Device E.Entropy X.Wire)) state.old net w
        → Does (Stands (outside K.Disk Q.Device E.Entropy X.Wire)) (Tallied (outside K.Disk Q.Device E.Entropy X.Wire)) state.old state.new net w (Arms node (fault_of arm)) Armed }
{
    match state.posts.get_mut(usize::from(node.get())) {
        None => {}
        Some(post) => world_nodes::arm(post, arm),
    }
}
