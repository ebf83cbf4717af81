// Asking a manager of the state to handle an event.
ghost use Rattle.std.specs.Prelude.{◌≡◌, true};
ghost use Rattle.declared_site.specs.SiteOf.{site_of};
ghost use Rattle.net_model.specs.World.{Network, World};
ghost use Rattle.net_model.specs.Action.{Ask, Replies, Ok as Fine};
ghost use Rattle.run_ops.specs.Fitting.{is_fit};
ghost use Rattle.run_ops.specs.Acting.{IsReady, Does};
ghost use Rattle.world_state.specs.Stands.{Stands};
ghost use Rattle.world_state.specs.Tallied.{Tallied};
ghost use Rattle.world_state.specs.Armed.{most_armed};
ghost use Rattle.world_state.specs.Outside.{outside};

use crate::State;
use disk_model::Disk;
use net_model::{Event, Reply};
use qkd_base::NodeNo;
use source_devices::{Device, Entropy, Wire};

/// Asks a node's manager to handle an event, which must not be a plan.
pub fn ask<K: Disk + Drop, Q: Device + Drop, E: Entropy + Drop, X: Wire + Drop>(
    state: &mut State<K, Q, E, X>,
    node: NodeNo,
    event: &Event,
) -> Reply
    requires fit { is_fit (site_of state.old.site) (Ask node event.now Fine) ≡ true }
    requires ready { (net : Network) × (w : World) × IsReady (Stands (outside K.Disk Q.Device E.Entropy X.Wire)) state.old net w }
    ensures site { state.new.site ≡ state.old.site }
    ensures armed { most_armed K.Disk state.new.posts.items ≡ most_armed K.Disk state.old.posts.items }
    ensures done { (net : Network) (w : World) → IsReady (Stands (outside K.Disk Q.Device E.Entropy X.Wire)) state.old net w
        → Does (Stands (outside K.Disk Q.Device E.Entropy X.Wire)) (Tallied (outside K.Disk Q.Device E.Entropy X.Wire)) state.old state.new net w (Ask node event.now Fine) (Replies result) }
{
    let up = state.up;
    match state.posts.get_mut(usize::from(node.get())) {
        None => Reply::Down,
        Some(post) => world_nodes::ask(post, event, up),
    }
}
