// Reading a state.
ghost use Rattle.std.specs.Prelude.{◌≡◌, ◌<◌, length, true};
ghost use Rattle.declared_site.specs.SiteOf.{site_of};
ghost use Rattle.net_model.specs.World.{Network, World};
ghost use Rattle.net_model.specs.Events.{is_lane};
ghost use Rattle.net_model.specs.Ledger.{ledger};
ghost use Rattle.world_state.specs.Stands.{Stands, place_of};
ghost use Rattle.world_state.specs.Outside.{outside};

use crate::State;
use crate::places::at;
use disk_model::Disk;
use net_model::Counts4;
use qkd_base::{Lane, NodeNo, Way};
use source_devices::{Device, Entropy, Wire};
use world_nodes::Post;

/// The place of a lane in order of link, the lane up before the lane down.
pub fn lane_place(lane: Lane) -> usize
    ensures { result ≡ place_of lane }
{
    let first = 2 * usize::from(lane.link.get());
    match lane.way {
        Way::Up => first,
        Way::Down => first + 1,
    }
}

/// Whether a node's manager is up.
pub fn is_up<K: Disk + Drop, Q: Device + Drop, E: Entropy + Drop, X: Wire + Drop>(
    state: &State<K, Q, E, X>,
    node: NodeNo,
) -> bool
    requires { node < length state.now.site.nodes }
    ensures { (net : Network) (w : World) → Stands (outside K.Disk Q.Device E.Entropy X.Wire) state.now net w → result ≡ w.up node }
{
    match at(&state.posts, usize::from(node.get())) {
        None => false,
        Some(Post::On(manager)) => manager.is_up(),
        Some(Post::Off(_, _)) => false,
    }
}

/// The number of frames on a lane's wire.
pub fn on_wire<K: Disk + Drop, Q: Device + Drop, E: Entropy + Drop, X: Wire + Drop>(
    state: &State<K, Q, E, X>,
    lane: Lane,
) -> u64
    requires { is_lane (site_of state.now.site) lane ≡ true }
    ensures { (net : Network) (w : World) → Stands (outside K.Disk Q.Device E.Entropy X.Wire) state.now net w → result ≡ length (w.wire lane) }
{
    match at(&state.lanes, lane_place(lane)) {
        None => 0,
        Some(side) => side.wire().count(),
    }
}

/// Counts the bytes of a lane by what became of them.
pub fn counts<K: Disk + Drop, Q: Device + Drop, E: Entropy + Drop, X: Wire + Drop>(
    state: &State<K, Q, E, X>,
    lane: Lane,
) -> Counts4
    requires { is_lane (site_of state.now.site) lane ≡ true }
    ensures { (net : Network) (w : World) → Stands (outside K.Disk Q.Device E.Entropy X.Wire) state.now net w → result ≡ ledger w lane }
{
    match at(&state.lanes, lane_place(lane)) {
        None => Counts4 {
            received: 0,
            unused: 0,
            spent: 0,
            burnt: 0,
        },
        Some(side) => world_nodes::counts(side),
    }
}
