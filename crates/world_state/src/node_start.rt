// Starting a node's manager, and letting its lanes go on.
ghost use Rattle.std.specs.Prelude.{◌≡◌, [], OnOk, OnErr, IfOk, true, false};
ghost use Rattle.declared_site.specs.SiteOf.{IsDeclared, site_of};
ghost use Rattle.net_model.specs.World.{Network, World};
ghost use Rattle.net_model.specs.Action.{Start as Starts, Recovers};
ghost use Rattle.run_model.specs.Script.{asks};
ghost use Rattle.run_ops.specs.Reported.{started};
ghost use Rattle.run_ops.specs.Fitting.{is_fit};
ghost use Rattle.run_ops.specs.Acting.{IsReady, Does, Begins};
ghost use Rattle.world_state.specs.Armed.{most_armed};
ghost use Rattle.world_state.specs.Rests.{Rests};
ghost use Rattle.world_state.specs.Stands.{Stands};
ghost use Rattle.world_state.specs.Starting.{is_started, HasBegun, octets_in, lease_in, refilled, gone_on, MayRefill, MayGoOn, MayAllGoOn, AllWentOn, WiresKept};
ghost use Rattle.world_state.specs.Tallied.{Tallied};
ghost use Rattle.world_state.specs.Outside.{outside};

use crate::State;
use declared_site::Site;
use disk_model::Disk;
use kme_base::sender;
use lane_sender::LaneSide;
use qkd_base::{Memory, NodeNo};
use run_types::StartResult;
use source_devices::{Device, Entropy, Wire};
use std::alloc::Global;
use world_nodes::{Manager, Post};

fn is_started(answer: &StartResult) -> bool
    ensures { result ≡ is_started answer.now }
{
    match answer {
        StartResult::Started => true,
        _ => false,
    }
}

// Starts the node's manager. Its lanes stay as they were.
fn begin<K: Disk + Drop, Q: Device + Drop, E: Entropy + Drop, X: Wire + Drop>(
    alloc: Global,
    state: &mut State<K, Q, E, X>,
    node: NodeNo,
) -> StartResult
    requires declared { IsDeclared state.old.site }
    requires fit { is_fit (site_of state.old.site) (Starts node (Recovers false)) ≡ true }
    requires ready { (net : Network) × (w : World) × IsReady (Stands (outside K.Disk Q.Device E.Entropy X.Wire)) state.old net w }
    ensures site { state.new.site ≡ state.old.site }
    ensures armed { most_armed K.Disk state.new.posts.items ≡ most_armed K.Disk state.old.posts.items }
    ensures begun { (net : Network) (w : World) → IsReady (Stands (outside K.Disk Q.Device E.Entropy X.Wire)) state.old net w
        → HasBegun (outside K.Disk Q.Device E.Entropy X.Wire) state.old state.new net w node result }
{
    let place = usize::from(node.get());
    let post = state.posts.remove(place);
    let (post, answer) = world_nodes::start(alloc, post, &state.site, node);
    let _ = state.posts.insert(place, post);
    answer
}

// A lane takes the blocks that its sender's manager has and that it lacks. After an `Err`, it keeps those that it took.
fn refill<K: Disk + Drop, E: Entropy + Drop, X: Wire + Drop>(
    side: &mut LaneSide<X>,
    manager: &Manager<K, E>,
) -> Result<(), Memory>
    requires may { MayRefill (octets_in manager.now.view side.old.lane) side.old }
    ensures ok { OnOk result (side.new ≡ refilled (octets_in manager.now.view side.old.lane) side.old) }
    ensures kept { (side.new.lane ≡ side.old.lane) × (side.new.wire ≡ side.old.wire) }
{
    let held = side.bytes().len() as u64 / 1024;
    let mut block = [0u8; 1024];
    for number in held..512 {
        if !manager.lane_block(side.lane(), number, &mut block) {
            return Ok(());
        }
        side.take(&block)?;
    }
    Ok(())
}

// A lane takes the blocks that it lacks, and goes on at the lease that its sender's manager has.
fn go_on<K: Disk + Drop, E: Entropy + Drop, X: Wire + Drop>(
    side: &mut LaneSide<X>,
    manager: &Manager<K, E>,
) -> Result<(), Memory>
    requires may { MayGoOn (octets_in manager.now.view side.old.lane) (lease_in manager.now.view side.old.lane) side.old }
    ensures ok { OnOk result (side.new ≡ gone_on (octets_in manager.now.view side.old.lane) (lease_in manager.now.view side.old.lane) side.old) }
    ensures wire { side.new.wire ≡ side.old.wire }
{
    refill(side, manager)?;
    let lease = manager.lease(side.lane());
    side.restart(lease);
    Ok(())
}

// Lets all lanes that leave the manager's node go on. After an `Err`, some of them have and some haven't.
fn go_on_all<K: Disk + Drop, E: Entropy + Drop, X: Wire + Drop>(
    lanes: &mut Vec<LaneSide<X>>,
    site: &Site,
    node: NodeNo,
    manager: &Manager<K, E>,
) -> Result<(), Memory>
    requires may { MayAllGoOn (site_of site.now) node manager.now.view lanes.old.items }
    ensures ok { OnOk result (AllWentOn (site_of site.now) node manager.now.view lanes.old.items lanes.new.items) }
    ensures wires { WiresKept lanes.old.items lanes.new.items }
{
    for place in 0..lanes.len() {
        let side = &mut lanes[place];
        if sender(site, side.lane()) == node {
            go_on(side, manager)?;
        }
    }
    Ok(())
}

/// Starts a node's manager on its disk. If it is up afterwards, each lane that leaves the node takes the blocks that it lacks
/// from the journal, and goes on at the journal's lease. If there is no memory for a block, the run ends.
pub fn start<K: Disk + Drop, Q: Device + Drop, E: Entropy + Drop, X: Wire + Drop>(
    alloc: Global,
    state: &mut State<K, Q, E, X>,
    node: NodeNo,
) -> Result<StartResult, Memory>
    requires declared { IsDeclared state.old.site }
    requires fit { is_fit (site_of state.old.site) (Starts node (Recovers false)) ≡ true }
    requires ready { (net : Network) × (w : World) × IsReady (Stands (outside K.Disk Q.Device E.Entropy X.Wire)) state.old net w }
    ensures site { state.new.site ≡ state.old.site }
    ensures armed { most_armed K.Disk state.new.posts.items ≡ most_armed K.Disk state.old.posts.items }
    ensures done { IfOk result (λ start. (net : Network) (w : World) → IsReady (Stands (outside K.Disk Q.Device E.Entropy X.Wire)) state.old net w
        → Does (Stands (outside K.Disk Q.Device E.Entropy X.Wire)) (Tallied (outside K.Disk Q.Device E.Entropy X.Wire)) state.old state.new net w (Starts node (Recovers false)) (started start)) }
    ensures left { OnErr result ((net : Network) (w : World) → IsReady (Stands (outside K.Disk Q.Device E.Entropy X.Wire)) state.old net w
        → Begins (Rests (outside K.Disk Q.Device E.Entropy X.Wire)) (Tallied (outside K.Disk Q.Device E.Entropy X.Wire)) state.old state.new net w (asks (Starts node (Recovers false)) (λ outcome. []))) }
{
    let answer = begin(alloc, state, node);
    if !is_started(&answer) {
        return Ok(answer);
    }
    match &state.posts[usize::from(node.get())] {
        Post::Off(_, _) => Ok(answer),
        Post::On(manager) => match go_on_all(&mut state.lanes, &state.site, node, manager) {
            Err(_) => Err(Memory),
            Ok(()) => Ok(answer),
        },
    }
}
