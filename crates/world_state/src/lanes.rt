// Putting what a plan sends, lane by lane.
ghost use Rattle.std.specs.Prelude.{◌≡◌, ◌++◌, List, OnOk, OnErr};
ghost use Rattle.qkd_base.specs.Lane.{lane_eq};
ghost use Rattle.net_model.specs.World.{Network, World};
ghost use Rattle.net_model.specs.Tick.{Emission, tick_order};
ghost use Rattle.world_state.specs.Sending.{Sending, PutsOn, Breaks, repeats_on, orders_on};
ghost use Rattle.world_state.specs.Outside.{outside};

use crate::plan_puts::{put_order, put_repeat};
use crate::{Progress, State};
use disk_model::Disk;
use net_model::{Order, Repeat};
use qkd_base::{Lane, Memory, NodeNo};
use source_devices::{Device, Entropy, Wire};

fn is_same(lane: &Lane, other: &Lane) -> bool
    ensures { result ≡ lane_eq lane.now other.now }
{
    lane == other
}

// Puts the repeats of a lane.
fn put_repeats<K: Disk + Drop, Q: Device + Drop, E: Entropy + Drop, X: Wire + Drop>(
    state: &mut State<K, Q, E, X>,
    node: NodeNo,
    lane: Lane,
    repeats: &[Repeat],
    progress: &mut Progress,
) -> Result<(), Memory>
    requires next { (net : Network) × (w : World) × (es : List Emission) × Sending (outside K.Disk Q.Device E.Entropy X.Wire) state.old net w node (repeats_on lane repeats.now ++ es) progress.old.placings }
    ensures site { state.new.site ≡ state.old.site }
    ensures posts { state.new.posts.items ≡ state.old.posts.items }
    ensures ok { OnOk result ((net : Network) (w : World) (es : List Emission) → Sending (outside K.Disk Q.Device E.Entropy X.Wire) state.old net w node (repeats_on lane repeats.now ++ es) progress.old.placings
        → PutsOn (outside K.Disk Q.Device E.Entropy X.Wire) state.old state.new net w node (repeats_on lane repeats.now ++ es) es progress.old.items progress.new.items progress.new.placings) }
    ensures err { OnErr result ((net : Network) (w : World) (es : List Emission) → Sending (outside K.Disk Q.Device E.Entropy X.Wire) state.old net w node (repeats_on lane repeats.now ++ es) progress.old.placings
        → Breaks (outside K.Disk Q.Device E.Entropy X.Wire) state.old state.new net w node (repeats_on lane repeats.now ++ es)) }
{
    for repeat in repeats {
        if is_same(&repeat.lane, &lane) {
            put_repeat(state, node, repeat, progress)?;
        }
    }
    Ok(())
}

// Puts the new orders of a lane.
fn put_orders<K: Disk + Drop, Q: Device + Drop, E: Entropy + Drop, X: Wire + Drop>(
    state: &mut State<K, Q, E, X>,
    node: NodeNo,
    lane: Lane,
    orders: &[Order],
    progress: &mut Progress,
) -> Result<(), Memory>
    requires next { (net : Network) × (w : World) × (es : List Emission) × Sending (outside K.Disk Q.Device E.Entropy X.Wire) state.old net w node (orders_on lane orders.now ++ es) progress.old.placings }
    ensures site { state.new.site ≡ state.old.site }
    ensures posts { state.new.posts.items ≡ state.old.posts.items }
    ensures ok { OnOk result ((net : Network) (w : World) (es : List Emission) → Sending (outside K.Disk Q.Device E.Entropy X.Wire) state.old net w node (orders_on lane orders.now ++ es) progress.old.placings
        → PutsOn (outside K.Disk Q.Device E.Entropy X.Wire) state.old state.new net w node (orders_on lane orders.now ++ es) es progress.old.items progress.new.items progress.new.placings) }
    ensures err { OnErr result ((net : Network) (w : World) (es : List Emission) → Sending (outside K.Disk Q.Device E.Entropy X.Wire) state.old net w node (orders_on lane orders.now ++ es) progress.old.placings
        → Breaks (outside K.Disk Q.Device E.Entropy X.Wire) state.old state.new net w node (orders_on lane orders.now ++ es)) }
{
    for order in orders {
        if is_same(&order.lane, &lane) {
            put_order(state, node, order, progress)?;
        }
    }
    Ok(())
}

/// Puts what a plan sends: on each lane its repeats, and then its new orders.
pub fn put_lanes<K: Disk + Drop, Q: Device + Drop, E: Entropy + Drop, X: Wire + Drop>(
    state: &mut State<K, Q, E, X>,
    node: NodeNo,
    lanes: &[Lane],
    repeats: &[Repeat],
    orders: &[Order],
    progress: &mut Progress,
) -> Result<(), Memory>
    requires next { (net : Network) × (w : World) × (es : List Emission) × Sending (outside K.Disk Q.Device E.Entropy X.Wire) state.old net w node (tick_order lanes.now repeats.now orders.now ++ es) progress.old.placings }
    ensures site { state.new.site ≡ state.old.site }
    ensures posts { state.new.posts.items ≡ state.old.posts.items }
    ensures ok { OnOk result ((net : Network) (w : World) (es : List Emission) → Sending (outside K.Disk Q.Device E.Entropy X.Wire) state.old net w node (tick_order lanes.now repeats.now orders.now ++ es) progress.old.placings
        → PutsOn (outside K.Disk Q.Device E.Entropy X.Wire) state.old state.new net w node (tick_order lanes.now repeats.now orders.now ++ es) es progress.old.items progress.new.items progress.new.placings) }
    ensures err { OnErr result ((net : Network) (w : World) (es : List Emission) → Sending (outside K.Disk Q.Device E.Entropy X.Wire) state.old net w node (tick_order lanes.now repeats.now orders.now ++ es) progress.old.placings
        → Breaks (outside K.Disk Q.Device E.Entropy X.Wire) state.old state.new net w node (tick_order lanes.now repeats.now orders.now ++ es)) }
{
    for lane in lanes {
        put_repeats(state, node, *lane, repeats, progress)?;
        put_orders(state, node, *lane, orders, progress)?;
    }
    Ok(())
}
