// The tick of a node.
ghost use Rattle.std.specs.Prelude.{◌≡◌, ◌<◌, ◌++◌, ◌∷◌, List, [], length, OnOk, OnErr, IfOk};
ghost use Rattle.declared_site.specs.SiteOf.{site_of, IsDeclared};
ghost use Rattle.net_model.specs.Site.{outgoing_lanes};
ghost use Rattle.net_model.specs.World.{Network, World};
ghost use Rattle.net_model.specs.Tick.{Emission, tick_order};
ghost use Rattle.run_types.specs.declared.item.Item.{Item as ItemValue};
ghost use Rattle.run_model.specs.Lines.{emitted, ticked};
ghost use Rattle.run_ops.specs.Acting.{IsReady, Begins, Plays};
ghost use Rattle.world_state.specs.Armed.{most_armed};
ghost use Rattle.world_state.specs.Rests.{Rests};
ghost use Rattle.world_state.specs.Sending.{Sending, Breaks};
ghost use Rattle.world_state.specs.Stands.{Stands};
ghost use Rattle.world_state.specs.Tallied.{Tallied};
ghost use Rattle.world_state.specs.Ticking.{HasPlanned, HasNoted, HasStayed};
ghost use Rattle.world_state.specs.Outside.{outside};

use crate::lanes::put_lanes;
use crate::{Progress, State};
use disk_model::Disk;
use kme_base::outgoing_lanes;
use net_model::{Event, Order, Placings, Repeat, Reply};
use qkd_base::{Items, Memory, NodeNo};
use run_ops::tick_items;
use run_types::Item;
use source_devices::{Device, Entropy, Wire};
use std::alloc::Global;

// Asks a node's manager for its plan: what it wants to send.
fn plan<K: Disk + Drop, Q: Device + Drop, E: Entropy + Drop, X: Wire + Drop>(
    state: &mut State<K, Q, E, X>,
    node: NodeNo,
) -> Reply
    requires node { node < length state.old.site.nodes }
    requires ready { (net : Network) × (w : World) × IsReady (Stands (outside K.Disk Q.Device E.Entropy X.Wire)) state.old net w }
    ensures site { state.new.site ≡ state.old.site }
    ensures armed { most_armed K.Disk state.new.posts.items ≡ most_armed K.Disk state.old.posts.items }
    ensures planned { (net : Network) (w : World) → IsReady (Stands (outside K.Disk Q.Device E.Entropy X.Wire)) state.old net w → HasPlanned (outside K.Disk Q.Device E.Entropy X.Wire) state.old state.new net w node result }
{
    let up = state.up;
    match state.posts.get_mut(usize::from(node.get())) {
        None => Reply::Down,
        Some(post) => world_nodes::ask(post, &Event::Plan, up),
    }
}

// A node's manager notes what became of the frames of its plan, all of which were put or refused.
fn note<K: Disk + Drop, Q: Device + Drop, E: Entropy + Drop, X: Wire + Drop>(
    state: &mut State<K, Q, E, X>,
    node: NodeNo,
    placings: Placings,
) -> Result<(), Memory>
    requires sent { (net : Network) × (w : World) × Sending (outside K.Disk Q.Device E.Entropy X.Wire) state.old net w node [] placings }
    ensures site { state.new.site ≡ state.old.site }
    ensures armed { most_armed K.Disk state.new.posts.items ≡ most_armed K.Disk state.old.posts.items }
    ensures ok { OnOk result ((net : Network) (w : World) → Sending (outside K.Disk Q.Device E.Entropy X.Wire) state.old net w node [] placings → HasNoted (outside K.Disk Q.Device E.Entropy X.Wire) state.old state.new net w node) }
    ensures err { OnErr result ((net : Network) (w : World) → Sending (outside K.Disk Q.Device E.Entropy X.Wire) state.old net w node [] placings → HasStayed (outside K.Disk Q.Device E.Entropy X.Wire) state.old state.new net w) }
{
    let up = state.up;
    match state.posts.get_mut(usize::from(node.get())) {
        None => Ok(()),
        Some(post) => {
            world_nodes::note(post, placings, up)?;
            Ok(())
        }
    }
}

// Puts what a plan sends, and has the manager note it. The items are those before, followed by what this reports.
fn send<K: Disk + Drop, Q: Device + Drop, E: Entropy + Drop, X: Wire + Drop>(
    alloc: Global,
    state: &mut State<K, Q, E, X>,
    node: NodeNo,
    orders: &[Order],
    repeats: &[Repeat],
    items: Items<Item>,
) -> Result<Items<Item>, Memory>
    requires declared { IsDeclared state.old.site }
    requires next { (net : Network) × (w : World) × Sending (outside K.Disk Q.Device E.Entropy X.Wire) state.old net w node (tick_order (outgoing_lanes (site_of state.old.site) node) repeats.now orders.now) [] }
    ensures site { state.new.site ≡ state.old.site }
    ensures armed { most_armed K.Disk state.new.posts.items ≡ most_armed K.Disk state.old.posts.items }
    ensures ok { IfOk result (λ all. (net : Network) (w : World) → Sending (outside K.Disk Q.Device E.Entropy X.Wire) state.old net w node (tick_order (outgoing_lanes (site_of state.old.site) node) repeats.now orders.now) []
        → (reported : List ItemValue) × (all ≡ items ++ reported) × Plays (Stands (outside K.Disk Q.Device E.Entropy X.Wire)) (Tallied (outside K.Disk Q.Device E.Entropy X.Wire)) state.old state.new net w (emitted node (tick_order (outgoing_lanes (site_of state.old.site) node) repeats.now orders.now)) reported) }
    ensures err { OnErr result ((net : Network) (w : World) → Sending (outside K.Disk Q.Device E.Entropy X.Wire) state.old net w node (tick_order (outgoing_lanes (site_of state.old.site) node) repeats.now orders.now) []
        → Breaks (outside K.Disk Q.Device E.Entropy X.Wire) state.old state.new net w node (tick_order (outgoing_lanes (site_of state.old.site) node) repeats.now orders.now)) }
{
    let lanes = outgoing_lanes(alloc, &state.site, node)?;
    let placings = Items::new(alloc);
    let mut progress = Progress { items, placings };
    put_lanes(
        state,
        node,
        lanes.as_slice(),
        repeats,
        orders,
        &mut progress,
    )?;
    let Progress { items, placings } = progress;
    note(state, node, placings)?;
    Ok(items)
}

/// A node plans, puts its frames on their wires and notes what became of them. Returns what the tick reports; a quiet tick of
/// a node with nothing to send reports nothing. An `Err` means that memory ran out, which ends the run.
pub fn tick<K: Disk + Drop, Q: Device + Drop, E: Entropy + Drop, X: Wire + Drop>(
    alloc: Global,
    state: &mut State<K, Q, E, X>,
    node: NodeNo,
    quiet: bool,
) -> Result<Items<Item>, Memory>
    requires declared { IsDeclared state.old.site }
    requires node { node < length state.old.site.nodes }
    requires ready { (net : Network) × (w : World) × IsReady (Stands (outside K.Disk Q.Device E.Entropy X.Wire)) state.old net w }
    ensures site { state.new.site ≡ state.old.site }
    ensures armed { most_armed K.Disk state.new.posts.items ≡ most_armed K.Disk state.old.posts.items }
    ensures done { IfOk result (λ items. (net : Network) (w : World) → IsReady (Stands (outside K.Disk Q.Device E.Entropy X.Wire)) state.old net w → Plays (Stands (outside K.Disk Q.Device E.Entropy X.Wire)) (Tallied (outside K.Disk Q.Device E.Entropy X.Wire)) state.old state.new net w (ticked net.site quiet node) items) }
    ensures left { OnErr result ((net : Network) (w : World) → IsReady (Stands (outside K.Disk Q.Device E.Entropy X.Wire)) state.old net w → Begins (Rests (outside K.Disk Q.Device E.Entropy X.Wire)) (Tallied (outside K.Disk Q.Device E.Entropy X.Wire)) state.old state.new net w (ticked net.site quiet node)) }
{
    let reply = plan(state, node);
    let items = tick_items(alloc, node, quiet, &reply)?;
    match &reply {
        Reply::Planned {
            orders,
            repeats,
            ..
        } => send(
            alloc,
            state,
            node,
            orders.as_slice(),
            repeats.as_slice(),
            items,
        ),
        _ => Ok(items),
    }
}
