// Putting the frames of a plan on their wires.
ghost use Rattle.std.specs.Prelude.{◌≡◌, ◌++◌, [], ◌∷◌, List, true, OnOk, OnErr};
ghost use Rattle.net_model.specs.World.{Network, World};
ghost use Rattle.net_model.specs.Events.{is_lane};
ghost use Rattle.net_model.specs.Site.{sender};
ghost use Rattle.net_model.specs.Tick.{Emission, Again, New};
ghost use Rattle.lane_sender.specs.Sending.{answer_of};
ghost use Rattle.run_ops.specs.Reported.{put};
ghost use Rattle.world_nodes.specs.Emitting.{offset_of, wire_outcome};
ghost use Rattle.world_state.specs.Stands.{Stands};
ghost use Rattle.world_state.specs.Sending.{Sending, PutsOn, Breaks};
ghost use Rattle.world_state.specs.Outside.{outside};

use crate::places::at;
use crate::{Progress, State, lane_place};
use disk_model::Disk;
use lane_sender::Sent;
use net_model::{Order, Placing, Repeat, spelled_len};
use qkd_base::{Lane, Memory, NodeNo};
use run_ops::put_item;
use run_types::{Item, UnsentCause};
use source_devices::{Device, Entropy, Wire, WireFailed};
use world_nodes::{Post, again, emit, order_placing, repeat_placing};

/// The lease of a lane that leaves a node: bytes from there on may not be claimed.
pub fn lease<K: Disk + Drop, Q: Device + Drop, E: Entropy + Drop, X: Wire + Drop>(
    state: &State<K, Q, E, X>,
    node: NodeNo,
    lane: Lane,
) -> u64
    ensures { (net : Network) (w : World) → Stands (outside K.Disk Q.Device E.Entropy X.Wire) state.now net w → w.up node ≡ true →
        is_lane net.site lane ≡ true → sender net.site lane ≡ node → result ≡ w.durable.lease lane }
{
    match at(&state.posts, usize::from(node.get())) {
        None => 0,
        Some(Post::On(manager)) => manager.lease(lane),
        Some(Post::Off(_, _)) => 0,
    }
}

// The offset of a frame's first byte on its lane.
fn offset(sent: &Sent) -> u64
    ensures { result ≡ offset_of sent.now }
{
    match sent {
        Sent::Placed { offset, .. } => *offset,
        Sent::Unsent { offset, .. } => *offset,
    }
}

// The number that the wire gave the frame, or why the frame wasn't put.
fn answer(sent: &Sent) -> Result<u64, UnsentCause>
    ensures { put result ≡ wire_outcome (answer_of sent.now) }
{
    match sent {
        Sent::Placed { number, .. } => Ok(*number),
        Sent::Unsent { cause, .. } => match cause {
            WireFailed::Fault => Err(UnsentCause::WireFault),
            WireFailed::Memory => Err(UnsentCause::Memory),
        },
    }
}

// Adds what became of a frame.
fn add(progress: &mut Progress, item: Item, placing: Placing) -> Result<(), Memory>
    ensures items { OnOk result (progress.new.items ≡ progress.old.items ++ item ∷ []) }
    ensures placings { OnOk result (progress.new.placings ≡ progress.old.placings ++ placing ∷ []) }
{
    progress.items.push(item)?;
    progress.placings.push(placing)?;
    Ok(())
}

/// Claims bytes for the next order of a plan, and puts its frame on the wire or reports that it was refused.
pub fn put_order<K: Disk + Drop, Q: Device + Drop, E: Entropy + Drop, X: Wire + Drop>(
    state: &mut State<K, Q, E, X>,
    node: NodeNo,
    order: &Order,
    progress: &mut Progress,
) -> Result<(), Memory>
    requires next { (net : Network) × (w : World) × (es : List Emission) × Sending (outside K.Disk Q.Device E.Entropy X.Wire) state.old net w node (New order.now ∷ es) progress.old.placings }
    ensures site { state.new.site ≡ state.old.site }
    ensures posts { state.new.posts.items ≡ state.old.posts.items }
    ensures ok { OnOk result ((net : Network) (w : World) (es : List Emission) → Sending (outside K.Disk Q.Device E.Entropy X.Wire) state.old net w node (New order.now ∷ es) progress.old.placings
        → PutsOn (outside K.Disk Q.Device E.Entropy X.Wire) state.old state.new net w node (New order.now ∷ es) es progress.old.items progress.new.items progress.new.placings) }
    ensures err { OnErr result ((net : Network) (w : World) (es : List Emission) → Sending (outside K.Disk Q.Device E.Entropy X.Wire) state.old net w node (New order.now ∷ es) progress.old.placings
        → Breaks (outside K.Disk Q.Device E.Entropy X.Wire) state.old state.new net w node (New order.now ∷ es)) }
{
    let size = spelled_len(&order.payload);
    let end = lease(state, node, order.lane);
    let sent = emit(&mut state.lanes[lane_place(order.lane)], end, order);
    let item = put_item(order.lane, offset(&sent), size, answer(&sent));
    add(progress, item, order_placing(order, &sent))
}

/// Puts the frame of the next repeat of a plan on the wire again, or reports that it was refused.
pub fn put_repeat<K: Disk + Drop, Q: Device + Drop, E: Entropy + Drop, X: Wire + Drop>(
    state: &mut State<K, Q, E, X>,
    node: NodeNo,
    repeat: &Repeat,
    progress: &mut Progress,
) -> Result<(), Memory>
    requires next { (net : Network) × (w : World) × (es : List Emission) × Sending (outside K.Disk Q.Device E.Entropy X.Wire) state.old net w node (Again repeat.now ∷ es) progress.old.placings }
    ensures site { state.new.site ≡ state.old.site }
    ensures posts { state.new.posts.items ≡ state.old.posts.items }
    ensures ok { OnOk result ((net : Network) (w : World) (es : List Emission) → Sending (outside K.Disk Q.Device E.Entropy X.Wire) state.old net w node (Again repeat.now ∷ es) progress.old.placings
        → PutsOn (outside K.Disk Q.Device E.Entropy X.Wire) state.old state.new net w node (Again repeat.now ∷ es) es progress.old.items progress.new.items progress.new.placings) }
    ensures err { OnErr result ((net : Network) (w : World) (es : List Emission) → Sending (outside K.Disk Q.Device E.Entropy X.Wire) state.old net w node (Again repeat.now ∷ es) progress.old.placings
        → Breaks (outside K.Disk Q.Device E.Entropy X.Wire) state.old state.new net w node (Again repeat.now ∷ es)) }
{
    let sent = again(&mut state.lanes[lane_place(repeat.lane)], repeat);
    let size = repeat.length.saturating_sub(24);
    let item = put_item(repeat.lane, repeat.offset, size, answer(&sent));
    add(progress, item, repeat_placing(repeat, &sent))
}
