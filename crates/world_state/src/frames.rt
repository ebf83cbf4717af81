// Frames of a lane's wire come to its receiver.
ghost use Rattle.std.specs.Prelude.{◌≡◌, ◌≤◌, ℕ, [], length, None, IfOk, IfSome, OnErr, MatchOption, slice_get, true};
ghost use Rattle.declared_site.specs.SiteOf.{site_of};
ghost use Rattle.net_model.specs.World.{Network, World};
ghost use Rattle.net_model.specs.Events.{is_lane};
ghost use Rattle.net_model.specs.Action.{Deliver, Replies, Ok as Fine};
ghost use Rattle.run_model.specs.Script.{asks};
ghost use Rattle.run_ops.specs.Reported.{delivered};
ghost use Rattle.run_ops.specs.Fitting.{is_fit};
ghost use Rattle.run_ops.specs.Acting.{IsReady, Does, Begins};
ghost use Rattle.world_state.specs.Armed.{most_armed};
ghost use Rattle.world_state.specs.Frames.{IsOnWire};
ghost use Rattle.world_state.specs.Rests.{Rests};
ghost use Rattle.world_state.specs.Stands.{Stands};
ghost use Rattle.world_state.specs.Tallied.{Tallied};
ghost use Rattle.world_state.specs.Outside.{outside};

use crate::State;
use crate::places::at;
use crate::state_reads::{lane_place, on_wire};
use disk_model::Disk;
use kme_base::receiver;
use net_model::Reply;
use qkd_base::{FrameOctets, Lane, Memory, Octets};
use run_ops::Delivery;
use source_devices::{Device, Entropy, Wire};

/// A copy of the frame with this number on a lane's wire, if there is one.
pub fn seen<K: Disk + Drop, Q: Device + Drop, E: Entropy + Drop, X: Wire + Drop>(
    state: &State<K, Q, E, X>,
    lane: &Lane,
    number: u64,
) -> Result<Option<Octets>, Memory>
    requires lane { is_lane (site_of state.now.site) lane.now ≡ true }
    requires ready { (net : Network) × (w : World) × Stands (outside K.Disk Q.Device E.Entropy X.Wire) state.now net w }
    ensures found { IfOk result (λ found. (net : Network) (w : World) → Stands (outside K.Disk Q.Device E.Entropy X.Wire) state.now net w
        → MatchOption found (slice_get (w.wire lane.now) number ≡ None) (IsOnWire net w lane.now number)) }
    ensures short { IfOk result (λ found. IfSome found (λ octets. length octets ≤ 600)) }
{
    match at(&state.lanes, lane_place(*lane)) {
        None => Ok(None),
        Some(side) => {
            let mut room = FrameOctets::new();
            match world_nodes::frame(side, number, &mut room) {
                None => Ok(None),
                Some(length) => {
                    let octets = Octets::from_slice(
                        *state.lanes.allocator(),
                        &room.octets[..length],
                    )?;
                    Ok(Some(octets))
                }
            }
        }
    }
}

// The octets of a frame on the wire come to the lane's receiver.
fn come<K: Disk + Drop, Q: Device + Drop, E: Entropy + Drop, X: Wire + Drop>(
    state: &mut State<K, Q, E, X>,
    lane: &Lane,
    octets: Octets,
) -> Reply
    requires lane { is_lane (site_of state.old.site) lane.now ≡ true }
    requires ready { (net : Network) × (w : World) × (number : ℕ) × IsOnWire net w lane.now number octets × IsReady (Stands (outside K.Disk Q.Device E.Entropy X.Wire)) state.old net w }
    ensures site { state.new.site ≡ state.old.site }
    ensures armed { most_armed K.Disk state.new.posts.items ≡ most_armed K.Disk state.old.posts.items }
    ensures done { (net : Network) (w : World) (number : ℕ) → IsOnWire net w lane.now number octets → IsReady (Stands (outside K.Disk Q.Device E.Entropy X.Wire)) state.old net w
        → Does (Stands (outside K.Disk Q.Device E.Entropy X.Wire)) (Tallied (outside K.Disk Q.Device E.Entropy X.Wire)) state.old state.new net w (Deliver lane.now number Fine) (Replies result) }
{
    let up = state.up;
    let node = receiver(&state.site, *lane);
    match state.posts.get_mut(usize::from(node.get())) {
        None => Reply::Down,
        Some(post) => world_nodes::hear(post, *lane, octets, up),
    }
}

/// The frame with this number on a lane's wire comes to the lane's receiver. If there is no memory for its octets, the run
/// ends.
pub fn pass<K: Disk + Drop, Q: Device + Drop, E: Entropy + Drop, X: Wire + Drop>(
    state: &mut State<K, Q, E, X>,
    lane: &Lane,
    number: u64,
) -> Result<Delivery, Memory>
    requires fit { is_fit (site_of state.old.site) (Deliver lane.now number Fine) ≡ true }
    requires ready { (net : Network) × (w : World) × IsReady (Stands (outside K.Disk Q.Device E.Entropy X.Wire)) state.old net w }
    ensures site { state.new.site ≡ state.old.site }
    ensures armed { most_armed K.Disk state.new.posts.items ≡ most_armed K.Disk state.old.posts.items }
    ensures done { IfOk result (λ delivery. (net : Network) (w : World) → IsReady (Stands (outside K.Disk Q.Device E.Entropy X.Wire)) state.old net w
        → Does (Stands (outside K.Disk Q.Device E.Entropy X.Wire)) (Tallied (outside K.Disk Q.Device E.Entropy X.Wire)) state.old state.new net w (Deliver lane.now number Fine) (delivered delivery)) }
    ensures left { OnErr result ((net : Network) (w : World) → IsReady (Stands (outside K.Disk Q.Device E.Entropy X.Wire)) state.old net w
        → Begins (Rests (outside K.Disk Q.Device E.Entropy X.Wire)) (Tallied (outside K.Disk Q.Device E.Entropy X.Wire)) state.old state.new net w (asks (Deliver lane.now number Fine) (λ outcome. []))) }
{
    match seen(state, lane, number) {
        Err(_) => Err(Memory),
        Ok(None) => Ok(Delivery::NoFrame {
            count: on_wire(state, *lane),
        }),
        Ok(Some(octets)) => Ok(Delivery::Replied(come(state, lane, octets))),
    }
}
