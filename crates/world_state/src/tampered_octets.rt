// Octets that need not be a frame come to a lane's receiver.
ghost use Rattle.std.specs.Prelude.{◌≡◌, ◌≤◌, ◌*◌, ℕ, [], length, nat_le, IfOk, OnErr, MatchResult, true, false};
ghost use Rattle.declared_site.specs.SiteOf.{site_of};
ghost use Rattle.net_model.specs.World.{Network, World};
ghost use Rattle.net_model.specs.Events.{is_lane};
ghost use Rattle.net_model.specs.Frames.{with_flipped};
ghost use Rattle.net_model.specs.Action.{Flip, Forge, Ok as Fine};
ghost use Rattle.run_model.specs.Script.{asks};
ghost use Rattle.run_ops.specs.Fitting.{is_fit};
ghost use Rattle.run_ops.specs.Acting.{IsReady, Does, Begins, tampered};
ghost use Rattle.world_nodes.specs.Tampering.{is_forged as are_forged, tampered_outcome};
ghost use Rattle.world_state.specs.Armed.{most_armed};
ghost use Rattle.world_state.specs.Frames.{IsChanged};
ghost use Rattle.world_state.specs.Rests.{Rests};
ghost use Rattle.world_state.specs.Stands.{Stands};
ghost use Rattle.world_state.specs.Tallied.{Tallied};
ghost use Rattle.world_state.specs.Outside.{outside};

use crate::State;
use crate::frames::seen;
use crate::places::at;
use crate::state_reads::on_wire;
use crate::wire_search::is_put;
use disk_model::Disk;
use kme_base::receiver;
use net_model::Reply;
use qkd_base::{Lane, Memory, Octets};
use run_ops::{Delivery, Tampered};
use source_devices::{Device, Entropy, Wire};
use world_nodes::would_match;

// What came of the octets, by the answer of the receiver's post.
fn came(reply: Option<Reply>) -> Tampered
    ensures { tampered result ≡ tampered_outcome reply }
{
    match reply {
        None => Tampered::Matched,
        Some(reply) => Tampered::Came(Delivery::Replied(reply)),
    }
}

// The octets with one bit changed, where bit 0 is the highest bit of the first octet. If they have no such bit, the number of
// their bits.
fn changed(octets: Octets, bit: u32) -> Result<Octets, u32>
    requires short { length octets ≤ 600 }
    ensures { MatchResult result (λ other. (nat_le (8 * length octets) bit ≡ false) × (other ≡ with_flipped octets bit)) (λ bits. (nat_le (8 * length octets) bit ≡ true) × (bits ≡ 8 * length octets)) }
{
    let mut octets = octets.into_vec();
    let bits = 8 * octets.len() as u32;
    if bits <= bit {
        return Err(bits);
    }
    octets[bit as usize / 8] ^= 1 << (7 - bit % 8);
    Ok(Octets::from_vec(octets))
}

// Whether octets that nobody put on a lane's wire would match at the lane's receiver. The wire is searched only where they
// match, which no octets but a frame's are expected to.
fn is_forged<K: Disk + Drop, Q: Device + Drop, E: Entropy + Drop, X: Wire + Drop>(
    state: &State<K, Q, E, X>,
    lane: &Lane,
    octets: &[u8],
) -> Result<bool, Memory>
    requires lane { is_lane (site_of state.now.site) lane.now ≡ true }
    requires ready { (net : Network) × (w : World) × IsReady (Stands (outside K.Disk Q.Device E.Entropy X.Wire)) state.now net w }
    ensures { (net : Network) (w : World) → IsReady (Stands (outside K.Disk Q.Device E.Entropy X.Wire)) state.now net w → IfOk result (λ forged. forged ≡ are_forged net w lane.now octets.now) }
{
    let node = receiver(&state.site, *lane);
    match at(&state.posts, usize::from(node.get())) {
        None => Ok(false),
        Some(post) => match would_match(post, *lane, octets) {
            Err(_) => Err(Memory),
            Ok(false) => Ok(false),
            Ok(true) => Ok(!is_put(state, lane, octets)),
        },
    }
}

// A changed frame comes to the lane's receiver.
fn bring_changed<K: Disk + Drop, Q: Device + Drop, E: Entropy + Drop, X: Wire + Drop>(
    state: &mut State<K, Q, E, X>,
    lane: &Lane,
    octets: Octets,
) -> Result<Tampered, Memory>
    requires lane { is_lane (site_of state.old.site) lane.now ≡ true }
    requires ready { (net : Network) × (w : World) × (number : ℕ) × (bit : ℕ) × IsChanged net w lane.now number bit octets × IsReady (Stands (outside K.Disk Q.Device E.Entropy X.Wire)) state.old net w }
    ensures site { state.new.site ≡ state.old.site }
    ensures armed { most_armed K.Disk state.new.posts.items ≡ most_armed K.Disk state.old.posts.items }
    ensures done { IfOk result (λ found. (net : Network) (w : World) (number bit : ℕ) → IsChanged net w lane.now number bit octets → IsReady (Stands (outside K.Disk Q.Device E.Entropy X.Wire)) state.old net w
        → Does (Stands (outside K.Disk Q.Device E.Entropy X.Wire)) (Tallied (outside K.Disk Q.Device E.Entropy X.Wire)) state.old state.new net w (Flip lane.now number bit Fine) (tampered found)) }
    ensures left { OnErr result ((net : Network) (w : World) (number bit : ℕ) → IsReady (Stands (outside K.Disk Q.Device E.Entropy X.Wire)) state.old net w
        → Begins (Rests (outside K.Disk Q.Device E.Entropy X.Wire)) (Tallied (outside K.Disk Q.Device E.Entropy X.Wire)) state.old state.new net w (asks (Flip lane.now number bit Fine) (λ outcome. []))) }
{
    let forged = match is_forged(state, lane, octets.as_slice()) {
        Err(_) => return Err(Memory),
        Ok(forged) => forged,
    };
    let up = state.up;
    let node = receiver(&state.site, *lane);
    match state.posts.get_mut(usize::from(node.get())) {
        None => Ok(Tampered::Came(Delivery::Replied(Reply::Down))),
        Some(post) => Ok(came(world_nodes::flip(post, *lane, octets, forged, up))),
    }
}

// Octets that anybody made come to the lane's receiver.
fn bring_made<K: Disk + Drop, Q: Device + Drop, E: Entropy + Drop, X: Wire + Drop>(
    state: &mut State<K, Q, E, X>,
    lane: &Lane,
    octets: Octets,
) -> Result<Tampered, Memory>
    requires fit { is_fit (site_of state.old.site) (Forge lane.now octets Fine) ≡ true }
    requires ready { (net : Network) × (w : World) × IsReady (Stands (outside K.Disk Q.Device E.Entropy X.Wire)) state.old net w }
    ensures site { state.new.site ≡ state.old.site }
    ensures armed { most_armed K.Disk state.new.posts.items ≡ most_armed K.Disk state.old.posts.items }
    ensures done { IfOk result (λ found. (net : Network) (w : World) → IsReady (Stands (outside K.Disk Q.Device E.Entropy X.Wire)) state.old net w
        → Does (Stands (outside K.Disk Q.Device E.Entropy X.Wire)) (Tallied (outside K.Disk Q.Device E.Entropy X.Wire)) state.old state.new net w (Forge lane.now octets Fine) (tampered found)) }
    ensures left { OnErr result ((net : Network) (w : World) → IsReady (Stands (outside K.Disk Q.Device E.Entropy X.Wire)) state.old net w
        → Begins (Rests (outside K.Disk Q.Device E.Entropy X.Wire)) (Tallied (outside K.Disk Q.Device E.Entropy X.Wire)) state.old state.new net w (asks (Forge lane.now octets Fine) (λ outcome. []))) }
{
    let forged = match is_forged(state, lane, octets.as_slice()) {
        Err(_) => return Err(Memory),
        Ok(forged) => forged,
    };
    let up = state.up;
    let node = receiver(&state.site, *lane);
    match state.posts.get_mut(usize::from(node.get())) {
        None => Ok(Tampered::Came(Delivery::Replied(Reply::Down))),
        Some(post) => Ok(came(world_nodes::forge(post, *lane, octets, forged, up))),
    }
}

/// The frame with this number on a lane's wire comes to the lane's receiver with one bit changed. If memory runs out, the run
/// ends.
pub fn flip<K: Disk + Drop, Q: Device + Drop, E: Entropy + Drop, X: Wire + Drop>(
    state: &mut State<K, Q, E, X>,
    lane: &Lane,
    number: u64,
    bit: u32,
) -> Result<Tampered, Memory>
    requires fit { is_fit (site_of state.old.site) (Flip lane.now number bit Fine) ≡ true }
    requires ready { (net : Network) × (w : World) × IsReady (Stands (outside K.Disk Q.Device E.Entropy X.Wire)) state.old net w }
    ensures site { state.new.site ≡ state.old.site }
    ensures armed { most_armed K.Disk state.new.posts.items ≡ most_armed K.Disk state.old.posts.items }
    ensures done { IfOk result (λ found. (net : Network) (w : World) → IsReady (Stands (outside K.Disk Q.Device E.Entropy X.Wire)) state.old net w
        → Does (Stands (outside K.Disk Q.Device E.Entropy X.Wire)) (Tallied (outside K.Disk Q.Device E.Entropy X.Wire)) state.old state.new net w (Flip lane.now number bit Fine) (tampered found)) }
    ensures left { OnErr result ((net : Network) (w : World) → IsReady (Stands (outside K.Disk Q.Device E.Entropy X.Wire)) state.old net w
        → Begins (Rests (outside K.Disk Q.Device E.Entropy X.Wire)) (Tallied (outside K.Disk Q.Device E.Entropy X.Wire)) state.old state.new net w (asks (Flip lane.now number bit Fine) (λ outcome. []))) }
{
    match seen(state, lane, number) {
        Err(_) => Err(Memory),
        Ok(None) => {
            let count = on_wire(state, *lane);
            Ok(Tampered::Came(Delivery::NoFrame { count }))
        }
        Ok(Some(octets)) => match changed(octets, bit) {
            Err(bits) => Ok(Tampered::Came(Delivery::NoBit { bits })),
            Ok(octets) => bring_changed(state, lane, octets),
        },
    }
}

/// Octets that anybody made come to a lane's receiver. If they are those of a frame on the lane's wire, they count as that
/// frame. If memory runs out, the run ends.
pub fn forge<K: Disk + Drop, Q: Device + Drop, E: Entropy + Drop, X: Wire + Drop>(
    state: &mut State<K, Q, E, X>,
    lane: &Lane,
    octets: &[u8],
) -> Result<Tampered, Memory>
    requires fit { is_fit (site_of state.old.site) (Forge lane.now octets.now Fine) ≡ true }
    requires ready { (net : Network) × (w : World) × IsReady (Stands (outside K.Disk Q.Device E.Entropy X.Wire)) state.old net w }
    ensures site { state.new.site ≡ state.old.site }
    ensures armed { most_armed K.Disk state.new.posts.items ≡ most_armed K.Disk state.old.posts.items }
    ensures done { IfOk result (λ found. (net : Network) (w : World) → IsReady (Stands (outside K.Disk Q.Device E.Entropy X.Wire)) state.old net w
        → Does (Stands (outside K.Disk Q.Device E.Entropy X.Wire)) (Tallied (outside K.Disk Q.Device E.Entropy X.Wire)) state.old state.new net w (Forge lane.now octets.now Fine) (tampered found)) }
    ensures left { OnErr result ((net : Network) (w : World) → IsReady (Stands (outside K.Disk Q.Device E.Entropy X.Wire)) state.old net w
        → Begins (Rests (outside K.Disk Q.Device E.Entropy X.Wire)) (Tallied (outside K.Disk Q.Device E.Entropy X.Wire)) state.old state.new net w (asks (Forge lane.now octets.now Fine) (λ outcome. []))) }
{
    match Octets::from_slice(*state.posts.allocator(), octets) {
        Err(_) => Err(Memory),
        Ok(octets) => bring_made(state, lane, octets),
    }
}
