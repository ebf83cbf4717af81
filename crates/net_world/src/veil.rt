// The veil of a lane, and its counts.
ghost use Rattle.std.specs.Prelude.{◌≡◌, ◌≤◌, true, IfOk, length};
ghost use Rattle.net_model.specs.World.{Network, World};
ghost use Rattle.net_model.specs.Events.{is_lane};
ghost use Rattle.world_state.specs.Passed.{IsRunning, LaneStands};
ghost use Rattle.pad_veil.specs.Faults.{LieApart};
ghost use Rattle.pad_veil.specs.Veil.{veil};
ghost use Rattle.net_world.specs.Veiled.{frames_on, changed_on};

use crate::differences::differences;
use crate::frames::frames_of;
use crate::{law_sent_lie_apart, law_veiled_differ_in_bytes};
use lane_sender::LaneSide;
use pad_veil::{Sealed, VeilRefusal, law_every_key_fits, veiled};
use qkd_base::{Memory, Octets};
use source_devices::Wire;
use std::alloc::Global;

/// The counts of a veil.
#[derive(Clone, Copy, Debug, PartialEq, Eq)]
pub struct Veiled {
    /// The number of different frames on wires.
    pub frames: u64,
    /// The number of changed bytes of lanes.
    pub bytes: u64,
}

// The veil of a lane. No frame is refused.
fn veil_of(alloc: Global, bytes: &[u8], frames: &Sealed) -> Result<Octets, Memory>
    requires { LieApart (length bytes.now) frames.now }
    ensures veil { IfOk result (λ answer. answer ≡ veil bytes.now frames.now) }
    ensures len { IfOk result (λ answer. length answer ≡ length bytes.now) }
{
    law_every_key_fits();
    match veiled(alloc, bytes, frames) {
        Ok(answer) => Ok(answer),
        Err(VeilRefusal::Memory) => Err(Memory),
        Err(VeilRefusal::Unequal(_)) => unreachable!(),
        Err(VeilRefusal::Outside(_)) => unreachable!(),
        Err(VeilRefusal::Overlap(_)) => unreachable!(),
    }
}

/// The number of different frames on a lane's wire, and the number of the lane's bytes that change when each key in the frames is
/// complemented and the wire stays the same. Time and memory grow with the lane's bytes and the frames of its wire.
pub fn veil_lane<X: Wire>(alloc: Global, side: &LaneSide<X>) -> Result<Veiled, Memory>
    requires ready { (net : Network) × (w : World) × IsRunning net w × (is_lane net.site side.now.lane ≡ true) × LaneStands X.Wire net w side.now.lane side.now }
    ensures counts { IfOk result (λ v. (net : Network) (w : World) → IsRunning net w → is_lane net.site side.now.lane ≡ true →
        LaneStands X.Wire net w side.now.lane side.now → (v.frames ≡ frames_on w side.now.lane) × (v.bytes ≡ changed_on net w side.now.lane)) }
    ensures few { IfOk result (λ v. (v.frames ≤ length side.now.bytes) × (v.bytes ≤ length side.now.bytes)) }
{
    law_sent_lie_apart();
    law_veiled_differ_in_bytes();
    let frames = frames_of(alloc, side)?;
    let bytes = side.bytes();
    let other = veil_of(alloc, bytes, &frames)?;
    Ok(Veiled {
        frames: frames.len() as u64,
        bytes: differences(bytes, other.as_slice()) as u64,
    })
}
