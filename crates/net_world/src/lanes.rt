// The veils of all lanes.
ghost use Rattle.std.specs.Prelude.{◌≡◌, ◌*◌, ◌≤◌, IfOk, length};
ghost use Rattle.net_model.specs.World.{Network, World};
ghost use Rattle.net_world.specs.Veiled.{all_frames, all_changed};
ghost use Rattle.net_world.specs.Lanes.{AreLanes};

use crate::veil::{Veiled, veil_lane};
use lane_sender::LaneSide;
use qkd_base::Memory;
use source_devices::Wire;
use std::alloc::Global;

/// The counts of the veils of all lanes of a network.
pub fn veil_lanes<X: Wire + Drop>(alloc: Global, sides: &[LaneSide<X>]) -> Result<Veiled, Memory>
    requires ready { (net : Network) × (w : World) × AreLanes X.Wire net w sides.now }
    ensures { IfOk result (λ v. (net : Network) (w : World) → AreLanes X.Wire net w sides.now → (v.frames ≡ all_frames net w) × (v.bytes ≡ all_changed net w)) }
{
    let mut frames = 0;
    let mut bytes = 0;
    for side in sides {
        let lane = veil_lane(alloc, side)?;
        frames += lane.frames;
        bytes += lane.bytes;
    }
    Ok(Veiled { frames, bytes })
}
