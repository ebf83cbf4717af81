// Putting frames on the wire of a lane, for the first time and again.
ghost use Rattle.std.specs.Prelude.{◌≡◌, ◌≤◌, IsErrOf};
ghost use Rattle.qkd_base.specs.Faults.{Rose};
ghost use Rattle.net_model.specs.World.{Network, World};
ghost use Rattle.source_devices.specs.declared.wire.WireFailed.TheVariants.{Fault};
ghost use Rattle.lane_sender.specs.Sending.{answer_of};
ghost use Rattle.world_nodes.specs.Emitting.{MayEmit, Emitted, MayRepeat, Repeated};

use lane_sender::{LaneSide, Sent};
use net_model::{Order, Repeat};
use source_devices::Wire;

/// Claims bytes under the lane's lease for an order, seals the frame and puts it on the wire. In the network, the order is
/// claimed, and then its frame is put or refused.
pub fn emit<X: Wire>(side: &mut LaneSide<X>, lease: u64, order: &Order) -> Sent
    requires asked { (net : Network) × (w : World) × MayEmit X.Wire net w side.old lease order.now }
    ensures emitted { (net : Network) (w : World) → MayEmit X.Wire net w side.old lease order.now → Emitted X.Wire net w side.new order.now result }
    ensures cause { IsErrOf (answer_of result) Fault → Rose (X.faults side.old.wire) (X.faults side.new.wire) }
    ensures later { X.faults side.old.wire ≤ X.faults side.new.wire }
    ensures calm { (IsErrOf (answer_of result) Fault → ⊥) → X.faults side.new.wire ≡ X.faults side.old.wire }
{
    side.raise(lease);
    side.emit(order)
}

/// Puts the frame of a repeat on the wire again. In the network, it is put or refused.
pub fn again<X: Wire>(side: &mut LaneSide<X>, repeat: &Repeat) -> Sent
    requires asked { (net : Network) × (w : World) × MayRepeat X.Wire net w side.old repeat.now }
    ensures repeated { (net : Network) (w : World) → MayRepeat X.Wire net w side.old repeat.now → Repeated X.Wire net w side.new repeat.now result }
    ensures cause { IsErrOf (answer_of result) Fault → Rose (X.faults side.old.wire) (X.faults side.new.wire) }
    ensures later { X.faults side.old.wire ≤ X.faults side.new.wire }
    ensures calm { (IsErrOf (answer_of result) Fault → ⊥) → X.faults side.new.wire ≡ X.faults side.old.wire }
{
    side.again(repeat)
}
