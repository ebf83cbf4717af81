// A lane takes blocks of its link.
ghost use Rattle.std.specs.Prelude.{◌≡◌, OnOk, OnErr};
ghost use Rattle.net_model.specs.World.{Network, World};
ghost use Rattle.world_nodes.specs.LaneStands.{LaneStands, WireStands};
ghost use Rattle.world_nodes.specs.Taking.{is_of_way, MayTake, TakesBlock};

use lane_sender::LaneSide;
use qkd_base::{Lane, Memory, Way};
use source_devices::Wire;

// Whether the lane's way takes the link's block with this number: up takes the even ones, down the odd ones.
fn is_of_lane(lane: Lane, number: u32) -> bool
    ensures { result ≡ is_of_way lane.way number }
{
    match lane.way {
        Way::Up => number % 2 == 0,
        Way::Down => number % 2 == 1,
    }
}

/// Takes the next block of the lane's link, if its number belongs to the lane's way. In the network, the lane's sender has
/// just made this block durable. An `Err` changes nothing.
pub fn take<X: Wire>(side: &mut LaneSide<X>, number: u32, block: &[u8; 1024]) -> Result<(), Memory>
    requires asked { (net : Network) × (w : World) × MayTake X.Wire net w side.old number block.now }
    ensures ok { OnOk result ((net : Network) (w w' : World) → MayTake X.Wire net w side.old number block.now → TakesBlock net w w' side.old.lane number block.now
        → LaneStands X.Wire net w' side.old.lane side.new) }
    ensures err { OnErr result (side.new ≡ side.old) }
    ensures kept { side.new.wire ≡ side.old.wire }
    ensures wire { (net : Network) (w w' : World) → MayTake X.Wire net w side.old number block.now → TakesBlock net w w' side.old.lane number block.now
        → WireStands X.Wire net w' side.old.lane side.new.wire }
{
    if is_of_lane(side.lane(), number) {
        side.take(block)
    } else {
        Ok(())
    }
}
