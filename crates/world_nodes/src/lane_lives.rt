// A lane at the beginning of a run, and after a new start of its sender.
ghost use Rattle.std.specs.Prelude.{◌≡◌, is_some, true, Bool};
ghost use Rattle.net_model.specs.World.{Network, World, first};
ghost use Rattle.net_model.specs.Site.{sender};
ghost use Rattle.net_model.specs.Start.{resolved, restarted};
ghost use Rattle.world_nodes.specs.LaneStands.{LaneStands};
ghost use Rattle.world_nodes.specs.Going.{MayRestart};

use lane_sender::LaneSide;
use qkd_base::Lane;
use source_devices::Wire;
use std::alloc::Global;

/// A lane before its sender's first start. Its wire has no frames yet, and tells which frames it has.
pub fn begin<X: Wire>(alloc: Global, lane: Lane, wire: X) -> LaneSide<X>
    requires empty { X.counted wire ≡ 0 }
    requires tells { is_some (X.frames wire) ≡ true }
    ensures { (net : Network) → LaneStands X.Wire net first lane result }
{
    LaneSide::new(alloc, lane, wire)
}

/// The lane's sender starts again at the lease: bytes below the lease that have no owner are burnt.
pub fn restart<X: Wire>(side: &mut LaneSide<X>, lease: u64)
    requires asked { (net : Network) × (w : World) × (committed : Bool) × MayRestart X.Wire net w committed side.old lease }
    ensures restarted { (net : Network) (w : World) (committed : Bool) → MayRestart X.Wire net w committed side.old lease
        → LaneStands X.Wire net (restarted net (resolved net.site w (sender net.site side.old.lane) committed) (sender net.site side.old.lane)) side.old.lane side.new }
{
    side.restart(lease);
}
