// Reading a lane's ledger and the frames on its wire.
ghost use Rattle.std.specs.Prelude.{◌≡◌, ◌≤◌, length, drop, slice_get, None, MatchOption};
ghost use Rattle.net_model.specs.World.{Network, World};
ghost use Rattle.net_model.specs.Ledger.{ledger};
ghost use Rattle.world_nodes.specs.LaneStands.{IsRunning, LaneStands};
ghost use Rattle.world_nodes.specs.Seeing.{IsSeen};

use lane_sender::LaneSide;
use net_model::Counts4;
use qkd_base::FrameOctets;
use source_devices::Wire;

/// Counts the lane's bytes by what became of them: the lane's line of the ledger.
pub fn counts<X: Wire>(side: &LaneSide<X>) -> Counts4
    ensures { (net : Network) (w : World) → IsRunning net w → LaneStands X.Wire net w side.now.lane side.now → result ≡ ledger w side.now.lane }
{
    side.counts()
}

/// Copies the frame with this number on the wire into `into`, and returns its length. Returns `None` exactly if the wire has
/// no such frame.
pub fn frame<X: Wire>(side: &LaneSide<X>, number: u64, into: &mut FrameOctets) -> Option<usize>
    ensures frame { (net : Network) (w : World) → IsRunning net w → LaneStands X.Wire net w side.now.lane side.now →
        MatchOption result ((slice_get (w.wire side.now.lane) number ≡ None) × (into.new ≡ into.old))
        (λ n. (n ≤ 600) × IsSeen (X.frames side.now.wire) net w side.now.lane number n into.new.octets × (drop n into.new.octets ≡ drop n into.old.octets)) }
{
    side.wire().frame(number, into)
}
