// Lanes that go on where an earlier process left them.
ghost use Rattle.std.specs.Prelude.{◌≡◌, ◌≤◌, ◌*◌, ℕ, IfOk, OnOk, OnErr, length, slice_get, Some};
ghost use Rattle.std.specs.List.{All};
ghost use Rattle.declared_site.specs.SiteOf.{IsDeclared, site_of};
ghost use Rattle.lane_sender.specs.Lane.{LaneForm};
ghost use Rattle.net_world.specs.Laid.{IsWhole, without_bytes, HasRoomFor};
ghost use Rattle.net_world.specs.Kept.{going_on, MayGoOn, WentOn, IsLaidAgain};

use crate::{Bench, KeptLane, lay_out, put_back};
use declared_site::Site;
use disk_model::Disk;
use lane_sender::LaneSide;
use qkd_base::Memory;
use source_devices::{Device, Entropy, Wire};
use std::alloc::Global;
use world_state::State;

// A lane without bytes takes the blocks that are kept of it, and goes on at its leased end.
fn go_on<X: Wire + Drop>(side: &mut LaneSide<X>, kept: &KeptLane) -> Result<(), Memory>
    requires empty { side.old ≡ without_bytes side.old.lane side.old.wire }
    requires may { MayGoOn kept.now }
    ensures ok { OnOk result (side.new ≡ going_on side.old.lane (Some kept.now) side.old.wire) }
    ensures wire { side.new.wire ≡ side.old.wire }
{
    for place in 0..kept.blocks.len() {
        side.take(&kept.blocks[place])?;
    }
    side.restart(kept.lease);
    Ok(())
}

// The lanes go on with what is kept of each. After an `Err`, some of them do.
fn go_on_all<X: Wire + Drop>(lanes: &mut Vec<LaneSide<X>>, kept: &[KeptLane]) -> Result<(), Memory>
    requires empty { (place : ℕ) (side : LaneForm X) → slice_get lanes.old.items place ≡ Some side → side ≡ without_bytes side.lane side.wire }
    requires few { length kept.now ≤ length lanes.old.items }
    requires may { All MayGoOn kept.now }
    ensures ok { OnOk result ((place : ℕ) (side : LaneForm X) → slice_get lanes.new.items place ≡ Some side → WentOn kept.now lanes.old.items place side) }
    ensures sides { length lanes.new.items ≡ length lanes.old.items }
{
    for place in 0..kept.len() {
        let side = &mut lanes[place];
        go_on(side, &kept[place])?;
    }
    Ok(())
}

/// Takes the parts of a declared network out of a bench that an earlier process used, and lets each lane go on with what is kept of it. If
/// memory runs out, the bench has all its parts; that they keep their places isn't said.
pub fn lay_out_again<K: Disk + Drop, Q: Device + Drop, E: Entropy + Drop, X: Wire + Drop>(
    alloc: Global,
    bench: &mut Bench<K, Q, E, X>,
    site: Site,
    kept: &[KeptLane],
) -> Result<State<K, Q, E, X>, Memory>
    requires declared { IsDeclared site }
    requires whole { IsWhole bench.old }
    requires few { length kept.now ≤ 2 * (site_of site).links }
    requires may { All MayGoOn kept.now }
    ensures laid { IfOk result (λ state. IsLaidAgain bench.old bench.new site kept.now state) }
    ensures room { IfOk result (λ state. HasRoomFor bench.new state) }
    ensures err { OnErr result (IsWhole bench.new) }
{
    let mut state = lay_out(alloc, bench, site)?;
    match go_on_all(&mut state.lanes, kept) {
        Ok(()) => Ok(state),
        Err(_) => {
            put_back(state, bench);
            Err(Memory)
        }
    }
}
