// The desk of a lane.
ghost use Rattle.std.specs.Prelude.{◌≡◌, ◌≤◌, false, length};
ghost use Rattle.lane_shares.specs.Names.{knows, lane_cap, Fits};
ghost use Rattle.par_lanes.specs.Grants.{IsShareOf};

use lane_sender::LaneSide;
use lane_shares::{Share, Shares};
use source_devices::Wire;

/// A lane in a block, which any worker may call, one at a time. The desk holds the share of the issued bytes that are used.
/// So a claim with a grant of its own size takes only bytes that were issued.
#[derive(Drop)]
pub struct LaneDesk<'a, X: Wire> {
    /// The lane.
    pub side: LaneSide<X>,
    /// The count of the lane's issued bytes.
    pub shares: &'a Shares,
    /// The share of the used bytes.
    pub share: Share,
    ghost owned: { IsShareOf shares.now side.ledger.used share },
    ghost capped: { lane_cap shares.now ≤ length side.bytes },
}

impl<'a, X: Wire> LaneDesk<'a, X> {
    /// The desk of a lane, with the share of its used bytes. At most as many bytes may be issued as the lane has.
    pub fn new(side: LaneSide<X>, shares: &'a Shares, share: Share) -> Self
        requires owned { IsShareOf shares.now side.ledger.used share }
        requires capped { lane_cap shares.now ≤ length side.bytes }
        ensures side { result.side ≡ side }
        ensures shares { result.shares.now ≡ shares.now }
    {
        LaneDesk {
            side,
            shares,
            share,
        }
    }

    /// The lane of the desk. The share is dropped.
    pub fn into_side(self) -> LaneSide<X>
        ensures { result ≡ self.entry.side }
    {
        let LaneDesk {
            side,
            shares: _,
            share: _,
        } = self;
        side
    }
}
