// What a manager's desk holds beside the manager.
ghost use Rattle.std.specs.Prelude.{◌≡◌, ℕ, Some, List, IfOk, length, slice_get};
ghost use Rattle.net_model.specs.World.{Network, World};
ghost use Rattle.run_ops.specs.Acting.{IsReady};
ghost use Rattle.lane_shares.specs.declared.share.Share.{Share as ShareValue};
ghost use Rattle.par_managers.specs.Opening.{AllOpened};
ghost use Rattle.world_state.specs.Stands.{Stands};
ghost use Rattle.kme_shared.specs.Sheets.{IsDealt};
ghost use Rattle.world_state.specs.Outside.{outside};

use crate::rows::node_row;
use disk_model::Disk;
use lane_shares::{Share, Shares};
use qkd_base::{Memory, NodeNo};
use source_devices::{Device, Entropy, Wire};
use std::alloc::Global;
use std::snapshot::Snapshot;
use world_state::State;

/// What a manager's desk holds beside the manager when a block begins.
#[derive(Drop)]
pub struct Sheet<K: Disk + Drop, Q: Device + Drop, E: Entropy + Drop, X: Wire + Drop> {
    /// A share of each lane, by its place. The share of a lane that leaves the node is the lane's issuer; any other share has no bytes.
    pub issuers: Vec<Share>,
    /// The run's state at the block's start.
    pub opening: Snapshot<State<K, Q, E, X>>,
}

/// A sheet for each manager, in order of node. The managers get the issuers that were opened for their lanes.
pub fn sheets<K: Disk + Drop, Q: Device + Drop, E: Entropy + Drop, X: Wire + Drop>(
    alloc: Global,
    state: &State<K, Q, E, X>,
    shares: &[Shares],
    issuers: &mut [Share],
) -> Result<Vec<Sheet<K, Q, E, X>>, Memory>
    requires ready { (net : Network) × (w : World) × IsReady (Stands (outside K.Disk Q.Device E.Entropy X.Wire)) state.now net w }
    requires opened { (used : List ShareValue) × AllOpened state.now state.now.lanes.items shares.now issuers.old used }
    ensures nodes { IfOk result (λ sheets. length sheets.items ≡ length state.now.posts.items) }
    ensures dealt { IfOk result (λ sheets. (v : ℕ) (sheet : _) → slice_get sheets.items v ≡ Some sheet → IsDealt state.now shares.now v sheet.issuers.items sheet.opening.value) }
{
    let mut sheets = Vec::with_capacity(alloc, state.posts.len())?;
    for number in 0..state.posts.len() {
        let node = NodeNo::new(number as u8).unwrap();
        let row = node_row(alloc, &state.site, node, &state.lanes, shares, issuers)?;
        let opening = Snapshot::of(state);
        sheets.push_reserved(Sheet {
            issuers: row,
            opening,
        });
    }
    Ok(sheets)
}
