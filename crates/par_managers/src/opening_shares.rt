// The shares of the lanes at the beginning of a block.
ghost use Rattle.std.specs.Prelude.{◌≡◌, ◌≤◌, IfOk};
ghost use Rattle.net_model.specs.World.{Network, World};
ghost use Rattle.run_ops.specs.Acting.{IsReady};
ghost use Rattle.world_state.specs.Stands.{Stands};
ghost use Rattle.par_managers.specs.Opening.{issued_by, AreOpened, AllOpened};
ghost use Rattle.world_state.specs.Outside.{outside};

use disk_model::Disk;
use kme_base::sender;
use lane_sender::LaneSide;
use lane_shares::{Share, Shares};
use qkd_base::Memory;
use source_devices::{Device, Entropy, Wire};
use std::alloc::Global;
use world_state::{Post, State};

/// The shares of lanes at the beginning of a block, in order of the lanes' places.
#[derive(Drop)]
pub struct Opened {
    /// The count of each lane's issued bytes.
    pub shares: Vec<Shares>,
    /// The issuers, which have the bytes that are issued and not used.
    pub issuers: Vec<Share>,
    /// Shares of the used bytes.
    pub used: Vec<Share>,
}

// The shares of one lane.
#[derive(Drop)]
struct Lane {
    shares: Shares,
    issuer: Share,
    used: Share,
}

// The number of a lane's used bytes.
fn used_of<X: Wire>(side: &LaneSide<X>) -> u64
    requires { side.now.ledger.used ≤ side.now.ledger.received }
    ensures { result ≡ side.now.ledger.used }
{
    let counts = side.counts();
    counts.received - counts.unused
}

// The number of a lane's issued bytes.
fn issued<K: Disk + Drop, E: Entropy + Drop, X: Wire>(post: &Post<K, E>, side: &LaneSide<X>) -> u64
    requires { side.now.ledger.used ≤ side.now.ledger.received }
    ensures { result ≡ issued_by post.now side.now }
{
    match post {
        Post::On(manager) => {
            if manager.is_up() {
                manager.lease(side.lane())
            } else {
                used_of(side)
            }
        }
        Post::Off(_, _) => used_of(side),
    }
}

// Makes the shares of a lane with this many issued bytes.
fn open<X: Wire>(alloc: Global, issued: u64, side: &LaneSide<X>) -> Result<Lane, Memory>
    requires used { side.now.ledger.used ≤ issued }
    requires issued { issued ≤ side.now.ledger.received }
    ensures { IfOk result (λ l. AreOpened issued side.now l.shares l.issuer l.used) }
{
    let (shares, mut issuer) = Shares::open(alloc, issued, side.counts().received)?;
    let used = shares.split(&mut issuer, used_of(side));
    Ok(Lane {
        shares,
        issuer,
        used,
    })
}

// Makes the shares of lanes, in order.
fn open_each<K: Disk + Drop, Q: Device + Drop, E: Entropy + Drop, X: Wire + Drop>(
    alloc: Global,
    state: &State<K, Q, E, X>,
    sides: &[LaneSide<X>],
) -> Result<Opened, Memory>
    requires all { sides.now ≡ state.now.lanes.items }
    requires ready { (net : Network) × (w : World) × IsReady (Stands (outside K.Disk Q.Device E.Entropy X.Wire)) state.now net w }
    ensures { IfOk result (λ o. AllOpened state.now sides.now o.shares.items o.issuers.items o.used.items) }
{
    let mut shares = Vec::new(alloc);
    let mut issuers = Vec::new(alloc);
    let mut used = Vec::new(alloc);
    for side in sides {
        let node = sender(&state.site, side.lane());
        let issued = issued(&state.posts[usize::from(node.get())], side);
        let lane = open(alloc, issued, side)?;
        shares.push(lane.shares)?;
        issuers.push(lane.issuer)?;
        used.push(lane.used)?;
    }
    Ok(Opened {
        shares,
        issuers,
        used,
    })
}

/// Makes the shares of all lanes. This takes memory for as many shares as there are lanes.
pub fn open_lanes<K: Disk + Drop, Q: Device + Drop, E: Entropy + Drop, X: Wire + Drop>(
    alloc: Global,
    state: &State<K, Q, E, X>,
) -> Result<Opened, Memory>
    requires ready { (net : Network) × (w : World) × IsReady (Stands (outside K.Disk Q.Device E.Entropy X.Wire)) state.now net w }
    ensures { IfOk result (λ o. AllOpened state.now state.now.lanes.items o.shares.items o.issuers.items o.used.items) }
{
    open_each(alloc, state, &state.lanes)
}
