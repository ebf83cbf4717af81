// Managers and lanes go to their desks, the machines that workers call, and leave them.
ghost use Rattle.std.specs.Prelude.{◌≡◌, ◌≤◌, ◌+◌, ◌++◌, ℕ, [], Some, length, map, slice_get, vec_len, vec_capacity};
ghost use Rattle.std.specs.Vec.{vec_ptr};
ghost use Rattle.net_model.specs.World.{Network, World};
ghost use Rattle.run_ops.specs.Acting.{IsReady};
ghost use Rattle.kme_shared.specs.Seats.{IsUsed, AreUsed, SitLanes, SitManagers, HaveSat, lefts, rights};
ghost use Rattle.kme_shared.specs.Sheets.{IsDealt};
ghost use Rattle.world_state.specs.Stands.{Stands};
ghost use Rattle.world_state.specs.Outside.{outside};

use crate::Stage;
use crate::node_sheets::Sheet;
use declared_site::Site;
use disk_model::Disk;
use lane_sender::LaneSide;
use lane_shares::{Share, Shares};
use par_lanes::LaneDesk;
use par_managers::PlanDesk;
use qkd_base::NodeNo;
use shared_objects::Either;
use source_devices::{Device, Entropy, Wire};
use std::snapshot::Snapshot;
use world_state::{Post, State};

/// A machine of a block.
pub type Seat<'a, K, Q, E, X> = Either<PlanDesk<'a, K, Q, E, X>, LaneDesk<'a, X>>;

// A lane's desk.
fn lane_desk<'a, X: Wire + Drop>(
    side: LaneSide<X>,
    shares: &'a Shares,
    used: Share,
) -> LaneDesk<'a, X>
    requires { IsUsed side shares.now used }
    ensures side { result.side ≡ side }
    ensures shares { result.shares.now ≡ shares.now }
{
    LaneDesk::new(side, shares, used)
}

// Adds the lanes' desks after the present machines, the last lane first.
fn seat_lanes<'a, K: Disk + Drop, Q: Device + Drop, E: Entropy + Drop, X: Wire + Drop>(
    shares: &'a [Shares],
    lanes: &mut Vec<LaneSide<X>>,
    used: &mut Vec<Share>,
    machines: &mut Vec<Seat<'a, K, Q, E, X>>,
)
    requires shares { length shares.now ≡ length lanes.old.items }
    requires count { vec_len used.old ≡ vec_len lanes.old }
    requires used { AreUsed lanes.old.items shares.now used.old.items }
    requires room { vec_len machines.old + vec_len lanes.old ≤ vec_capacity machines.old }
    ensures lanes { lanes.new.items ≡ [] }
    ensures block { (vec_ptr lanes.new ≡ vec_ptr lanes.old) × (vec_capacity lanes.new ≡ vec_capacity lanes.old) }
    ensures seated { SitLanes (λ d. d.side) (λ d. d.shares.now) shares.now lanes.old.items machines.old.items lanes.new.items machines.new.items }
    ensures capacity { vec_capacity machines.new ≡ vec_capacity machines.old }
    ensures long { vec_len machines.new ≡ vec_len machines.old + vec_len lanes.old }
{
    for _ in 0..lanes.len() {
        let side = lanes.take_last();
        let share = used.take_last();
        let one = &shares[lanes.len()];
        machines.push_reserved(Either::Right(lane_desk(side, one, share)));
    }
}

// Adds the managers' desks after the present machines, the last manager first.
fn seat_managers<'a, K: Disk + Drop, Q: Device + Drop, E: Entropy + Drop, X: Wire + Drop>(
    opening: &Snapshot<State<K, Q, E, X>>,
    site: &'a Site,
    up: u32,
    shares: &'a [Shares],
    posts: &mut Vec<Post<K, E>>,
    sheets: &mut Vec<Sheet<K, Q, E, X>>,
    machines: &mut Vec<Seat<'a, K, Q, E, X>>,
)
    requires sited { site.now ≡ opening.now.value.site }
    requires up { up ≡ opening.now.value.up }
    requires posts { posts.old.items ≡ opening.now.value.posts.items }
    requires ready { (net : Network) × (w : World) × IsReady (Stands (outside K.Disk Q.Device E.Entropy X.Wire)) opening.now.value net w }
    requires shares { length shares.now ≡ length opening.now.value.lanes.items }
    requires nodes { length posts.old.items ≤ 16 }
    requires count { vec_len sheets.old ≡ vec_len posts.old }
    requires dealt { (v : ℕ) (sheet : _) → slice_get sheets.old.items v ≡ Some sheet → IsDealt opening.now.value shares.now v sheet.issuers.items sheet.opening.value }
    requires room { vec_len machines.old + vec_len posts.old ≤ vec_capacity machines.old }
    ensures posts { posts.new.items ≡ [] }
    ensures block { (vec_ptr posts.new ≡ vec_ptr posts.old) × (vec_capacity posts.new ≡ vec_capacity posts.old) }
    ensures seated { SitManagers (λ d. d.opening.value) (λ d. d.node) (λ d. d.up) (λ d. d.post) (λ d. d.shares.now) opening.now.value shares.now posts.old.items machines.old.items posts.new.items machines.new.items }
{
    for _ in 0..posts.len() {
        let post = posts.take_last();
        let Sheet { issuers, opening } = sheets.take_last();
        let node = NodeNo::new(posts.len() as u8).unwrap();
        let desk = PlanDesk::new(site, node, up, post, shares, issuers, opening);
        machines.push_reserved(Either::Left(desk));
    }
}

/// Makes the desks of all managers and lanes: first those of the managers, in order of node, then those of the lanes, in order of place.
pub fn sit<'a, K: Disk + Drop, Q: Device + Drop, E: Entropy + Drop, X: Wire + Drop>(
    opening: &Snapshot<State<K, Q, E, X>>,
    posts: &mut Vec<Post<K, E>>,
    lanes: &mut Vec<LaneSide<X>>,
    stage: Stage<'a, K, Q, E, X>,
) -> Vec<Seat<'a, K, Q, E, X>>
    requires sited { stage.site.now ≡ opening.now.value.site }
    requires up { stage.up ≡ opening.now.value.up }
    requires posts { posts.old.items ≡ opening.now.value.posts.items }
    requires lanes { lanes.old.items ≡ opening.now.value.lanes.items }
    requires ready { (net : Network) × (w : World) × IsReady (Stands (outside K.Disk Q.Device E.Entropy X.Wire)) opening.now.value net w }
    requires shares { length stage.shares.now ≡ length lanes.old.items }
    requires nodes { length posts.old.items ≤ 16 }
    requires sheets { vec_len stage.sheets ≡ vec_len posts.old }
    requires dealt { (v : ℕ) (sheet : _) → slice_get stage.sheets.items v ≡ Some sheet → IsDealt opening.now.value stage.shares.now v sheet.issuers.items sheet.opening.value }
    requires count { vec_len stage.used ≡ vec_len lanes.old }
    requires used { AreUsed lanes.old.items stage.shares.now stage.used.items }
    requires none { stage.machines.items ≡ [] }
    requires room { vec_len posts.old + vec_len lanes.old ≤ vec_capacity stage.machines }
    ensures posts { posts.new.items ≡ [] }
    ensures posts_block { (vec_ptr posts.new ≡ vec_ptr posts.old) × (vec_capacity posts.new ≡ vec_capacity posts.old) }
    ensures lanes { lanes.new.items ≡ [] }
    ensures lanes_block { (vec_ptr lanes.new ≡ vec_ptr lanes.old) × (vec_capacity lanes.new ≡ vec_capacity lanes.old) }
    ensures seated { HaveSat (λ d. d.opening.value) (λ d. d.node) (λ d. d.up) (λ d. d.post) (λ d. d.shares.now) (λ d. d.side) (λ d. d.shares.now) opening.now.value stage.entry.shares.now result.items }
{
    let Stage {
        site,
        up,
        shares,
        mut sheets,
        mut used,
        mut machines,
    } = stage;
    seat_lanes(shares, lanes, &mut used, &mut machines);
    seat_managers(opening, site, up, shares, posts, &mut sheets, &mut machines);
    machines.reverse();
    machines
}

/// Takes all managers and lanes from their desks, and appends them to `posts` and `lanes`.
pub fn rise<'a, K: Disk + Drop, Q: Device + Drop, E: Entropy + Drop, X: Wire + Drop>(
    machines: Vec<Seat<'a, K, Q, E, X>>,
    posts: &mut Vec<Post<K, E>>,
    lanes: &mut Vec<LaneSide<X>>,
)
    requires posts { vec_len posts.old + length (lefts machines.items) ≤ vec_capacity posts.old }
    requires lanes { vec_len lanes.old + length (rights machines.items) ≤ vec_capacity lanes.old }
    ensures posts { posts.new.items ≡ posts.old.items ++ map (λ d. d.post) (lefts machines.entry.items) }
    ensures posts_block { (vec_ptr posts.new ≡ vec_ptr posts.old) × (vec_capacity posts.new ≡ vec_capacity posts.old) }
    ensures lanes { lanes.new.items ≡ lanes.old.items ++ map (λ d. d.side) (rights machines.entry.items) }
    ensures lanes_block { (vec_ptr lanes.new ≡ vec_ptr lanes.old) × (vec_capacity lanes.new ≡ vec_capacity lanes.old) }
{
    for machine in machines {
        match machine {
            Either::Left(desk) => {
                let (post, _) = desk.into_parts();
                posts.push_reserved(post);
            }
            Either::Right(desk) => lanes.push_reserved(desk.into_side()),
        }
    }
}
