// Granting the bytes that a plan's orders take.
ghost use Rattle.std.specs.Prelude.{◌≡◌, ◌-◌, ◌≤◌, ◌∷◌, [], ◌++◌, List, true};
ghost use Rattle.net_model.specs.declared.order.Order.{Order as OrderValue};
ghost use Rattle.lane_shares.specs.Names.{knows, lane_cap, Fits};
ghost use Rattle.lane_shares.specs.Views.{with_amount};
ghost use Rattle.par_lanes.specs.Grants.{IsShareOf};
ghost use Rattle.par_lanes.specs.Granting.{raised, MayGrant, HasGranted};

use crate::place::place_of;
use lane_shares::{Share, Shares};
use net_model::{Order, spelled_len};

// Splits `need` bytes off an issuer. The issuer first issues bytes up to the lease.
fn grant(shares: &Shares, issuer: &mut Share, lease: u64, need: u64) -> Share
    requires fits { Fits shares.now issuer.old }
    requires issues { (knows issuer.old).issues ≡ true }
    requires capped { lease ≤ lane_cap shares.now }
    requires reach { need ≤ (raised lease (knows issuer.old)).amount }
    ensures fits { Fits shares.now issuer.new }
    ensures issuer { knows issuer.new ≡ with_amount (raised lease (knows issuer.old)) ((raised lease (knows issuer.old)).amount - need) }
    ensures grant { IsShareOf shares.now need result }
{
    let issued = shares.look(issuer);
    if issued < lease {
        shares.issue(issuer, lease - issued);
    }
    shares.split(issuer, need)
}

// Grants the bytes that an order takes.
fn grant_order(
    shares: &[Shares],
    leases: &[u64],
    issuers: &mut [Share],
    granted: &mut [Share],
    order: &Order,
)
    requires may { (os : List OrderValue) × MayGrant shares.now leases.now issuers.old granted.old (order.now ∷ os) }
    ensures granted { HasGranted leases.now (order.now ∷ []) issuers.old granted.old issuers.new granted.new }
    ensures rest { (os : List OrderValue) → MayGrant shares.now leases.now issuers.old granted.old (order.now ∷ os) → MayGrant shares.now leases.now issuers.new granted.new os }
{
    let at = place_of(order.lane);
    let need = u64::from(spelled_len(&order.payload)) + 8;
    let part = grant(&shares[at], &mut issuers[at], leases[at], need);
    shares[at].join(&mut granted[at], part);
}

/// After a plan, grants a worker the bytes that the plan's orders take. On each lane, the issuer first issues bytes up to the
/// lease. Then the bytes are split off the issuer's share and added to the worker's grant. All lists have the lanes in order
/// of place. The entries of a lane that doesn't leave the node are not used.
pub fn grant_plan(
    shares: &[Shares],
    leases: &[u64],
    issuers: &mut [Share],
    granted: &mut [Share],
    orders: &[Order],
)
    requires may { (os : List OrderValue) × MayGrant shares.now leases.now issuers.old granted.old (orders.now ++ os) }
    ensures granted { HasGranted leases.now orders.now issuers.old granted.old issuers.new granted.new }
    ensures rest { (os : List OrderValue) → MayGrant shares.now leases.now issuers.old granted.old (orders.now ++ os) → MayGrant shares.now leases.now issuers.new granted.new os }
{
    for order in orders {
        grant_order(shares, leases, issuers, granted, order);
    }
}
