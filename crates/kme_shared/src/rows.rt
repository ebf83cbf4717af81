// Rows of shares: one share of each lane, by the lane's place.
ghost use Rattle.std.specs.Prelude.{◌≡◌, ◌==◌, ◌≤◌, IfOk, length, map, vec_len, vec_capacity};
ghost use Rattle.std.specs.List.{AllZip};
ghost use Rattle.declared_site.specs.SiteOf.{site_of};
ghost use Rattle.net_model.specs.Site.{sender};
ghost use Rattle.lane_shares.specs.Names.{knows, Fits};
ghost use Rattle.par_lanes.specs.Grants.{IsShareOf};
ghost use Rattle.kme_shared.specs.Rows.{mix, IsRowOf, AreAsElsewhere};

use declared_site::Site;
use kme_base::sender;
use lane_sender::LaneSide;
use lane_shares::{Share, Shares};
use qkd_base::{Lane, Memory, NodeNo};
use source_devices::Wire;
use std::alloc::Global;
use std::mem;

// A share with no bytes.
fn bare(shares: &Shares, issuer: &mut Share) -> Share
    requires { Fits shares.now issuer.old }
    ensures fits { Fits shares.now issuer.new }
    ensures same { knows issuer.new ≡ knows issuer.old }
    ensures bare { IsShareOf shares.now 0 result }
{
    shares.split(issuer, 0)
}

/// A share with no bytes for each lane, split off the lane's issuer. The issuer keeps its bytes.
pub fn bare_row(
    alloc: Global,
    shares: &[Shares],
    issuers: &mut [Share],
) -> Result<Vec<Share>, Memory>
    requires { AllZip Fits shares.now issuers.old }
    ensures fits { AllZip Fits shares.now issuers.new }
    ensures same { map knows issuers.new ≡ map knows issuers.old }
    ensures bare { IfOk result (λ row. AllZip (λ d s. IsShareOf d 0 s) shares.now row.items) }
{
    let mut row = Vec::with_capacity(alloc, shares.len())?;
    for (place, one) in shares.iter().enumerate() {
        row.push_reserved(bare(one, &mut issuers[place]));
    }
    Ok(row)
}

// Whether a lane leaves a node.
fn leaves(site: &Site, node: NodeNo, lane: Lane) -> bool
    ensures { result ≡ (sender (site_of site.now) lane == node) }
{
    sender(site, lane) == node
}

// Swaps the issuers of the lanes that leave a node with the shares in the same places of a row.
fn take_issuers<X: Wire>(
    site: &Site,
    node: NodeNo,
    lanes: &[LaneSide<X>],
    issuers: &mut [Share],
    row: &mut [Share],
)
    requires issuers { length issuers.old ≡ length lanes.now }
    requires row { length row.old ≡ length lanes.now }
    ensures issuers { issuers.new ≡ mix (map (λ side. sender (site_of site.now) side.lane == node) lanes.now) issuers.old row.old }
    ensures row { row.new ≡ mix (map (λ side. sender (site_of site.now) side.lane == node) lanes.now) row.old issuers.old }
{
    for (place, side) in lanes.iter().enumerate() {
        if leaves(site, node, side.lane()) {
            mem::swap(&mut row[place], &mut issuers[place]);
        }
    }
}

/// A share of each lane, for a node's manager. For a lane that leaves the node it is the issuer, and a share with no bytes takes the
/// issuer's place.
pub fn node_row<X: Wire>(
    alloc: Global,
    site: &Site,
    node: NodeNo,
    lanes: &[LaneSide<X>],
    shares: &[Shares],
    issuers: &mut [Share],
) -> Result<Vec<Share>, Memory>
    requires sides { length shares.now ≡ length lanes.now }
    requires fits { AllZip Fits shares.now issuers.old }
    ensures fits { AllZip Fits shares.now issuers.new }
    ensures others { AreAsElsewhere (site_of site.now) node lanes.now issuers.old issuers.new }
    ensures row { IfOk result (λ row. IsRowOf (site_of site.now) node lanes.now shares.now issuers.old row.items) }
{
    let mut row = bare_row(alloc, shares, issuers)?;
    take_issuers(site, node, lanes, issuers, row.as_mut_slice());
    Ok(row)
}
