// The desk of a node's manager.
ghost use Rattle.std.specs.Prelude.{◌≡◌, Some, length, slice_get, true};
ghost use Rattle.qkd_base.specs.Lane.{lane_place};
ghost use Rattle.qkd_base.specs.declared.lane.Lane.{Lane as LaneValue};
ghost use Rattle.net_model.specs.Site.{sender};
ghost use Rattle.net_model.specs.World.{Network, World};
ghost use Rattle.net_model.specs.Events.{is_lane};
ghost use Rattle.declared_site.specs.SiteOf.{site_of};
ghost use Rattle.lane_shares.specs.declared.shares.Shares.{Shares as SharesValue};
ghost use Rattle.lane_sender.specs.Lane.{LaneForm};
ghost use Rattle.par_lanes.specs.Emitting.{grant_at};
ghost use Rattle.run_ops.specs.Acting.{IsReady};
ghost use Rattle.par_managers.specs.Going.{IsOnItsWay};
ghost use Rattle.par_managers.specs.Issuing.{AreShares, HasIssuers};
ghost use Rattle.par_managers.specs.Opening.{IsOpened};
ghost use Rattle.world_state.specs.Stands.{Stands};
ghost use Rattle.world_state.specs.Outside.{outside};

use declared_site::Site;
use disk_model::Disk;
use lane_shares::{Share, Shares};
use qkd_base::NodeNo;
use source_devices::{Device, Entropy, Wire};
use std::snapshot::Snapshot;
use world_state::{Post, State};

/// A node's manager in a block. It takes turns one at a time, in any order. It holds the issuers of the lanes that leave its
/// node, and so grants the bytes of a plan's orders after the plan. Its post stands for its node in a world of the run; the
/// run's state at the block's start stood for an earlier one.
#[derive(Drop)]
pub struct PlanDesk<'a, K: Disk + Drop, Q: Device + Drop, E: Entropy + Drop, X: Wire + Drop> {
    /// The declared site.
    pub site: &'a Site,
    /// The node of the manager.
    pub node: NodeNo,
    /// Bit l says that link l is up.
    pub up: u32,
    /// The node's post.
    pub post: Post<K, E>,
    /// The count of each lane's issued bytes, in order of the lanes' places.
    pub shares: &'a [Shares],
    /// A share of each lane, in order of the lanes' places. For a lane that leaves the node, it is the lane's issuer.
    pub issuers: Vec<Share>,
    /// The run's state at the block's start.
    pub opening: Snapshot<State<K, Q, E, X>>,
    ghost sited: { site.now ≡ opening.value.site },
    ghost way: { ∥ IsOnItsWay (outside K.Disk Q.Device E.Entropy X.Wire) opening.value node post up ∥₁ },
    ghost lanes: { length shares.now ≡ length opening.value.lanes.items },
    ghost shared: { AreShares shares.now issuers.items },
    ghost issued: { HasIssuers (site_of opening.value.site) node post shares.now issuers.items },
}

impl<'a, K: Disk + Drop, Q: Device + Drop, E: Entropy + Drop, X: Wire + Drop> PlanDesk<
    'a,
    K,
    Q,
    E,
    X,
> {
    /// The desk of a node's manager at a block's start. It gets a share of each lane, in order of the lanes' places: for a
    /// lane that leaves the node, the issuer of its bytes.
    pub fn new(
        site: &'a Site,
        node: NodeNo,
        up: u32,
        post: Post<K, E>,
        shares: &'a [Shares],
        issuers: Vec<Share>,
        opening: Snapshot<State<K, Q, E, X>>,
    ) -> Self
        requires sited { site.now ≡ opening.value.site }
        requires up { up ≡ opening.value.up }
        requires post { slice_get opening.value.posts.items node ≡ Some post }
        requires ready { (net : Network) × (w : World) × IsReady (Stands (outside K.Disk Q.Device E.Entropy X.Wire)) opening.value net w }
        requires lanes { length shares.now ≡ length opening.value.lanes.items }
        requires shared { AreShares shares.now issuers.items }
        requires opened { (l : LaneValue) (side : LaneForm X) (d : SharesValue) → is_lane (site_of opening.value.site) l ≡ true → sender (site_of opening.value.site) l ≡ node
            → slice_get opening.value.lanes.items (lane_place l) ≡ Some side → slice_get shares.now (lane_place l) ≡ Some d → IsOpened post side d (grant_at (lane_place l) issuers.items) }
        ensures node { result.node ≡ node }
        ensures up { result.up ≡ up }
        ensures post { result.post ≡ post }
        ensures shares { result.shares.now ≡ shares.now }
        ensures opening { result.opening.value ≡ opening.value }
    {
        PlanDesk {
            site,
            node,
            up,
            post,
            shares,
            issuers,
            opening,
        }
    }

    /// The post and the shares.
    pub fn into_parts(self) -> (Post<K, E>, Vec<Share>)
        ensures post { result.0 ≡ self.entry.post }
        ensures issuers { result.1 ≡ self.entry.issuers }
    {
        let PlanDesk { post, issuers, .. } = self;
        (post, issuers)
    }
}
