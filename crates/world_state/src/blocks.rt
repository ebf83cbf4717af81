// A node takes the blocks of its links.
ghost use Rattle.std.specs.Prelude.{◌≡◌, ℕ, [], IfOk, OnErr, MatchOption, true};
ghost use Rattle.declared_site.specs.SiteOf.{site_of};
ghost use Rattle.net_model.specs.declared.reply.Reply.TheVariants.{Took};
ghost use Rattle.net_model.specs.Site.{outgoing_lane};
ghost use Rattle.net_model.specs.World.{Network, World};
ghost use Rattle.net_model.specs.Action.{TakeBlock, Replies, Ok as Fine};
ghost use Rattle.run_model.specs.Script.{asks};
ghost use Rattle.run_ops.specs.Reported.{taken};
ghost use Rattle.run_ops.specs.Fitting.{is_fit};
ghost use Rattle.run_ops.specs.Acting.{IsReady, Does, Begins};
ghost use Rattle.world_state.specs.Armed.{most_armed};
ghost use Rattle.world_state.specs.Blocks.{IsBlockTaken};
ghost use Rattle.world_state.specs.Rests.{Rests};
ghost use Rattle.world_state.specs.Stands.{Stands};
ghost use Rattle.world_state.specs.Tallied.{Tallied};
ghost use Rattle.world_state.specs.Outside.{outside};

use crate::State;
use crate::state_reads::lane_place;
use declared_site::Site;
use disk_model::Disk;
use kme_base::sender;
use net_model::Reply;
use qkd_base::{Lane, LinkNo, Memory, NodeNo, Way};
use run_ops::BlockTake;
use source_devices::{Device, Entropy, Wire};

// The link's lane that leaves the node.
fn outgoing(site: &Site, node: NodeNo, link: LinkNo) -> Lane
    ensures { result ≡ outgoing_lane (site_of site.now) node link }
{
    let low = sender(site, Lane { link, way: Way::Up });
    let way = if low == node { Way::Up } else { Way::Down };
    Lane { link, way }
}

// The number of the block that was taken, if one was.
fn number(take: &BlockTake) -> Option<u32>
    ensures { MatchOption result ((n : ℕ) → taken take.now ≡ Replies (Took n) → ⊥) (λ n. taken take.now ≡ Replies (Took n)) }
{
    match take {
        BlockTake::Replied(Reply::Took { number }) => Some(*number),
        _ => None,
    }
}

// The node's manager takes the block. The block is in the buffer afterwards, for the lane that takes it next.
fn hand<K: Disk + Drop, Q: Device + Drop, E: Entropy + Drop, X: Wire + Drop>(
    state: &mut State<K, Q, E, X>,
    node: NodeNo,
    link: LinkNo,
    into: &mut [u8; 1024],
) -> BlockTake
    requires fit { is_fit (site_of state.old.site) (TakeBlock node link Fine) ≡ true }
    requires ready { (net : Network) × (w : World) × IsReady (Stands (outside K.Disk Q.Device E.Entropy X.Wire)) state.old net w }
    ensures armed { most_armed K.Disk state.new.posts.items ≡ most_armed K.Disk state.old.posts.items }
    ensures taken { (net : Network) (w : World) → IsReady (Stands (outside K.Disk Q.Device E.Entropy X.Wire)) state.old net w
        → IsBlockTaken (outside K.Disk Q.Device E.Entropy X.Wire) state.old state.new net w node link into.new (taken result) }
{
    let up = state.up;
    let alloc = *state.posts.allocator();
    let post = &mut state.posts[usize::from(node.get())];
    let device = &mut state.devices[usize::from(link.get())];
    world_nodes::take_block(alloc, post, device, link, up, into)
}

/// A node takes the next block of a link. The link's lane that leaves the node takes it too, if the block's number belongs to
/// the lane's way. If memory runs out there, the run ends.
pub fn take_block<K: Disk + Drop, Q: Device + Drop, E: Entropy + Drop, X: Wire + Drop>(
    state: &mut State<K, Q, E, X>,
    node: NodeNo,
    link: LinkNo,
) -> Result<BlockTake, Memory>
    requires fit { is_fit (site_of state.old.site) (TakeBlock node link Fine) ≡ true }
    requires ready { (net : Network) × (w : World) × IsReady (Stands (outside K.Disk Q.Device E.Entropy X.Wire)) state.old net w }
    ensures site { state.new.site ≡ state.old.site }
    ensures armed { most_armed K.Disk state.new.posts.items ≡ most_armed K.Disk state.old.posts.items }
    ensures done { IfOk result (λ take. (net : Network) (w : World) → IsReady (Stands (outside K.Disk Q.Device E.Entropy X.Wire)) state.old net w
        → Does (Stands (outside K.Disk Q.Device E.Entropy X.Wire)) (Tallied (outside K.Disk Q.Device E.Entropy X.Wire)) state.old state.new net w (TakeBlock node link Fine) (taken take)) }
    ensures left { OnErr result ((net : Network) (w : World) → IsReady (Stands (outside K.Disk Q.Device E.Entropy X.Wire)) state.old net w
        → Begins (Rests (outside K.Disk Q.Device E.Entropy X.Wire)) (Tallied (outside K.Disk Q.Device E.Entropy X.Wire)) state.old state.new net w (asks (TakeBlock node link Fine) (λ outcome. []))) }
{
    let mut block = [0u8; 1024];
    let take = hand(state, node, link, &mut block);
    match number(&take) {
        None => Ok(take),
        Some(number) => {
            let lane = outgoing(&state.site, node, link);
            match world_nodes::take(&mut state.lanes[lane_place(lane)], number, &block) {
                Err(_) => Err(Memory),
                Ok(()) => Ok(take),
            }
        }
    }
}
