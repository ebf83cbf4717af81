// What an action of the network does to a state.
ghost use Rattle.std.specs.Prelude.{◌≡◌, ◌++◌, ℕ, true, false, List, [], slice_get, Some};
ghost use Rattle.qkd_base.specs.declared.lane.Lane.{Lane as LaneValue};
ghost use Rattle.net_model.specs.World.{Network, World};
ghost use Rattle.net_model.specs.Events.{is_lane};
ghost use Rattle.net_model.specs.Action.{Action};
ghost use Rattle.net_model.specs.Step.{step, is_enabled, IsStep};
ghost use Rattle.lane_sender.specs.Lane.{LaneForm};
ghost use Rattle.world_nodes.specs.LaneStands.{IsRunning, LaneStands};
ghost use Rattle.run_ops.specs.Quiet.{IsQuiet};
ghost use Rattle.world_state.specs.Changed.{changes_lane, sends};
ghost use Rattle.net_model.specs.Site.{Site as SiteValue};
ghost use Rattle.world_nodes.specs.Passed.{Post as PostValue};
ghost use Rattle.world_state.specs.Stands.{Stands};
ghost use Rattle.world_nodes.specs.Counts.{disk_of};
ghost use Rattle.world_state.specs.Tallied.{Tallied};
ghost use Rattle.world_state.specs.Moving.{Moves};
ghost use Rattle.world_state.specs.declared.state.State.{State as StateValue};
ghost use Rattle.world_state.specs.Outside.{outside};

use disk_model::Disk;
use source_devices::{Device, Entropy, Wire};

/// If an action keeps a lane's blocks, owners and wire, the program's lane stands for it as before.
pub fn law_lane_goes_on<X: Wire>()
    ensures { (net : Network) (w : World) (l : LaneValue) (a : Action) (side : LaneForm X) → IsRunning net w → is_lane net.site l ≡ true → is_enabled net w a ≡ true →
        changes_lane net.site a l ≡ false → LaneStands X.Wire net w l side → LaneStands X.Wire net (step net w a).0 l side }
{}

/// An action that doesn't send leaves the network quiet.
pub fn law_quiet_stays()
    ensures { (net : Network) (w : World) (a : Action) → IsRunning net w → is_enabled net w a ≡ true → sends a ≡ false → IsQuiet w → IsQuiet (step net w a).0 }
{}

/// If an action does to a state what it does to the network, the state stands for the world after it.
pub fn law_state_goes_on<K: Disk, Q: Device, E: Entropy, X: Wire>()
    ensures { (net : Network) (w : World) (a : Action) (old new : StateValue K Q E X) → IsStep net w a →
        Stands (outside K.Disk Q.Device E.Entropy X.Wire) old net w →
        Moves (outside K.Disk Q.Device E.Entropy X.Wire) old new net w a →
        Stands (outside K.Disk Q.Device E.Entropy X.Wire) new net (step net w a).0 }
{}

/// The counts of no action are zero, and the counts of two lists of actions add up to those of both in order. Premise: each
/// post has a disk.
pub fn law_tallies_add<K: Disk, Q: Device, E: Entropy, X: Wire>()
    ensures none { (s : StateValue K Q E X) (sited : SiteValue) → ((v : ℕ) (p : PostValue K E) → slice_get s.posts.items v ≡ Some p → (k : K) × (disk_of p ≡ Some k)) →
        Tallied (outside K.Disk Q.Device E.Entropy X.Wire) s s sited [] }
    ensures more { (a b c : StateValue K Q E X) (sited : SiteValue) (xs ys : List Action) → Tallied (outside K.Disk Q.Device E.Entropy X.Wire) a b sited xs →
        Tallied (outside K.Disk Q.Device E.Entropy X.Wire) b c sited ys → Tallied (outside K.Disk Q.Device E.Entropy X.Wire) a c sited (xs ++ ys) }
{}
