// Proves that what the workers of a block of lines do at the desks of managers and lanes is a block of the network.
ghost use Rattle.std.specs.Prelude.{◌≡◌, ℕ, List};
ghost use Rattle.net_model.specs.World.{Network, World};
ghost use Rattle.world_state.specs.Passed.{Post};
ghost use Rattle.run_ops.specs.Acting.{IsReady};
ghost use Rattle.run_ops.specs.declared.job.Job.{Job as JobValue};
ghost use Rattle.lane_shares.specs.declared.shares.Shares.{Shares as SharesValue};
ghost use Rattle.lane_sender.specs.Lane.{LaneForm};
ghost use Rattle.world_state.specs.Stands.{Stands};
ghost use Rattle.world_state.specs.declared.state.State.{State};
ghost use Rattle.world_state.specs.Armed.{most_armed};
ghost use Rattle.par_frames.specs.declared.worked.Worked.{Worked};
ghost use Rattle.par_frames.specs.NoteWorking.{HasWorked};
ghost use Rattle.kme_shared.specs.Going.{WentThrough};
ghost use Rattle.world_state.specs.Outside.{outside};

use disk_model::Disk;
use source_devices::{Device, Entropy, Wire};

/// A block that went through, from a network that was ready, is a block of this network, done by its workers side by side. The managers
/// took the turns that the workers ask of them, and each lane did exactly what the plans want of it. The state stands for the world
/// afterwards. If memory sufficed, the replies are there, and the frames lane by lane. The largest count of armings of a disk is as before.
pub fn law_block_has_worked<K: Disk, Q: Device, E: Entropy, X: Wire, D, L>()
    ensures worked { (opening_of : D → State K Q E X) (node_of up_of : D → ℕ) (post_of : D → Post K E) (shares_in : D → List SharesValue) (side_of : L → LaneForm X) (shares_of : L → SharesValue)
        (old new : State K Q E X) (workers : ℕ) (jobs : List JobValue) (worked : Worked) →
        WentThrough (outside K.Disk Q.Device E.Entropy X.Wire) opening_of node_of up_of post_of shares_in side_of shares_of old new workers jobs worked →
        (net : Network) (w : World) → IsReady (Stands (outside K.Disk Q.Device E.Entropy X.Wire)) old net w →
        HasWorked (outside K.Disk Q.Device E.Entropy X.Wire) old new net w workers jobs worked }
    ensures armed { (opening_of : D → State K Q E X) (node_of up_of : D → ℕ) (post_of : D → Post K E) (shares_in : D → List SharesValue) (side_of : L → LaneForm X) (shares_of : L → SharesValue)
        (old new : State K Q E X) (workers : ℕ) (jobs : List JobValue) (worked : Worked) →
        WentThrough (outside K.Disk Q.Device E.Entropy X.Wire) opening_of node_of up_of post_of shares_in side_of shares_of old new workers jobs worked →
        (net : Network) (w : World) → IsReady (Stands (outside K.Disk Q.Device E.Entropy X.Wire)) old net w →
        most_armed K.Disk new.posts.items ≡ most_armed K.Disk old.posts.items }
{}
