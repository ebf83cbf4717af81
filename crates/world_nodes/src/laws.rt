// When a post of the program stands for a node's manager in the network.
ghost use Rattle.std.specs.Prelude.{◌≡◌, ◌≤◌, ℕ};
ghost use Rattle.net_model.specs.declared.event.Event.{Event as EventValue};
ghost use Rattle.net_model.specs.declared.reply.Reply.{Reply as ReplyValue};
ghost use Rattle.net_model.specs.World.{Network, World};
ghost use Rattle.law_locality.specs.Touched.{ManagerStays};
ghost use Rattle.kme_store.specs.declared.post.Post.{Post as PostValue};
ghost use Rattle.kme_store.specs.Manager.{ManagerForm, Acts, HasDisk};
ghost use Rattle.world_nodes.specs.LaneStands.{IsRunning};
ghost use Rattle.world_nodes.specs.Handled.{ViewGoesOn, BatchFits, Handled};
ghost use Rattle.world_nodes.specs.Stands.{PostStands};

use disk_model::Disk;
use kme_store::Post;
use source_devices::Entropy;

/// If a manager of the network stays as it was, the post stands for it as before.
pub fn law_post_goes_on<K: Disk, E: Entropy>()
    ensures { (net : Network) (w w' : World) (v : ℕ) (post : PostValue K E) → ManagerStays net v w w' →
        PostStands K.Disk E.Entropy net w v post → PostStands K.Disk E.Entropy net w' v post }
{}

/// The program's manager answers an event, and makes its changes durable first. Then the network handles the event, with some
/// answer of the environment, and the manager stands for the node afterwards too. Premises: the node's view changes by just
/// the effect that it decides, and the effect's batch fits. The manager's site stays, its disk is as honest and as armed as
/// before, and no count of faults falls.
pub fn law_answered_is_handled<K: Disk, E: Entropy>()
    ensures { (net : Network) (w : World) (v : ℕ) (event : EventValue) (old new : ManagerForm K E) (reply : ReplyValue) → IsRunning net w → ViewGoesOn net w v event → BatchFits net w v event →
        Acts K.Disk E.Entropy w.link_up event old old.standing new reply → new.site ≡ old.site →
        HasDisk (λ before. HasDisk (λ disk. (K.is_honest disk ≡ K.is_honest before) × (K.armings disk ≡ K.armings before)) new.standing) old.standing →
        HasDisk (λ before. HasDisk (λ disk. K.faults before ≤ K.faults disk) new.standing) old.standing → E.faults old.entropy ≤ E.faults new.entropy →
        PostStands K.Disk E.Entropy net w v (Post.On old) →
        Handled K.Disk E.Entropy net w v event (Post.On old) (Post.On new) reply }
{}
