// Laws of a block whose workers claim bytes, seal frames and put them: the state in which its lanes leave a network.
ghost use Rattle.std.specs.Prelude.{◌≡◌, ◌*◌, ℕ, List, length, map};
ghost use Rattle.std.specs.List.{flat_map};
ghost use Rattle.net_model.specs.World.{Network, World};
ghost use Rattle.net_model.specs.BlockOrder.{completions};
ghost use Rattle.net_model.specs.Step.{run};
ghost use Rattle.run_model.specs.Block.{puts_on};
ghost use Rattle.run_model.specs.Lines.{all_lanes};
ghost use Rattle.run_model.specs.Works.{Work, actions_in, flat, done_from, block_run};
ghost use Rattle.run_ops.specs.declared.job.Job.{Job as JobValue};
ghost use Rattle.run_ops.specs.declared.done_block.DoneBlock.{DoneBlock};
ghost use Rattle.run_ops.specs.Together.{turned, turn_done, frame_put, put_done, DoesTogether, EndsTogether};
ghost use Rattle.par_lanes.specs.declared.emitted.Emitted.{Emitted};
ghost use Rattle.world_state.specs.Rests.{Rests};
ghost use Rattle.world_state.specs.Stands.{Stands};
ghost use Rattle.world_state.specs.Tallied.{Tallied};
ghost use Rattle.world_state.specs.declared.state.State.{State};
ghost use Rattle.law_parallel.specs.LaneWorks.{works_of, world_after};
ghost use Rattle.law_parallel.specs.InOrder.{turns_over};
ghost use Rattle.par_frames.specs.Blocks.{LanesWorked, LanesLeft};
ghost use Rattle.par_frames.specs.Leaving.{reported_as};
ghost use Rattle.par_frames.specs.Telling.{on_lane, AreTold};
ghost use Rattle.par_frames.specs.States.{HasLanes};
ghost use Rattle.par_frames.specs.Ends.{WentOn};
ghost use Rattle.world_state.specs.Outside.{outside};

use disk_model::Disk;
use source_devices::{Device, Entropy, Wire};

/// A state stood for the world after the managers' turns. The same state, with each lane as its history left it, stands for
/// the world that the block's logs leave.
pub fn law_lanes_stand<K: Disk, Q: Device, E: Entropy, X: Wire>()
    ensures { (net : Network) (workers : ℕ) (w : World) (jobs : List JobValue) (histories : List (List Work)) (lanes : LanesWorked X.Wire net workers w histories)
        (left : LanesLeft X.Wire net workers w jobs histories lanes) (old new : State K Q E X) → HasLanes X.Wire net workers w histories lanes old new →
        Stands (outside K.Disk Q.Device E.Entropy X.Wire) old net (turns_over net w histories) →
        Stands (outside K.Disk Q.Device E.Entropy X.Wire) new net (world_after net (turns_over net w histories) left.logs) }
{}

/// Suppose that the workers' records tell the frames of a block, and that each manager has noted what became of its frames.
/// Then the block was done together: with these replies, this report of the frames, and these counts of faults.
pub fn law_block_is_done<K: Disk, Q: Device, E: Entropy, X: Wire>()
    ensures { (net : Network) (workers : ℕ) (w : World) (jobs : List JobValue) (histories : List (List Work)) (lanes : LanesWorked X.Wire net workers w histories)
        (left : LanesLeft X.Wire net workers w jobs histories lanes) (first last : State K Q E X) →
        WentOn (outside K.Disk Q.Device E.Entropy X.Wire) net workers w histories lanes first last → (sorted : List Emitted) (done : DoneBlock) →
        AreTold net w histories left.logs sorted →
        Stands (outside K.Disk Q.Device E.Entropy X.Wire) last net (run net (world_after net (turns_over net w histories) left.logs) (completions net)) →
        map turned done.turns.items ≡ map turn_done (done_from net w (flat histories)) →
        map frame_put done.frames.items ≡ map put_done (flat_map (λ l. puts_on (map reported_as (on_lane l sorted)) l) (all_lanes net.site)) →
        DoesTogether (Stands (outside K.Disk Q.Device E.Entropy X.Wire)) (Tallied (outside K.Disk Q.Device E.Entropy X.Wire)) first last net workers w jobs done }
{}

/// If the state after the managers' notes rests in its world, the block may end there.
pub fn law_block_ends<K: Disk, Q: Device, E: Entropy, X: Wire>()
    ensures { (net : Network) (workers : ℕ) (w : World) (jobs : List JobValue) (histories : List (List Work)) (lanes : LanesWorked X.Wire net workers w histories)
        (left : LanesLeft X.Wire net workers w jobs histories lanes) (first last : State K Q E X) →
        WentOn (outside K.Disk Q.Device E.Entropy X.Wire) net workers w histories lanes first last →
        Rests (outside K.Disk Q.Device E.Entropy X.Wire) last net (run net (world_after net (turns_over net w histories) left.logs) (completions net)) →
        EndsTogether (Rests (outside K.Disk Q.Device E.Entropy X.Wire)) (Tallied (outside K.Disk Q.Device E.Entropy X.Wire)) first last net workers w jobs }
{}

/// The faults in the turns, on the lanes and in the managers' notes are counted as those of the whole block.
pub fn law_blocks_are_tallied<K: Disk, Q: Device, E: Entropy, X: Wire>()
    ensures { (net : Network) (workers : ℕ) (w : World) (jobs : List JobValue) (histories : List (List Work)) (lanes : LanesWorked X.Wire net workers w histories)
        (left : LanesLeft X.Wire net workers w jobs histories lanes) (first old new last : State K Q E X) → HasLanes X.Wire net workers w histories lanes old new →
        Tallied (outside K.Disk Q.Device E.Entropy X.Wire) first old net.site (actions_in (flat histories)) → old.lanes.items ≡ first.lanes.items → length first.lanes.items ≡ 2 * net.site.links →
        Tallied (outside K.Disk Q.Device E.Entropy X.Wire) new last net.site (completions net) →
        Tallied (outside K.Disk Q.Device E.Entropy X.Wire) first last net.site (block_run net (works_of net w histories left.logs)) }
{}
