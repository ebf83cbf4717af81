// Ends a block of lines whose workers have put all frames.
ghost use Rattle.std.specs.Prelude.{◌≡◌, ◌≤◌, ℕ, List, IfOk, OnErr};
ghost use Rattle.net_model.specs.World.{Network, World};
ghost use Rattle.run_ops.specs.Acting.{IsReady};
ghost use Rattle.run_ops.specs.declared.job.Job.{Job as JobValue};
ghost use Rattle.run_ops.specs.Together.{DoesTogether, EndsTogether};
ghost use Rattle.world_state.specs.Armed.{most_armed};
ghost use Rattle.world_state.specs.Rests.{Rests};
ghost use Rattle.world_state.specs.Stands.{Stands};
ghost use Rattle.world_state.specs.declared.state.State.{State as StateValue};
ghost use Rattle.world_state.specs.Tallied.{Tallied};
ghost use Rattle.par_frames.specs.NoteWorking.{CameFrom};
ghost use Rattle.world_state.specs.Outside.{outside};

use crate::Worked;
use crate::frames::note_frames;
use disk_model::Disk;
use qkd_base::Memory;
use run_ops::DoneBlock;
use source_devices::{Device, Entropy, Wire};
use std::alloc::Global;
use world_state::State;

/// Ends a block whose workers have put all frames that its plans want. Each node notes what became of the frames that it sent. The result
/// holds the managers' replies and the reports of the frames. On `Err` memory ran out and the run ends, although all jobs were done.
pub fn note_block<K: Disk + Drop, Q: Device + Drop, E: Entropy + Drop, X: Wire + Drop>(
    alloc: Global,
    state: &mut State<K, Q, E, X>,
    worked: Worked,
) -> Result<DoneBlock, Memory>
    requires came { (opening : StateValue K Q E X) × (net : Network) × (w : World) × (workers : ℕ) × (jobs : List JobValue)
        × CameFrom (outside K.Disk Q.Device E.Entropy X.Wire) opening state.old net w workers jobs worked }
    ensures site { state.new.site ≡ state.old.site }
    ensures armed { most_armed K.Disk state.new.posts.items ≡ most_armed K.Disk state.old.posts.items }
    ensures done { IfOk result (λ done. (opening : StateValue K Q E X) (net : Network) (w : World) (workers : ℕ) (jobs : List JobValue)
        → CameFrom (outside K.Disk Q.Device E.Entropy X.Wire) opening state.old net w workers jobs worked
        → DoesTogether (Stands (outside K.Disk Q.Device E.Entropy X.Wire)) (Tallied (outside K.Disk Q.Device E.Entropy X.Wire)) opening state.new net workers w jobs done) }
    ensures left { OnErr result ((opening : StateValue K Q E X) (net : Network) (w : World) (workers : ℕ) (jobs : List JobValue)
        → CameFrom (outside K.Disk Q.Device E.Entropy X.Wire) opening state.old net w workers jobs worked
        → EndsTogether (Rests (outside K.Disk Q.Device E.Entropy X.Wire)) (Tallied (outside K.Disk Q.Device E.Entropy X.Wire)) opening state.new net workers w jobs) }
{
    let Worked {
        turns,
        frames,
        is_whole,
    } = worked;
    if !is_whole {
        return Err(Memory);
    }
    let frames = note_frames(alloc, state, &frames)?;
    Ok(DoneBlock { turns, frames })
}
