// A block of lines is done over a run's state.
ghost use Rattle.run_ops.specs.Doing.{MayTogether, DidTogether};
ghost use Rattle.world_state.specs.Armed.{most_armed};
ghost use Rattle.world_state.specs.Rests.{Rests};
ghost use Rattle.world_state.specs.Stands.{Stands};
ghost use Rattle.world_state.specs.Tallied.{Tallied};
ghost use Rattle.world_state.specs.Outside.{outside};

use crate::work_block;
use disk_model::Disk;
use edge_io::Gate;
use par_frames::note_block;
use qkd_base::Memory;
use run_ops::{DoneBlock, Job};
use source_devices::{Device, Entropy, Wire};
use std::alloc::Global;
use std::sync::Wait;
use std::thread::Threads;
use world_state::State;

/// The workers do the jobs of a block, all at the same time if threads can be had. Each worker asks the managers for the turns of its own
/// jobs, and puts out the frames of each plan before its next job. When all are done each node notes what became of its own frames. The
/// result holds the replies and the reports of the frames. `Err` says that memory ran out and the run ends: either no manager was asked, or
/// all jobs were done.
pub fn run_block<
    R: Threads + Wait + Sync,
    G: Gate,
    K: Disk + Drop + Send,
    Q: Device + Drop + Send,
    E: Entropy + Drop + Send,
    X: Wire + Drop + Send,
>(
    rt: &R,
    alloc: Global,
    gate: &G,
    state: &mut State<K, Q, E, X>,
    workers: u32,
    jobs: &[Job],
) -> Result<DoneBlock, Memory>
    requires may { MayTogether (λ s. s.site) (Stands (outside K.Disk Q.Device E.Entropy X.Wire)) state.old workers jobs.now }
    ensures did { DidTogether (λ s. s.site) (Stands (outside K.Disk Q.Device E.Entropy X.Wire))
        (Rests (outside K.Disk Q.Device E.Entropy X.Wire)) (Tallied (outside K.Disk Q.Device E.Entropy X.Wire))
        (λ s. most_armed K.Disk s.posts.items) state.old state.new workers jobs.now result }
{
    let worked = work_block(rt, alloc, gate, state, workers, jobs)?;
    note_block(alloc, state, worked)
}
