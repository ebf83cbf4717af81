// A block of lines over the state of a run.
ghost use Rattle.std.specs.Prelude.{◌≡◌, ◌⊎◌};
ghost use Rattle.run_ops.specs.Doing.{MayTogether, DidTogether};
ghost use Rattle.world_state.specs.Armed.{most_armed};
ghost use Rattle.world_state.specs.Rests.{Rests};
ghost use Rattle.world_state.specs.Stands.{Stands};
ghost use Rattle.world_state.specs.Tallied.{Tallied};
ghost use Rattle.world_state.specs.Outside.{outside};

use crate::Running;
use disk_model::Disk;
use edge_io::Gate;
use qkd_base::Memory;
use run_ops::{DoneBlock, Job};
use source_devices::{Device, Entropy, Wire};
use std::sync::Wait;
use std::thread::Threads;

// A block of fewer jobs is done sooner by one worker than others are started.
const FEW: usize = 16;

// How many of the workers do so many jobs.
fn crew(workers: u32, jobs: usize) -> u32
    ensures { (result ≡ workers) ⊎ (result ≡ 1) }
{
    if jobs < FEW { 1 } else { workers }
}

/// The workers do the jobs of a block, all at the same time if threads can be had. Of `n` workers, worker `k` does the jobs whose place
/// modulo `n` is `k`, in order; fewer than 16 jobs are done by one. A worker puts out the frames of each plan before its next job, and in
/// the end each node notes what became of its frames. `Err` says that memory ran out and the run ends.
pub fn together<
    R: Threads + Wait + Sync,
    G: Gate,
    K: Disk + Drop + Send,
    Q: Device + Drop + Send,
    E: Entropy + Drop + Send,
    X: Wire + Drop + Send,
>(
    rt: &R,
    gate: &G,
    running: &mut Running<K, Q, E, X>,
    workers: u32,
    jobs: &[Job],
) -> Result<DoneBlock, Memory>
    requires may { MayTogether (λ r. r.state.site) (λ r. Stands (outside K.Disk Q.Device E.Entropy X.Wire) r.state) running.old workers jobs.now }
    ensures did { DidTogether (λ r. r.state.site) (λ r. Stands (outside K.Disk Q.Device E.Entropy X.Wire) r.state)
        (λ r. Rests (outside K.Disk Q.Device E.Entropy X.Wire) r.state) (λ a b. Tallied (outside K.Disk Q.Device E.Entropy X.Wire) a.state b.state)
        (λ r. most_armed K.Disk r.state.posts.items) running.old running.new workers jobs.now result }
{
    let alloc = *running.state.posts.allocator();
    let crew = crew(workers, jobs.len());
    crate::run_block(rt, alloc, gate, &mut running.state, crew, jobs)
}
