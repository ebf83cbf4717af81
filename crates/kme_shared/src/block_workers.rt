// The workers of a block.
ghost use Rattle.std.specs.Prelude.{◌≡◌, ◌≤◌, ◌<◌, ◌+◌, ◌^◌, ℕ, [], Some, IfOk, OnErr, length, map, slice_get, vec_len, vec_capacity};
ghost use Rattle.std.specs.List.{AllByRecursion};
ghost use Rattle.net_model.specs.World.{Network, World};
ghost use Rattle.run_ops.specs.Acting.{IsReady};
ghost use Rattle.run_ops.specs.Doing.{MayTogether};
ghost use Rattle.par_managers.specs.Calls.{AreShifts};
ghost use Rattle.world_state.specs.Stands.{Stands};
ghost use Rattle.world_state.specs.Armed.{most_armed};
ghost use Rattle.par_frames.specs.NoteWorking.{HasWorked};
ghost use Rattle.kme_shared.specs.Seats.{AreUsed};
ghost use Rattle.kme_shared.specs.Sheets.{IsDealt};
ghost use Rattle.kme_shared.specs.Keeping.{IsFresh};
ghost use Rattle.world_state.specs.Outside.{outside};

use crate::worker_keeps::keeps;
use crate::{BlockErrands, Room, Stage, gather, rise, sheets, sit};
use disk_model::Disk;
use edge_io::Gate;
use lane_sender::LaneSide;
use par_frames::Worked;
use par_lanes::Lanes;
use par_managers::{Keep, Opened, open_lanes, shifts};
use qkd_base::Memory;
use run_ops::Job;
use shared_objects::work_scripts;
use source_devices::{Device, Entropy, Wire};
use std::alloc::Global;
use std::snapshot::Snapshot;
use std::sync::Wait;
use std::thread::Threads;
use world_state::{Post, State};

// The most calls that a job makes of one machine: one of a manager, and those of a lane for the frames of a plan.
const MOST: u64 = 2_097_153;

// The jobs of a block, what each worker holds before its first, and memory for the results.
struct Work<'a> {
    jobs: &'a [Job],
    keeps: Vec<Keep<'a>>,
    room: Room,
}

// The workers do the jobs, in memory that was allocated before.
fn work_on_stage<
    'a,
    R: Threads + Wait + Sync,
    G: Gate,
    K: Disk + Drop + Send,
    Q: Device + Drop + Send,
    E: Entropy + Drop + Send,
    X: Wire + Drop + Send,
>(
    rt: &R,
    alloc: Global,
    gate: &G,
    opening: Snapshot<State<K, Q, E, X>>,
    posts: &mut Vec<Post<K, E>>,
    lanes: &mut Vec<LaneSide<X>>,
    stage: Stage<'a, K, Q, E, X>,
    work: Work<'a>,
) -> Result<Worked, Memory>
    requires some { 0 < length work.keeps.items }
    requires few { length work.keeps.items ≤ 32 }
    requires jobs { length work.jobs.now < 2 ^ 32 }
    requires sited { stage.site.now ≡ opening.value.site }
    requires up { stage.up ≡ opening.value.up }
    requires posts { posts.old.items ≡ opening.value.posts.items }
    requires lanes { lanes.old.items ≡ opening.value.lanes.items }
    requires ready { (net : Network) × (w : World) × IsReady (Stands (outside K.Disk Q.Device E.Entropy X.Wire)) opening.value net w }
    requires shifts { AreShifts (outside K.Disk Q.Device E.Entropy X.Wire) opening.value (length work.keeps.items) work.jobs.now (map (λ keep. keep.shift.items) work.keeps.items) }
    requires fresh { AllByRecursion (IsFresh stage.shares.now) work.keeps.items }
    requires shares { length stage.shares.now ≡ length lanes.old.items }
    requires sheets { vec_len stage.sheets ≡ vec_len posts.old }
    requires dealt { (v : ℕ) (sheet : _) → slice_get stage.sheets.items v ≡ Some sheet → IsDealt opening.value stage.shares.now v sheet.issuers.items sheet.opening.value }
    requires count { vec_len stage.used ≡ vec_len lanes.old }
    requires used { AreUsed lanes.old.items stage.shares.now stage.used.items }
    requires none { stage.machines.items ≡ [] }
    requires seats { vec_len posts.old + vec_len lanes.old ≤ vec_capacity stage.machines }
    requires empty { (work.room.replied.items ≡ []) × (work.room.turns.items ≡ []) × (work.room.frames.items ≡ []) }
    requires room { (length work.jobs.now ≤ vec_capacity work.room.replied) × (length work.jobs.now ≤ vec_capacity work.room.turns) }
    ensures armed { most_armed K.Disk posts.new.items ≡ most_armed K.Disk posts.old.items }
    ensures worked { IfOk result (λ worked. (net : Network) (w : World) → IsReady (Stands (outside K.Disk Q.Device E.Entropy X.Wire)) opening.value net w
        → HasWorked (outside K.Disk Q.Device E.Entropy X.Wire) opening.value (record opening.value { posts = posts.new; lanes = lanes.new }) net w
        (length work.entry.keeps.items) work.entry.jobs.now worked) }
    ensures left { OnErr result ((posts.new ≡ posts.old) × (lanes.new ≡ lanes.old)) }
{
    let Work { jobs, keeps, room } = work;
    let shares = stage.shares;
    let first = posts.len();
    let machines = sit(&opening, posts, lanes, stage);
    let errands = BlockErrands {
        alloc,
        lanes: Lanes { first, shares },
        opening,
    };
    let count = jobs.len() as u32;
    match work_scripts(rt, alloc, gate, machines, keeps, &errands, count, MOST) {
        Ok((machines, keeps)) => {
            rise(machines, posts, lanes);
            Ok(gather(keeps, room))
        }
        Err((memory, machines, _)) => {
            rise(machines, posts, lanes);
            Err(memory)
        }
    }
}

/// The workers do the jobs of a block, all at the same time if threads can be had. Of `n` workers, worker `k` does the jobs whose place
/// modulo `n` is `k`, in order. For each job it asks the manager for its turn and puts out the frames that a plan wants, before its next
/// job. Each manager takes one turn at a time, and so does each lane. `Err` says that memory ran out: the state is as it was, and no
/// manager was asked.
pub fn work_block<
    R: Threads + Wait + Sync,
    G: Gate,
    K: Disk + Drop + Send,
    Q: Device + Drop + Send,
    E: Entropy + Drop + Send,
    X: Wire + Drop + Send,
>(
    rt: &R,
    alloc: Global,
    gate: &G,
    state: &mut State<K, Q, E, X>,
    workers: u32,
    jobs: &[Job],
) -> Result<Worked, Memory>
    requires may { MayTogether (λ s. s.site) (Stands (outside K.Disk Q.Device E.Entropy X.Wire)) state.old workers jobs.now }
    ensures site { state.new.site ≡ state.old.site }
    ensures armed { most_armed K.Disk state.new.posts.items ≡ most_armed K.Disk state.old.posts.items }
    ensures worked { IfOk result (λ worked. (net : Network) (w : World) → IsReady (Stands (outside K.Disk Q.Device E.Entropy X.Wire)) state.old net w
        → HasWorked (outside K.Disk Q.Device E.Entropy X.Wire) state.old state.new net w workers jobs.now worked) }
    ensures kept { OnErr result (state.new ≡ state.old) }
{
    if jobs.len() > u32::MAX as usize {
        return Err(Memory);
    }
    let opening = Snapshot::of(&*state);
    let shifts = shifts(alloc, state, workers, jobs)?;
    let Opened {
        shares,
        mut issuers,
        used,
    } = open_lanes(alloc, state)?;
    let keeps = keeps(alloc, &shares, &mut issuers, shifts)?;
    let sheets = sheets(alloc, state, &shares, &mut issuers)?;
    let machines = Vec::with_capacity(alloc, state.posts.len() + state.lanes.len())?;
    let room = Room::new(alloc, jobs.len())?;
    let up = state.up;
    let stage = Stage {
        site: &state.site,
        up,
        shares: &shares,
        sheets,
        used,
        machines,
    };
    let work = Work { jobs, keeps, room };
    work_on_stage(
        rt,
        alloc,
        gate,
        opening,
        &mut state.posts,
        &mut state.lanes,
        stage,
        work,
    )
}
