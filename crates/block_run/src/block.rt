ghost use Rattle.std.specs.Prelude.{◌≡◌, ◌<◌, ◌≤◌, ◌-◌, ℕ, [], All, Some, IfOk, IfErr, length, slice_get, vec_len, vec_capacity};
ghost use Rattle.block_run.specs.Jobs.{job_count, jobs_of, Chains};
ghost use Rattle.block_run.specs.Seated.{IsSeated};
ghost use Rattle.block_run.specs.Done.{IsDone, EachOnce};

use crate::Work;
use crate::rooms::Rooms;
use crate::seats::{Seat, leave, sit};
use crate::worker::work_through;
use edge_io::Gate;
use qkd_base::Memory;
use std::alloc::Global;
use std::sync::Wait;
use std::thread::{Threads, for_each_mut};

/// The result of a block: the workers' passes in their order, and each job with its answer, worker by worker.
pub struct BlockEnd<T: Work> {
    pub passes: Vec<T::Pass>,
    pub answers: Vec<(u32, T::Answer)>,
}

// Does the jobs of the worker in a seat.
fn work_at<R: Wait, T: Work, G: Gate>(
    rt: &R,
    work: &T,
    place: usize,
    workers: u32,
    jobs: u32,
    seat: &mut Seat<T>,
    gate: &G,
)
    requires { IsSeated (T.fits work.now) workers jobs place seat.old.pass seat.old.answers.items (vec_capacity seat.old.answers) }
    ensures { Chains (T.gives work.now) (jobs_of (workers - 1 - place) workers jobs) seat.old.pass seat.new.answers.items seat.new.pass }
{
    work_through(
        rt,
        work,
        workers - 1 - place as u32,
        workers,
        jobs,
        &mut seat.pass,
        &mut seat.answers,
        gate,
    );
}

// Does the jobs of all workers at the same time. The last worker has the first seat.
fn work_all<R: Threads + Wait + Sync, T: Work, G: Gate>(
    rt: &R,
    work: &T,
    seats: &mut [Seat<T>],
    jobs: u32,
    gate: &G,
)
    requires some { 0 < length seats.old }
    requires few { length seats.old ≤ 32 }
    requires seated { (place : ℕ) (s : _) → slice_get seats.old place ≡ Some s → IsSeated (T.fits work.now) (length seats.old) jobs place s.pass s.answers.items (vec_capacity s.answers) }
    ensures length { length seats.new ≡ length seats.old }
    ensures done { (place : ℕ) (s t : _) → slice_get seats.old place ≡ Some s → slice_get seats.new place ≡ Some t →
        Chains (T.gives work.now) (jobs_of (length seats.old - 1 - place) (length seats.old) jobs) s.pass t.answers.items t.pass }
{
    let workers = seats.len() as u32;
    for_each_mut(
        rt,
        seats,
        workers as usize,
        &|place: usize, seat: &mut Seat<T>|
            requires { IsSeated (T.fits work.now) workers jobs place seat.now.pass seat.now.answers.items (vec_capacity seat.now.answers) }
            ensures { Chains (T.gives work.entry.now) (jobs_of (workers - 1 - place) workers jobs) seat.entry.now.pass seat.exit.now.answers.items seat.exit.now.pass }
        {
            work_at(rt, work, place, workers, jobs, seat, gate);
        },
    );
}

// Does the jobs in memory that was allocated before.
fn do_jobs<R: Threads + Wait + Sync, T: Work, G: Gate>(
    rt: &R,
    work: &T,
    mut passes: Vec<T::Pass>,
    rooms: Rooms<T>,
    jobs: u32,
    gate: &G,
) -> BlockEnd<T>
    requires some { 0 < length passes.items }
    requires few { length passes.items ≤ 32 }
    requires fits { (w : ℕ) (p : T.Pass) → slice_get passes.items w ≡ Some p → T.fits work.now p (jobs_of w (length passes.items) jobs) }
    requires lists { vec_len rooms.lists ≡ vec_len passes }
    requires empty { All (λ list. (list.items ≡ []) × (job_count 0 (length passes.items) jobs ≤ vec_capacity list)) rooms.lists.items }
    requires seats { (rooms.seats.items ≡ []) × (vec_len passes ≤ vec_capacity rooms.seats) }
    requires answers { (rooms.answers.items ≡ []) × (jobs ≤ vec_capacity rooms.answers) }
    ensures done { IsDone (T.gives work.now) passes.items jobs result.passes.items result.answers.items }
    ensures once { EachOnce jobs result.answers.items }
{
    let Rooms {
        mut lists,
        mut seats,
        mut answers,
    } = rooms;
    sit(&mut passes, &mut lists, &mut seats);
    work_all(rt, work, &mut seats, jobs, gate);
    leave(&mut seats, &mut passes, &mut answers);
    lists.destroy_empty();
    seats.destroy_empty();
    BlockEnd { passes, answers }
}

/// Does each job exactly once: worker w of n does the jobs w, w + n, w + 2n and so on, in this order, over its own pass. The
/// workers run at the same time, each on a thread of its own. If a thread can't be started, another worker's thread does its
/// jobs. Each worker passes the gate before each of its jobs and once more after its last one. All memory is allocated before
/// the first job; if it runs out, the passes come back unchanged.
pub fn run_block<R: Threads + Wait + Sync, T: Work, G: Gate>(
    rt: &R,
    alloc: Global,
    work: &T,
    passes: Vec<T::Pass>,
    jobs: u32,
    gate: &G,
) -> Result<BlockEnd<T>, (Memory, Vec<T::Pass>)>
    requires some { 0 < length passes.items }
    requires few { length passes.items ≤ 32 }
    requires fits { (w : ℕ) (p : T.Pass) → slice_get passes.items w ≡ Some p → T.fits work.now p (jobs_of w (length passes.items) jobs) }
    ensures done { IfOk result (λ block. IsDone (T.gives work.now) passes.items jobs block.passes.items block.answers.items) }
    ensures once { IfOk result (λ block. EachOnce jobs block.answers.items) }
    ensures err { IfErr result (λ e. e.1 ≡ passes) }
{
    let workers = passes.len() as u32;
    let Ok(rooms) = Rooms::new(alloc, workers, jobs) else {
        return Err((Memory, passes));
    };
    Ok(do_jobs(rt, work, passes, rooms, jobs, gate))
}
