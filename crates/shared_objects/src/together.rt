// The call that runs all workers.
ghost use Rattle.std.specs.Prelude.{◌≡◌, ℕ, ◌≤◌, ◌<◌, ◌+◌, ◌*◌, ◌^◌, List, [], map, length, Some, All, IfSome, IfOk, IfErr, is_ok, slice_get, vec_len, vec_capacity};
ghost use Rattle.std.specs.List.{AllZip, AllByRecursion};
ghost use Rattle.block_run.specs.Jobs.{jobs_of};
ghost use Rattle.net_model.specs.BlockOrder.{IsMerge};
ghost use Rattle.turnstile.specs.Names.{opening};
ghost use Rattle.turnstile.specs.Turns.{turn_of};
ghost use Rattle.turnstile.specs.Views.{IsWhole};
ghost use Rattle.shared_objects.specs.Asked.{requests_on, IsTaken};
ghost use Rattle.shared_objects.specs.Seats.{calls_at, IsOpened, HoldsAll};
ghost use Rattle.shared_objects.specs.Served.{HaveServed};
ghost use Rattle.shared_objects.specs.Shares.{IsReady, HasWorked};

use crate::gates::{close_all, open_all};
use crate::pass::{Pass, Post, Shift};
use crate::rooms::{Rooms, WorkerRooms};
use crate::rows::{join_workers, seat_workers};
use crate::stations::Stations;
use block_run::{BlockEnd, run_block};
use edge_io::Gate;
use qkd_base::Memory;
use std::alloc::Global;
use std::sync::Wait;
use std::thread::Threads;
use turnstile::{Machine, Turnstile};

// Each worker makes its calls from its seats, all workers at the same time. If memory runs out, no call is made.
fn work_seated<R: Threads + Wait + Sync, G: Gate, M: Machine + Send>(
    rt: &R,
    alloc: Global,
    gate: &G,
    turnstiles: &[Turnstile<M>],
    passes: Vec<Pass<M>>,
    jobs: u32,
) -> (Result<(), Memory>, Vec<Pass<M>>)
where
    M::Request: Send + Drop,
    M::Reply: Send + Drop,
    requires some { 0 < length passes.items }
    requires few { length passes.items ≤ 32 }
    requires ready { (w : ℕ) (pass : _) → slice_get passes.items w ≡ Some pass →
        IsReady M.takes M.charter turnstiles.now pass.posts.items pass.shift.items (length (jobs_of w (length passes.items) jobs)) }
    ensures { AllZip (λ before after. HasWorked turnstiles.now (is_ok result.0) before.posts.items before.shift.items after.posts.items) passes.items result.1.items }
{
    match run_block(rt, alloc, &Stations { turnstiles }, passes, jobs, gate) {
        Ok(BlockEnd { passes, answers: _ }) => (Ok(()), passes),
        Err((memory, passes)) => (Err(memory), passes),
    }
}

// Gives the workers their seats, lets them make their calls, and takes the seats back.
fn work_opened<R: Threads + Wait + Sync, G: Gate, M: Machine + Send>(
    rt: &R,
    alloc: Global,
    gate: &G,
    turnstiles: &[Turnstile<M>],
    kept: &mut [Post<M>],
    rooms: WorkerRooms<M, Pass<M>>,
    shifts: Vec<Shift<M::Request>>,
    jobs: u32,
) -> Result<(), Memory>
where
    M::Request: Send + Drop,
    M::Reply: Send + Drop,
    requires some { 0 < length shifts.items }
    requires few { length shifts.items ≤ 32 }
    requires entries { (w : ℕ) (shift : _) → slice_get shifts.items w ≡ Some shift → length shift.items ≡ length (jobs_of w (length shifts.items) jobs) }
    requires taken { (w : ℕ) (shift : _) → slice_get shifts.items w ≡ Some shift → All (λ entry. IfSome entry (IsTaken M.charter M.takes (map opening turnstiles.now))) shift.items }
    requires rows { vec_len rooms.rows ≡ vec_len shifts }
    requires empty { All (λ row. (row.items ≡ []) × (length turnstiles.now ≤ vec_capacity row)) rooms.rows.items }
    requires none { rooms.passes.items ≡ [] }
    requires room { vec_len shifts ≤ vec_capacity rooms.passes }
    requires opened { AllZip (IsOpened (vec_len shifts * jobs)) turnstiles.now kept.old }
    ensures whole { AllZip HoldsAll turnstiles.now kept.new }
    ensures ok { IfOk result (λ _. (i : ℕ) (log : List _) → IsWhole (calls_at i kept.new) log → IsMerge (map (requests_on i) (map (λ shift. shift.items) shifts.items)) (map (λ e. e.0) log)) }
    ensures err { IfErr result (λ _. (i : ℕ) (log : List _) → IsWhole (calls_at i kept.new) log → log ≡ []) }
{
    let WorkerRooms {
        mut rows,
        mut passes,
    } = rooms;
    seat_workers(
        turnstiles,
        kept,
        &mut rows,
        shifts,
        &mut passes,
        u64::from(jobs),
    );
    let (ended, passes) = work_seated(rt, alloc, gate, turnstiles, passes, jobs);
    join_workers(turnstiles, kept, passes);
    ended
}

/// Each worker makes its calls in order, all workers at the same time, and each machine answers one call at a time. The jobs of
/// worker w of n are w, w + n, w + 2n and so on; for each of them its shift has an entry, which is a call or none. Each worker
/// passes the gate before each job and once more after its last one. If memory runs out, no machine is called, and all machines
/// come back unchanged.
pub fn work_together<R: Threads + Wait + Sync, G: Gate, M: Machine + Send>(
    rt: &R,
    alloc: Global,
    gate: &G,
    mut machines: Vec<M>,
    shifts: Vec<Shift<M::Request>>,
    jobs: u32,
) -> Result<Vec<M>, (Memory, Vec<M>)>
where
    M::Request: Send + Drop,
    M::Reply: Send + Drop,
    requires some { 0 < length shifts.items }
    requires few { length shifts.items ≤ 32 }
    requires entries { (w : ℕ) (shift : _) → slice_get shifts.items w ≡ Some shift → length shift.items ≡ length (jobs_of w (length shifts.items) jobs) }
    requires taken { (w : ℕ) (shift : _) → slice_get shifts.items w ≡ Some shift → All (λ entry. IfSome entry (IsTaken M.charter M.takes machines.items)) shift.items }
    ensures ok { IfOk result (λ after. HaveServed (turn_of M.charter M.takes M.turns) (map (λ shift. shift.items) shifts.items) machines.items after.items) }
    ensures err { IfErr result (λ e. e.1.items ≡ machines.items) }
{
    let Ok(rooms) = Rooms::new(alloc, shifts.len(), machines.len()) else {
        return Err((Memory, machines));
    };
    let Rooms {
        mut turnstiles,
        mut kept,
        rows,
        passes,
    } = rooms;
    let all = shifts.len() as u64 * u64::from(jobs);
    machines.reverse();
    let ended = match open_all(alloc, &mut machines, &mut turnstiles, &mut kept, all) {
        Ok(()) => work_opened(
            rt,
            alloc,
            gate,
            &turnstiles,
            &mut kept,
            WorkerRooms { rows, passes },
            shifts,
            jobs,
        ),
        Err(memory) => Err(memory),
    };
    close_all(turnstiles, kept, &mut machines);
    machines.reverse();
    match ended {
        Ok(()) => Ok(machines),
        Err(memory) => Err((memory, machines)),
    }
}
