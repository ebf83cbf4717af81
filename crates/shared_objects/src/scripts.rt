// The call that runs all workers.
ghost use Rattle.std.specs.Prelude.{◌≡◌, ℕ, ◌≤◌, ◌<◌, ◌+◌, ◌*◌, ◌^◌, List, [], map, length, Some, All, IfOk, IfErr, is_ok, slice_get, vec_len, vec_capacity};
ghost use Rattle.std.specs.List.{AllZip};
ghost use Rattle.block_run.specs.Jobs.{jobs_of};
ghost use Rattle.net_model.specs.BlockOrder.{IsMerge};
ghost use Rattle.shared_objects.specs.Rising.{placed_from};
ghost use Rattle.turnstile.specs.Names.{opening};
ghost use Rattle.turnstile.specs.Turns.{turn_of};
ghost use Rattle.turnstile.specs.Views.{IsWhole};
ghost use Rattle.shared_objects.specs.Seats.{calls_at, IsOpened, HoldsAll};
ghost use Rattle.shared_objects.specs.Said.{Said, said_on, all_said};
ghost use Rattle.shared_objects.specs.Working.{IsReady, HaveWorked};
ghost use Rattle.shared_objects.specs.Done.{HaveTalked, AreDone};

use crate::errands::Errands;
use crate::rooms::WorkerRooms;
use crate::rounds::Rounds;
use crate::script_pass::Pass;
use crate::script_rows::{join_workers, seat_workers};
use crate::{Post, Rooms, close_all, open_all};
use block_run::{BlockEnd, run_block};
use edge_io::Gate;
use qkd_base::Memory;
use std::alloc::Global;
use std::sync::Wait;
use std::thread::Threads;
use turnstile::Machine;

// Each worker does its errands from its seats, all workers at the same time. If memory runs out, no call is made.
fn work_seated<R: Threads + Wait + Sync, G: Gate, M: Machine + Send, T: Errands<M>>(
    rt: &R,
    rounds: &Rounds<'_, M, T, G>,
    passes: Vec<Pass<M, T::Keep>>,
    jobs: u32,
) -> (Result<(), Memory>, Vec<Pass<M, T::Keep>>)
where
    M::Request: Send,
    M::Reply: Send,
    requires some { 0 < length passes.items }
    requires few { length passes.items ≤ 32 }
    requires ready { (w : ℕ) (pass : _) → slice_get passes.items w ≡ Some pass →
        IsReady (T.may rounds.now.errands.now) (T.most rounds.now.errands.now) rounds.now.turnstiles.now pass.posts.items pass.keep (jobs_of w (length passes.items) jobs) }
    ensures { HaveWorked (T.does rounds.now.errands.now) rounds.now.turnstiles.now (is_ok result.0) jobs (map (λ pass. pass.posts.items) passes.items) (map (λ pass. pass.keep) passes.items)
        (map (λ pass. pass.posts.items) result.1.items) (map (λ pass. pass.keep) result.1.items) }
{
    match run_block(rt, rounds.alloc, rounds, passes, jobs, rounds.gate) {
        Ok(BlockEnd { passes, answers: _ }) => (Ok(()), passes),
        Err((memory, passes)) => (Err(memory), passes),
    }
}

// Gives the workers their seats, lets them do their errands, and takes the seats back.
fn work_opened<R: Threads + Wait + Sync, G: Gate, M: Machine + Send, T: Errands<M>>(
    rt: &R,
    rounds: &Rounds<'_, M, T, G>,
    kept: &mut [Post<M>],
    rooms: WorkerRooms<M, Pass<M, T::Keep>>,
    keeps: Vec<T::Keep>,
    mut back: Vec<T::Keep>,
    jobs: u32,
    calls: u64,
) -> (Result<(), Memory>, Vec<T::Keep>)
where
    M::Request: Send,
    M::Reply: Send,
    requires some { 0 < length keeps.items }
    requires few { length keeps.items ≤ 32 }
    requires may { (w : ℕ) (keep : _) → slice_get keeps.items w ≡ Some keep →
        T.may rounds.now.errands.now (map opening rounds.now.turnstiles.now) keep (jobs_of w (length keeps.items) jobs) }
    requires calls { jobs * T.most rounds.now.errands.now ≤ calls }
    requires rows { vec_len rooms.rows ≡ vec_len keeps }
    requires empty { All (λ row. (row.items ≡ []) × (length rounds.now.turnstiles.now ≤ vec_capacity row)) rooms.rows.items }
    requires none { (rooms.passes.items ≡ []) × (back.items ≡ []) }
    requires room { (vec_len keeps ≤ vec_capacity rooms.passes) × (vec_len keeps ≤ vec_capacity back) }
    requires opened { AllZip (IsOpened (vec_len keeps * calls)) rounds.now.turnstiles.now kept.old }
    ensures whole { AllZip HoldsAll rounds.now.turnstiles.now kept.new }
    ensures ok { IfOk result.0 (λ _. (talks : List (List (ℕ × List (Said M.Request M.Reply)))) × HaveTalked (T.does rounds.now.errands.now) jobs keeps.items talks result.1.items
        × ((i : ℕ) (log : List _) → IsWhole (calls_at i kept.new) log → IsMerge (map (said_on i) (map all_said talks)) (placed_from 0 log))) }
    ensures err { IfErr result.0 (λ _. (result.1.items ≡ keeps.items) × ((i : ℕ) (log : List _) → IsWhole (calls_at i kept.new) log → log ≡ [])) }
{
    let WorkerRooms {
        mut rows,
        mut passes,
    } = rooms;
    seat_workers(
        rounds.turnstiles,
        kept,
        &mut rows,
        keeps,
        &mut passes,
        calls,
    );
    let (ended, passes) = work_seated(rt, rounds, passes, jobs);
    join_workers(rounds.turnstiles, kept, passes, &mut back);
    (ended, back)
}

/// Each worker does its errands in order, all workers at the same time, and each machine answers one call at a time. The jobs
/// of worker w of n are w, w + n, w + 2n and so on. No job may call a machine more than `most` times. Each worker passes the
/// gate before each job and once more after its last one. If memory runs out, no machine is called, and all that was given
/// comes back unchanged.
pub fn work_scripts<R: Threads + Wait + Sync, G: Gate, M: Machine + Send, T: Errands<M>>(
    rt: &R,
    alloc: Global,
    gate: &G,
    mut machines: Vec<M>,
    keeps: Vec<T::Keep>,
    errands: &T,
    jobs: u32,
    most: u64,
) -> Result<(Vec<M>, Vec<T::Keep>), (Memory, Vec<M>, Vec<T::Keep>)>
where
    M::Request: Send,
    M::Reply: Send,
    requires some { 0 < length keeps.items }
    requires few { length keeps.items ≤ 32 }
    requires most { T.most errands.now ≤ most }
    requires calls { length keeps.items * (jobs * most) < 2 ^ 63 }
    requires may { (w : ℕ) (keep : _) → slice_get keeps.items w ≡ Some keep → T.may errands.now machines.items keep (jobs_of w (length keeps.items) jobs) }
    ensures ok { IfOk result (λ after. AreDone (turn_of M.charter M.takes M.turns) (T.does errands.now) jobs keeps.items machines.items after.1.items after.0.items) }
    ensures err { IfErr result (λ e. (e.1.items ≡ machines.items) × (e.2.items ≡ keeps.items)) }
{
    let Ok(back) = Vec::with_capacity(alloc, keeps.len()) else {
        return Err((Memory, machines, keeps));
    };
    let Ok(rooms) = Rooms::new(alloc, keeps.len(), machines.len()) else {
        return Err((Memory, machines, keeps));
    };
    let Rooms {
        mut turnstiles,
        mut kept,
        rows,
        passes,
    } = rooms;
    let each = u64::from(jobs) * most;
    let all = keeps.len() as u64 * each;
    machines.reverse();
    let (ended, keeps) = match open_all(alloc, &mut machines, &mut turnstiles, &mut kept, all) {
        Ok(()) => {
            let rounds = Rounds {
                alloc,
                turnstiles: &turnstiles,
                errands,
                gate,
            };
            let rooms = WorkerRooms { rows, passes };
            work_opened(rt, &rounds, &mut kept, rooms, keeps, back, jobs, each)
        }
        Err(memory) => (Err(memory), keeps),
    };
    close_all(turnstiles, kept, &mut machines);
    machines.reverse();
    match ended {
        Ok(()) => Ok((machines, keeps)),
        Err(memory) => Err((memory, machines, keeps)),
    }
}
