// The calls of workers on managers.
ghost use Rattle.std.specs.Prelude.{◌≡◌, ◌<◌, ℕ, true, IfOk, IfSome, length, map};
ghost use Rattle.std.specs.List.{list_all, All};
ghost use Rattle.block_run.specs.Jobs.{job_count};
ghost use Rattle.declared_site.specs.SiteOf.{site_of};
ghost use Rattle.net_model.specs.World.{Network, World};
ghost use Rattle.run_ops.specs.Acting.{IsReady};
ghost use Rattle.run_ops.specs.Jobs.{is_job, asked_by, IsThere};
ghost use Rattle.shared_objects.specs.Asked.{requests_on};
ghost use Rattle.par_managers.specs.Calls.{work_of, IsEntry, IsComing, AreComing, AreShifts};
ghost use Rattle.world_state.specs.Stands.{Stands};
ghost use Rattle.world_state.specs.Outside.{outside};

use crate::Turn;
use disk_model::Disk;
use kme_base::receiver;
use qkd_base::{Memory, NodeNo, Octets};
use run_ops::Job;
use shared_objects::{Call, Shift};
use source_devices::{Device, Entropy, Wire};
use std::alloc::Global;
use std::collections::VecDeque;
use world_state::{State, seen};

// The call on a node's manager for the turn of a job.
fn call(node: NodeNo, place: usize, job: &Job, octets: Option<Octets>) -> Call<Turn<'_>>
    ensures machine { result.machine ≡ node }
    ensures place { result.request.place ≡ place }
    ensures job { result.request.job.now ≡ job.now }
    ensures octets { result.request.octets ≡ octets }
{
    Call {
        machine: usize::from(node.get()),
        request: Turn { place, job, octets },
    }
}

// The call for a job, if the job asks for a turn, with the octets of the frame that comes.
fn call_for<'a, K: Disk + Drop, Q: Device + Drop, E: Entropy + Drop, X: Wire + Drop>(
    state: &State<K, Q, E, X>,
    place: usize,
    job: &'a Job,
) -> Result<Option<Call<Turn<'a>>>, Memory>
    requires fit { is_job (site_of state.now.site) job.now ≡ true }
    requires ready { (net : Network) × (w : World) × IsReady (Stands (outside K.Disk Q.Device E.Entropy X.Wire)) state.now net w }
    ensures entry { IfOk result (IsEntry (site_of state.now.site) place job.now) }
    ensures coming { IfOk result (λ entry. ((net : Network) (w : World) → IsReady (Stands (outside K.Disk Q.Device E.Entropy X.Wire)) state.now net w
        → IsThere w job.now) → IfSome entry (IsComing (outside K.Disk Q.Device E.Entropy X.Wire) state.now)) }
{
    match job {
        Job::Nothing => Ok(None),
        Job::Ask { node, .. } => Ok(Some(call(*node, place, job, None))),
        Job::Pass { lane, number } => {
            let octets = seen(state, lane, *number)?;
            Ok(Some(call(receiver(&state.site, *lane), place, job, octets)))
        }
    }
}

// The shift of one worker: an entry for each of its jobs, in order. These are the jobs whose place modulo `workers` is the
// worker's number.
fn shift<'a, K: Disk + Drop, Q: Device + Drop, E: Entropy + Drop, X: Wire + Drop>(
    alloc: Global,
    state: &State<K, Q, E, X>,
    workers: u32,
    worker: u32,
    jobs: &'a [Job],
) -> Result<Shift<Turn<'a>>, Memory>
    requires worker { worker < workers }
    requires jobs { list_all (is_job (site_of state.now.site)) jobs.now ≡ true }
    requires there { (net : Network) (w : World) → IsReady (Stands (outside K.Disk Q.Device E.Entropy X.Wire)) state.now net w → All (IsThere w) jobs.now }
    requires ready { (net : Network) × (w : World) × IsReady (Stands (outside K.Disk Q.Device E.Entropy X.Wire)) state.now net w }
    ensures asked { IfOk result (λ shift. (v : ℕ) → map work_of (requests_on v shift.items) ≡ asked_by (site_of state.now.site) workers worker v 0 jobs.now) }
    ensures coming { IfOk result (λ shift. AreComing (outside K.Disk Q.Device E.Entropy X.Wire) state.now jobs.now shift.items) }
    ensures entries { IfOk result (λ shift. length shift.items ≡ job_count worker workers (length jobs.now)) }
{
    let mut shift = VecDeque::new(alloc);
    for (place, job) in jobs.iter().enumerate() {
        if place % workers as usize == worker as usize {
            shift.push_back(call_for(state, place, job)?)?;
        }
    }
    Ok(shift)
}

/// The shifts of all workers.
pub fn shifts<'a, K: Disk + Drop, Q: Device + Drop, E: Entropy + Drop, X: Wire + Drop>(
    alloc: Global,
    state: &State<K, Q, E, X>,
    workers: u32,
    jobs: &'a [Job],
) -> Result<Vec<Shift<Turn<'a>>>, Memory>
    requires jobs { list_all (is_job (site_of state.now.site)) jobs.now ≡ true }
    requires there { (net : Network) (w : World) → IsReady (Stands (outside K.Disk Q.Device E.Entropy X.Wire)) state.now net w → All (IsThere w) jobs.now }
    requires ready { (net : Network) × (w : World) × IsReady (Stands (outside K.Disk Q.Device E.Entropy X.Wire)) state.now net w }
    ensures many { IfOk result (λ shifts. length shifts.items ≡ workers) }
    ensures shifts { IfOk result (λ shifts. AreShifts (outside K.Disk Q.Device E.Entropy X.Wire) state.now workers jobs.now (map (λ shift. shift.items) shifts.items)) }
{
    let mut shifts = Vec::new(alloc);
    for worker in 0..workers {
        shifts.push(shift(alloc, state, workers, worker, jobs)?)?;
    }
    Ok(shifts)
}
