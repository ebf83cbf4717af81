ghost use Rattle.std.specs.Prelude.{◌≡◌, ◌<◌, ◌≤◌, [], All, IfOk, vec_len, vec_capacity};
ghost use Rattle.block_run.specs.Jobs.{job_count};

use crate::Work;
use crate::seats::{Seat, lists};
use crate::worker::count_jobs;
use qkd_base::Memory;
use std::alloc::Global;

/// The memory of a block before its first job: empty lists for each worker's answers, for the workers' seats, and for all
/// answers.
pub struct Rooms<T: Work> {
    pub lists: Vec<Vec<(u32, T::Answer)>>,
    pub seats: Vec<Seat<T>>,
    pub answers: Vec<(u32, T::Answer)>,
}

impl<T: Work> Rooms<T> {
    /// Allocates the memory for `workers` workers and `jobs` jobs.
    pub fn new(alloc: Global, workers: u32, jobs: u32) -> Result<Self, Memory>
        requires { 0 < workers }
        ensures lists { IfOk result (λ rooms. vec_len rooms.lists ≡ workers) }
        ensures empty { IfOk result (λ rooms. All (λ list. (list.items ≡ []) × (job_count 0 workers jobs ≤ vec_capacity list)) rooms.lists.items) }
        ensures seats { IfOk result (λ rooms. (rooms.seats.items ≡ []) × (workers ≤ vec_capacity rooms.seats)) }
        ensures answers { IfOk result (λ rooms. (rooms.answers.items ≡ []) × (jobs ≤ vec_capacity rooms.answers)) }
    {
        let lists = lists(alloc, workers, count_jobs(0, workers, jobs))?;
        let answers = Vec::with_capacity(alloc, jobs as usize)?;
        let seats = Vec::with_capacity(alloc, workers as usize)?;
        Ok(Rooms {
            lists,
            seats,
            answers,
        })
    }
}
