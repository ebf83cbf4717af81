// The jobs of one worker of a block.
ghost use Rattle.std.specs.Prelude.{◌≡◌, ◌+◌, ◌<◌, ◌≤◌, [], vec_len, vec_capacity};
ghost use Rattle.block_run.specs.Jobs.{job_count, jobs_of, Chains};

use crate::Work;
use edge_io::Gate;
use std::sync::Wait;

/// How many jobs a worker has.
pub fn count_jobs(worker: u32, workers: u32, jobs: u32) -> u32
    requires worker { worker < workers }
    ensures { result ≡ job_count worker workers jobs }
{
    let last = u64::from(jobs) + u64::from(workers) - (u64::from(worker) + 1);
    (last / u64::from(workers)) as u32
}

/// Does a worker's jobs in order over its pass. It passes the gate before each job and once more after the last.
pub fn work_through<R: Wait, T: Work, G: Gate>(
    rt: &R,
    work: &T,
    worker: u32,
    workers: u32,
    jobs: u32,
    pass: &mut T::Pass,
    answers: &mut Vec<(u32, T::Answer)>,
    gate: &G,
)
    requires worker { worker < workers }
    requires few { workers ≤ 32 }
    requires none { answers.old.items ≡ [] }
    requires room { vec_len answers.old + job_count worker workers jobs ≤ vec_capacity answers.old }
    requires fits { T.fits work.now pass.old (jobs_of worker workers jobs) }
    ensures { Chains (T.gives work.now) (jobs_of worker workers jobs) pass.old answers.new.items pass.new }
{
    let count = count_jobs(worker, workers, jobs);
    for turn in 0..count {
        gate.pass(worker, turn);
        let job = (u64::from(worker) + u64::from(turn) * u64::from(workers)) as u32;
        let answer = work.run(rt, pass, job);
        answers.push_reserved((job, answer));
    }
    gate.pass(worker, count);
}
