ghost use Rattle.std.specs.Prelude.{◌≡◌, ◌+◌, ◌%◌, ◌^◌, ◌≤◌};

use crate::parts::Meeting;
use block_run::{BlockEnd, Work, run_block};
use edge_io::{Gate, OpenGate};
use qkd_base::Memory;
use std::alloc::Global;
use std::sync::Wait;
use std::sync::atomic::{AtomicU64, Ordering};
use std::test::*;

// A job adds its number to its worker's sum, and answers the sum.
struct Sums;

impl Work for Sums {
    type Pass = u64;

    type Answer = u64;

    ghost fits = { λ w pass jobs. Unit {0} };

    ghost gives = { λ w job pass answer next. (next ≡ (pass + job) % 2 ^ 64) × (answer ≡ next) };

    fn run<R: Wait>(&self, _rt: &R, pass: &mut u64, job: u32) -> u64 {
        *pass = pass.wrapping_add(u64::from(job));
        *pass
    }
}

// What the workers leave, and what they answer: worker by worker, each job with its worker's sum so far.
fn expected(alloc: Global, workers: u32, jobs: u32) -> Result<(Vec<u64>, Vec<(u32, u64)>), Memory>
    requires { workers ≤ 32 }
{
    let mut sums = Vec::new(alloc);
    let mut answers = Vec::new(alloc);
    for worker in 0..workers {
        let mut sum = 0u64;
        for job in 0..jobs {
            if job % workers == worker {
                sum = sum.wrapping_add(u64::from(job));
                answers.push((job, sum))?;
            }
        }
        sums.push(sum)?;
    }
    Ok((sums, answers))
}

#[test]
fn each_job_is_done_once_in_its_workers_order(rt: HostRuntime) -> Result<(), Fail> {
    for (workers, jobs) in [(1, 0), (1, 5), (2, 1), (3, 10), (32, 31), (32, 1000)] {
        let given = vec![in rt.alloc(); 0; workers as usize]?;
        let ended = run_block(&rt, rt.alloc(), &Sums, given, jobs, &OpenGate);
        let BlockEnd { passes, answers } = ended.ok().ok_or("memory")?;
        let (sums, told) = expected(rt.alloc(), workers, jobs)?;
        assert_eq!(rt; passes, sums);
        assert_eq!(rt; answers, told);
    }
    Ok(())
}

#[test]
fn two_workers_are_inside_at_once(rt: HostRuntime) -> Result<(), Fail> {
    let meeting = Meeting::new();
    let given = vec![in rt.alloc(); 0; 2]?;
    let ended = run_block(&rt, rt.alloc(), &Sums, given, 2, &meeting);
    let BlockEnd { passes, answers } = ended.ok().ok_or("memory")?;
    assert_eq!(rt; (passes.len(), answers.len()), (2, 2));
    assert!(rt; !meeting.is_missed());
    Ok(())
}

// Counts how often each of two workers came by, and whether one came under another number than its next.
#[derive(Drop)]
struct Tally {
    first: AtomicU64,
    second: AtomicU64,
    wrong: AtomicU64,
}

impl Tally {
    fn passed(&self, worker: u32) -> &AtomicU64 {
        if worker == 0 {
            &self.first
        } else {
            &self.second
        }
    }
}

impl Gate for Tally {
    fn pass(&self, worker: u32, turn: u32) {
        let before = self.passed(worker).fetch_add(1, Ordering::SeqCst);
        if worker > 1 || before != u64::from(turn) {
            self.wrong.store(1, Ordering::SeqCst);
        }
    }

    fn seal(&self, _link: u8, _offset: u64) {
        self.wrong.store(1, Ordering::SeqCst);
    }
}

// A job answers how often its worker had passed the gate.
#[derive(Drop)]
struct Watch<'a> {
    gate: &'a Tally,
}

impl Work for Watch<'_> {
    type Pass = u32;

    type Answer = u64;

    ghost fits = { λ w pass jobs. Unit {0} };

    ghost gives = { λ w job pass answer next. next ≡ pass };

    fn run<R: Wait>(&self, _rt: &R, pass: &mut u32, _job: u32) -> u64 {
        self.gate.passed(*pass).load(Ordering::SeqCst)
    }
}

#[test]
fn the_gate_is_passed_before_each_job_and_after_the_last(rt: HostRuntime) -> Result<(), Fail> {
    let gate = Tally {
        first: AtomicU64::new(0),
        second: AtomicU64::new(0),
        wrong: AtomicU64::new(0),
    };
    let workers = vec![in rt.alloc(); 0, 1]?;
    let ended = run_block(&rt, rt.alloc(), &Watch { gate: &gate }, workers, 5, &gate);
    let BlockEnd { passes, answers } = ended.ok().ok_or("memory")?;
    assert_eq!(rt; passes, vec![in rt.alloc(); 0, 1]?);
    assert_eq!(rt;
        answers,
        vec![in rt.alloc(); (0, 1), (2, 2), (4, 3), (1, 1), (3, 2)]?
    );
    assert_eq!(rt; gate.first.load(Ordering::SeqCst), 4);
    assert_eq!(rt; gate.second.load(Ordering::SeqCst), 3);
    assert_eq!(rt; gate.wrong.load(Ordering::SeqCst), 0);
    Ok(())
}
