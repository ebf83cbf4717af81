ghost use Rattle.std.specs.Prelude.{List, ℕ, ◌∷◌};

use std::sync::Wait;

/// A block of jobs. Each worker does some of them over a pass of its own.
pub trait Work: Sync {
    /// What a worker keeps from job to job.
    type Pass: Send;

    /// What a job answers.
    type Answer: Send + Drop;

    /// Which pass fits a list of jobs.
    ghost fits: { Self → Self.Pass → List ℕ → Type 0 };

    /// The result of a job: a relation of the job, the pass before, the answer and the pass after.
    ghost gives: { Self → ℕ → Self.Pass → Self.Answer → Self.Pass → Type 0 };

    /// Does one job, over a pass that fits a list of jobs beginning with this one. Afterwards the pass fits the rest of each
    /// such list. The job may wait for other workers.
    fn run<R: Wait>(&self, rt: &R, pass: &mut Self::Pass, job: u32) -> Self::Answer
        requires fits { (rest : List ℕ) × fits self.now pass.old (job ∷ rest) }
        ensures gives { gives self.now job pass.old result pass.new }
        ensures rest { (rest : List ℕ) → fits self.now pass.old (job ∷ rest) → fits self.now pass.new rest };
}
