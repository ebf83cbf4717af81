ghost use Rattle.std.specs.Prelude.{ℕ, ◌≤◌, ◌<◌, List, ◌∷◌, length};
ghost use Rattle.shared_objects.specs.Said.{Said, said_on};

use crate::script_calls::Calls;
use edge_io::Gate;
use std::sync::Wait;
use turnstile::Machine;

/// Jobs that call machines. Each request of a job may depend on the replies before it.
pub trait Errands<M: Machine>: Sync {
    /// What a worker keeps from job to job.
    type Keep: Send + Drop;

    /// Whether a worker that keeps this may do these jobs, at machines that began as these.
    ghost may: { Self → List M → Self.Keep → List ℕ → Type 0 };

    /// The result of a job: a relation of the job, what the worker kept before, what was said with the machines, and what it
    /// keeps after.
    ghost does: { Self → ℕ → Self.Keep → List (Said M.Request M.Reply) → Self.Keep → Type 0 };

    /// The most calls that one job makes of any one machine.
    ghost most: { Self → ℕ };

    /// Does one job, the first of a list that the worker may do. Afterwards the worker may do the rest of each such list. The
    /// job may wait for other workers, and it tells the gate what it seals.
    fn run<R: Wait, G: Gate, C: Calls<M>>(
        &self,
        rt: &R,
        gate: &G,
        job: u32,
        caller: &mut C,
        keep: &mut Self::Keep,
    )
        requires may { (rest : List ℕ) × may self.now (C.openings caller.old) keep.old (job ∷ rest) }
        requires placed { C.placed caller.old }
        requires budget { (i : ℕ) → i < length (C.openings caller.old) → most self.now ≤ C.budget caller.old i }
        ensures placed { C.placed caller.new }
        ensures does { (said : List (Said M.Request M.Reply)) × does self.now job keep.old said keep.new × C.went caller.old said caller.new × ((i : ℕ) → length (said_on i said) ≤ most self.now) }
        ensures rest { (rest : List ℕ) → may self.now (C.openings caller.old) keep.old (job ∷ rest) → may self.now (C.openings caller.old) keep.new rest };
}
