// The calls of each worker of a block of lines: of managers for its jobs' turns, and of lanes for the frames of replied
ghost use Rattle.std.specs.Prelude.{◌≡◌, ◌<◌, ℕ, List, Some, length, slice_get, IfSome};
ghost use Rattle.std.specs.List.{AllByRecursion};
ghost use Rattle.block_run.specs.Jobs.{Chains, jobs_of};
ghost use Rattle.turnstile.specs.Turns.{turn_of};
ghost use Rattle.lane_sender.specs.Lane.{LaneForm};
ghost use Rattle.shared_objects.specs.declared.either.Either.{Either as OneOf};
ghost use Rattle.shared_objects.specs.Sides.{charter_of, TakesOn, TurnsOn};
ghost use Rattle.shared_objects.specs.Said.{Said, all_said};
ghost use Rattle.shared_objects.specs.Done.{AreDone};
ghost use Rattle.par_managers.specs.declared.keep.Keep.{Keep as KeepValue};
ghost use Rattle.par_managers.specs.Doing.{Ask, Answer, DoesJob};
ghost use Rattle.par_managers.specs.Talking.{HasTalked};
ghost use Rattle.par_managers.specs.Together.{HaveWorked};

use crate::{PlanAnswer, PlanAsk};
use par_lanes::{LaneAnswer, LaneAsk};
use turnstile::Machine;

/// A worker does its jobs in order. It calls a manager just for the turns that its shift asks of it. It calls a lane just to
/// send the frames of plans that were replied to it. It keeps the replies and the records of these frames.
pub fn law_a_worker_talks<X>()
    ensures { (lanes : List (LaneForm X)) (first : ℕ) (jobs : List ℕ) (keep next : KeepValue) (talk : List (ℕ × List (Said Ask Answer))) → Chains (DoesJob lanes first) jobs keep talk next →
        length keep.shift.items ≡ length jobs → AllByRecursion (λ entry. IfSome entry (λ call. call.machine < first)) keep.shift.items →
        HasTalked lanes first keep (all_said talk) next }
{}

/// The workers of a block have done their jobs. The first machines are managers, those after them lanes. Then each worker
/// keeps its replies and the records of its frames. The history of each machine is a merge of the workers' calls of it.
pub fn law_workers_talk<
    'a,
    M: Machine<Request = PlanAsk<'a>, Reply = PlanAnswer>,
    N: Machine<Request = LaneAsk, Reply = LaneAnswer>,
    X,
>()
    ensures { (lanes : List (LaneForm X)) (first jobs : ℕ) (keeps : List KeepValue) (machines : List (OneOf M N)) (nexts : List KeepValue) (after : List (OneOf M N)) →
        AreDone (turn_of (charter_of M.charter N.charter) (TakesOn M.takes N.takes) (TurnsOn M.turns N.turns)) (DoesJob lanes first) jobs keeps machines nexts after →
        ((w : ℕ) (keep : KeepValue) → slice_get keeps w ≡ Some keep → (length keep.shift.items ≡ length (jobs_of w (length keeps) jobs)) × AllByRecursion (λ entry. IfSome entry (λ call. call.machine < first)) keep.shift.items) →
        HaveWorked (turn_of M.charter M.takes M.turns) (turn_of N.charter N.takes N.turns) lanes first keeps machines nexts after }
{}
