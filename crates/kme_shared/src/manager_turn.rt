// A manager takes a turn, and the frames of its plan go out.
ghost use Rattle.std.specs.Prelude.{◌≡◌, ℕ, ◌+◌, ◌^◌, ◌<◌, ◌≤◌, [], ◌∷◌, length};
ghost use Rattle.std.specs.List.{AllZip};
ghost use Rattle.net_model.specs.Action.{Replies};
ghost use Rattle.run_model.specs.Works.{wanted_put};
ghost use Rattle.lane_shares.specs.Names.{Fits};
ghost use Rattle.shared_objects.specs.declared.either.Either.TheVariants.{Left};
ghost use Rattle.shared_objects.specs.Calling.{IsLeft};
ghost use Rattle.par_lanes.specs.Wants.{turns_at};
ghost use Rattle.par_lanes.specs.Emitting.{HasEmitted};
ghost use Rattle.kme_shared.specs.Granting.{AreHome};

use crate::manages::Manages;
use crate::plan::plan_of;
use lane_shares::Share;
use par_lanes::{Desk, FrameLog, Lanes, Seals, emit_plan};
use par_managers::{PlanAnswer, Replied};
use run_ops::Turned;
use shared_objects::{Call, Calls, Either, call_left};
use std::sync::Wait;
use turnstile::Machine;

/// A manager takes the requested turn, for the line in this place. The request carries the worker's shares of the lanes; the reply gives
/// them back with the bytes that the manager's plan orders. Then the worker puts out the frames that the reply wants, under these shares.
pub fn turn_and_put<R: Wait, S: Seals, M: Manages, D: Desk, C: Calls<Either<M, D>>>(
    rt: &R,
    seals: &S,
    caller: &mut C,
    lanes: &Lanes<'_>,
    place: usize,
    call: Call<M::Request>,
    granted: &mut Vec<Share>,
    log: &mut FrameLog,
) -> Replied
    requires placed { C.placed caller.old }
    requires manager { (m : M) × IsLeft (C.openings caller.old) call.machine m × M.takes (M.charter m) call.request × (M.shares m ≡ lanes.now.shares.now)
        × AreHome (C.openings caller.old) D.side D.shares lanes.now.first lanes.now.shares.now (M.site m) }
    requires budget { (i : ℕ) → i < length (C.openings caller.old) → 2 ^ 21 + 1 ≤ C.budget caller.old i }
    ensures placed { C.placed caller.new }
    ensures did { (answer : _) × (result ≡ record { node = call.machine; at = result.at; turned = record { place = place; reply = answer.reply } })
        × HasEmitted (C.openings caller.old) D.side lanes.now.first (λ said. C.went caller.old (record { machine = call.machine; place = result.at; request = Left call.request; reply = Left answer } ∷ said) caller.new)
        result.turned.place (wanted_put (Replies result.turned.reply)) answer.granted.items log.old granted.new.items log.new }
    ensures few { (i : ℕ) → turns_at i (wanted_put (Replies result.turned.reply)) ≤ 2 ^ 21 }
    ensures fits { AllZip Fits lanes.now.shares.now granted.new.items }
{
    let Call { machine, request } = call;
    let (at, answer) = call_left(rt, caller, machine, request);
    let PlanAnswer {
        reply,
        granted: back,
    } = answer;
    *granted = back;
    let turned = Turned { place, reply };
    let plan = plan_of(&turned);
    emit_plan(rt, seals, caller, lanes, granted.as_mut_slice(), &plan, log);
    Replied {
        node: machine,
        at,
        turned,
    }
}

/// Calls no machine. This is a function of its own because a method of a trait can't use the laws of its caller's bound.
pub fn say_nothing<M: Machine, D: Machine, C: Calls<Either<M, D>>>(caller: &mut C)
    requires placed { C.placed caller.old }
    ensures placed { C.placed caller.new }
    ensures went { C.went caller.old [] caller.new }
{}
