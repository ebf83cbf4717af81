// Calls of a machine on the left or on the right.
ghost use Rattle.std.specs.Prelude.{◌≡◌, ◌<◌, [], ◌∷◌};
ghost use Rattle.turnstile.specs.Turns.{turn_of};
ghost use Rattle.shared_objects.specs.declared.either.Either.TheVariants.{Left, Right};
ghost use Rattle.shared_objects.specs.Calling.{IsLeft, IsRight, HasTurned};

use crate::{Calls, Either};
use std::sync::Wait;
use turnstile::Machine;

/// Calls a machine on the left that takes the request. Returns the call's place in the machine's history, and the reply.
pub fn call_left<R: Wait, A: Machine, B: Machine, C: Calls<Either<A, B>>>(
    rt: &R,
    caller: &mut C,
    machine: usize,
    request: A::Request,
) -> (u64, A::Reply)
    requires placed { C.placed caller.old }
    requires taken { (m : A) × IsLeft (C.openings caller.old) machine m × A.takes (A.charter m) request }
    requires budget { 0 < C.budget caller.old machine }
    ensures placed { C.placed caller.new }
    ensures went { C.went caller.old (record { machine = machine; place = result.0; request = Left request; reply = Left result.1 } ∷ []) caller.new }
    ensures answered { (m : A) → IsLeft (C.openings caller.old) machine m → HasTurned (turn_of A.charter A.takes A.turns) m request result.1 }
{
    let (place, reply) = caller.call(rt, machine, Either::Left(request));
    (place, reply.into_left())
}

/// Calls a machine on the right that takes the request. Returns the call's place in the machine's history, and the reply.
pub fn call_right<R: Wait, A: Machine, B: Machine, C: Calls<Either<A, B>>>(
    rt: &R,
    caller: &mut C,
    machine: usize,
    request: B::Request,
) -> (u64, B::Reply)
    requires placed { C.placed caller.old }
    requires taken { (m : B) × IsRight (C.openings caller.old) machine m × B.takes (B.charter m) request }
    requires budget { 0 < C.budget caller.old machine }
    ensures placed { C.placed caller.new }
    ensures went { C.went caller.old (record { machine = machine; place = result.0; request = Right request; reply = Right result.1 } ∷ []) caller.new }
    ensures answered { (m : B) → IsRight (C.openings caller.old) machine m → HasTurned (turn_of B.charter B.takes B.turns) m request result.1 }
{
    let (place, reply) = caller.call(rt, machine, Either::Right(request));
    (place, reply.into_right())
}
