// Sending the frames of a plan.
ghost use Rattle.std.specs.Prelude.{◌≡◌, [], ◌∷◌, ◌++◌, List, map};
ghost use Rattle.net_model.specs.Tick.{Emission, Again, New};
ghost use Rattle.lane_shares.specs.declared.share.Share.{Share as ShareValue};
ghost use Rattle.par_lanes.specs.Wants.{wanted};
ghost use Rattle.par_lanes.specs.Emitting.{MayEmit, HasEmitted};

use crate::frame_turns::{claim_and_seal, put_again};
use crate::place::place_of;
use crate::{Desk, FrameLog, Lanes, Plan, Seals};
use lane_shares::Share;
use net_model::{Order, Repeat};
use shared_objects::{Calls, Either};
use std::sync::Wait;
use turnstile::Machine;

// Puts the frame of a repeat on its wire again.
fn emit_repeat<R: Wait, M: Machine, D: Desk, C: Calls<Either<M, D>>>(
    rt: &R,
    caller: &mut C,
    lanes: &Lanes<'_>,
    line: usize,
    repeat: &Repeat,
    log: &mut FrameLog,
)
    requires placed { C.placed caller.old }
    requires may { (granted : List ShareValue) × (es : List Emission) × MayEmit (C.openings caller.old) D.side lanes.now.first (λ i. C.budget caller.old i) D.shares lanes.now.shares.now granted (Again repeat.now ∷ es) }
    ensures placed { C.placed caller.new }
    ensures emitted { (granted : List ShareValue) → HasEmitted (C.openings caller.old) D.side lanes.now.first (λ said. C.went caller.old said caller.new) line (Again repeat.now ∷ []) granted log.old granted log.new }
    ensures rest { (granted : List ShareValue) (es : List Emission) → MayEmit (C.openings caller.old) D.side lanes.now.first (λ i. C.budget caller.old i) D.shares lanes.now.shares.now granted (Again repeat.now ∷ es)
        → MayEmit (C.openings caller.new) D.side lanes.now.first (λ i. C.budget caller.new i) D.shares lanes.now.shares.now granted es }
{
    let at = place_of(repeat.lane);
    let machine = lanes.first + at;
    let frame = put_again(rt, caller, machine, line, repeat);
    log.add(frame);
}

// Sends the frame of an order.
fn emit_order<R: Wait, S: Seals, M: Machine, D: Desk, C: Calls<Either<M, D>>>(
    rt: &R,
    seals: &S,
    caller: &mut C,
    lanes: &Lanes<'_>,
    granted: &mut [Share],
    line: usize,
    order: &Order,
    log: &mut FrameLog,
)
    requires placed { C.placed caller.old }
    requires may { (es : List Emission) × MayEmit (C.openings caller.old) D.side lanes.now.first (λ i. C.budget caller.old i) D.shares lanes.now.shares.now granted.old (New order.now ∷ es) }
    ensures placed { C.placed caller.new }
    ensures emitted { HasEmitted (C.openings caller.old) D.side lanes.now.first (λ said. C.went caller.old said caller.new) line (New order.now ∷ []) granted.old log.old granted.new log.new }
    ensures rest { (es : List Emission) → MayEmit (C.openings caller.old) D.side lanes.now.first (λ i. C.budget caller.old i) D.shares lanes.now.shares.now granted.old (New order.now ∷ es)
        → MayEmit (C.openings caller.new) D.side lanes.now.first (λ i. C.budget caller.new i) D.shares lanes.now.shares.now granted.new es }
{
    let at = place_of(order.lane);
    let machine = lanes.first + at;
    let frame = claim_and_seal(
        rt,
        seals,
        caller,
        machine,
        &lanes.shares[at],
        &mut granted[at],
        line,
        order,
    );
    log.add(frame);
}

// Puts the frames of repeats on their wires again, in order.
fn emit_repeats<R: Wait, M: Machine, D: Desk, C: Calls<Either<M, D>>>(
    rt: &R,
    caller: &mut C,
    lanes: &Lanes<'_>,
    line: usize,
    repeats: &[Repeat],
    log: &mut FrameLog,
)
    requires placed { C.placed caller.old }
    requires may { (granted : List ShareValue) × (es : List Emission) × MayEmit (C.openings caller.old) D.side lanes.now.first (λ i. C.budget caller.old i) D.shares lanes.now.shares.now granted ((map Again repeats.now) ++ es) }
    ensures placed { C.placed caller.new }
    ensures emitted { (granted : List ShareValue) → HasEmitted (C.openings caller.old) D.side lanes.now.first (λ said. C.went caller.old said caller.new) line (map Again repeats.now) granted log.old granted log.new }
    ensures rest { (granted : List ShareValue) (es : List Emission) → MayEmit (C.openings caller.old) D.side lanes.now.first (λ i. C.budget caller.old i) D.shares lanes.now.shares.now granted ((map Again repeats.now) ++ es)
        → MayEmit (C.openings caller.new) D.side lanes.now.first (λ i. C.budget caller.new i) D.shares lanes.now.shares.now granted es }
{
    for repeat in repeats {
        emit_repeat(rt, caller, lanes, line, repeat, log);
    }
}

// Sends the frames of orders, in order.
fn emit_orders<R: Wait, S: Seals, M: Machine, D: Desk, C: Calls<Either<M, D>>>(
    rt: &R,
    seals: &S,
    caller: &mut C,
    lanes: &Lanes<'_>,
    granted: &mut [Share],
    line: usize,
    orders: &[Order],
    log: &mut FrameLog,
)
    requires placed { C.placed caller.old }
    requires may { (es : List Emission) × MayEmit (C.openings caller.old) D.side lanes.now.first (λ i. C.budget caller.old i) D.shares lanes.now.shares.now granted.old ((map New orders.now) ++ es) }
    ensures placed { C.placed caller.new }
    ensures emitted { HasEmitted (C.openings caller.old) D.side lanes.now.first (λ said. C.went caller.old said caller.new) line (map New orders.now) granted.old log.old granted.new log.new }
    ensures rest { (es : List Emission) → MayEmit (C.openings caller.old) D.side lanes.now.first (λ i. C.budget caller.old i) D.shares lanes.now.shares.now granted.old ((map New orders.now) ++ es)
        → MayEmit (C.openings caller.new) D.side lanes.now.first (λ i. C.budget caller.new i) D.shares lanes.now.shares.now granted.new es }
{
    for order in orders {
        emit_order(rt, seals, caller, lanes, granted, line, order, log);
    }
}

/// Sends all frames of a plan. First come its repeats in order, each by one turn of its lane. Then come its orders in order,
/// each by two turns; between them the frame is sealed, and the gate is told. What the worker was granted on a lane falls by
/// the bytes of its orders there. The log gets what came of each frame, after its older entries. If the log runs out of
/// memory, it isn't whole any more, but all frames are sent.
pub fn emit_plan<R: Wait, S: Seals, M: Machine, D: Desk, C: Calls<Either<M, D>>>(
    rt: &R,
    seals: &S,
    caller: &mut C,
    lanes: &Lanes<'_>,
    granted: &mut [Share],
    plan: &Plan<'_>,
    log: &mut FrameLog,
)
    requires placed { C.placed caller.old }
    requires may { (es : List Emission) × MayEmit (C.openings caller.old) D.side lanes.now.first (λ i. C.budget caller.old i) D.shares lanes.now.shares.now granted.old ((wanted plan.now.repeats.now plan.now.orders.now) ++ es) }
    ensures placed { C.placed caller.new }
    ensures emitted { HasEmitted (C.openings caller.old) D.side lanes.now.first (λ said. C.went caller.old said caller.new) plan.now.line (wanted plan.now.repeats.now plan.now.orders.now) granted.old log.old granted.new log.new }
    ensures rest { (es : List Emission) → MayEmit (C.openings caller.old) D.side lanes.now.first (λ i. C.budget caller.old i) D.shares lanes.now.shares.now granted.old ((wanted plan.now.repeats.now plan.now.orders.now) ++ es)
        → MayEmit (C.openings caller.new) D.side lanes.now.first (λ i. C.budget caller.new i) D.shares lanes.now.shares.now granted.new es }
{
    let line = plan.line;
    emit_repeats(rt, caller, lanes, line, plan.repeats, log);
    emit_orders(rt, seals, caller, lanes, granted, line, plan.orders, log);
}
