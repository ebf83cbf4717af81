// Turns of a lane's desk, among other machines.
ghost use Rattle.std.specs.Prelude.{◌≡◌, ◌<◌, ◌≤◌, ℕ, [], ◌∷◌, take, drop, Result as ResultValue};
ghost use Rattle.source_devices.specs.declared.wire.WireFailed.{WireFailed as WireFailedValue};
ghost use Rattle.hop_frames.specs.Frame.{hash_key};
ghost use Rattle.lane_sender.specs.declared.claimed.Claimed.{Claimed as ClaimedValue};
ghost use Rattle.par_lanes.specs.declared.ask.LaneAsk.TheVariants as asks;
ghost use Rattle.par_lanes.specs.declared.ask.LaneAnswer.TheVariants as answers;
ghost use Rattle.par_lanes.specs.Grants.{IsShareOf};
ghost use Rattle.par_lanes.specs.Saying.{IsDesk, IsFrame, turn_said};

use crate::{Desk, LaneAnswer, LaneAsk};
use lane_sender::Claimed;
use lane_shares::Share;
use shared_objects::{Calls, Either, call_right};
use source_devices::WireFailed;
use std::sync::Wait;
use turnstile::Machine;

// The claim, from the answer to a request for one.
fn claimed_of(answer: LaneAnswer) -> Claimed
    requires { (claimed : ClaimedValue) × (answer ≡ answers.Claimed claimed) }
    ensures { answer ≡ answers.Claimed result }
{
    match answer {
        LaneAnswer::Claimed { claimed } => claimed,
        LaneAnswer::Placed { .. } => unreachable!(),
    }
}

// The wire's answer to a frame that was put.
fn placed_of(answer: LaneAnswer) -> Result<u64, WireFailed>
    requires { (said : ResultValue ℕ WireFailedValue) × (answer ≡ answers.Placed said) }
    ensures { answer ≡ answers.Placed result }
{
    match answer {
        LaneAnswer::Placed { answer } => answer,
        LaneAnswer::Claimed { .. } => unreachable!(),
    }
}

/// A turn that claims the next bytes of a lane; `machine` is the place of the lane's desk. Returns the turn's place in the
/// desk's history, and the claim.
pub fn claim<R: Wait, M: Machine, D: Desk, C: Calls<Either<M, D>>>(
    rt: &R,
    caller: &mut C,
    machine: usize,
    need: u64,
    grant: Share,
) -> (u64, Claimed)
    requires placed { C.placed caller.old }
    requires desk { (d : D) × IsDesk (C.openings caller.old) machine d × IsShareOf (D.shares d) need grant }
    requires budget { 0 < C.budget caller.old machine }
    requires some { 0 < need }
    requires short { need ≤ 600 }
    ensures placed { C.placed caller.new }
    ensures went { C.went caller.old (turn_said machine result.0 (asks.Claim need grant) (answers.Claimed result.1) ∷ []) caller.new }
    ensures length { result.1.range.len ≡ need }
    ensures given { (d : D) → IsDesk (C.openings caller.old) machine d → (result.1.key ≡ hash_key (D.side d).bytes) × (take need result.1.pads.octets ≡ take need (drop result.1.range.start (D.side d).bytes)) }
{
    let (place, answer) = call_right(rt, caller, machine, LaneAsk::Claim { need, grant });
    (place, claimed_of(answer))
}

/// A turn that puts a frame on a lane's wire; `machine` is the place of the lane's desk. Returns the turn's place in the
/// desk's history, and the wire's answer.
pub fn put<R: Wait, M: Machine, D: Desk, C: Calls<Either<M, D>>>(
    rt: &R,
    caller: &mut C,
    machine: usize,
    ask: LaneAsk,
) -> (u64, Result<u64, WireFailed>)
    requires placed { C.placed caller.old }
    requires desk { (d : D) × IsDesk (C.openings caller.old) machine d }
    requires budget { 0 < C.budget caller.old machine }
    requires frame { IsFrame ask }
    ensures placed { C.placed caller.new }
    ensures went { C.went caller.old (turn_said machine result.0 ask (answers.Placed result.1) ∷ []) caller.new }
{
    let (place, answer) = call_right(rt, caller, machine, ask);
    (place, placed_of(answer))
}
