// Sending a frame by turns of its lane.
ghost use Rattle.std.specs.Prelude.{◌≡◌, ◌-◌, ◌<◌, ◌≤◌};
ghost use Rattle.net_model.specs.Facts.{IsWellFormed};
ghost use Rattle.net_model.specs.Tick.{Again, New};
ghost use Rattle.lane_sender.specs.Lane.{frame_need};
ghost use Rattle.lane_shares.specs.Views.{with_amount};
ghost use Rattle.lane_shares.specs.Names.{knows as has, Fits as IsOne};
ghost use Rattle.par_lanes.specs.Calls.{IsOf};
ghost use Rattle.par_lanes.specs.Saying.{IsDesk, Goes};

use crate::place::payload_name;
use crate::turns::{claim, put};
use crate::{Desk, Emitted, LaneAsk, Seals};
use lane_sender::answered;
use lane_shares::{Share, Shares};
use net_model::{Order, Repeat, spelled_len};
use qkd_base::FrameOctets;
use shared_objects::{Calls, Either};
use std::sync::Wait;
use turnstile::Machine;

/// Sends an order's frame. A turn of the lane claims the frame's bytes, and the caller's grant falls by as many. The frame is
/// sealed outside of any turn, and the gate is told of it. Another turn puts the frame on the wire. If the wire refuses the
/// frame, its bytes stay claimed.
pub fn claim_and_seal<R: Wait, S: Seals, M: Machine, D: Desk, C: Calls<Either<M, D>>>(
    rt: &R,
    seals: &S,
    caller: &mut C,
    machine: usize,
    shares: &Shares,
    granted: &mut Share,
    line: usize,
    order: &Order,
) -> Emitted
    requires placed { C.placed caller.old }
    requires desk { (d : D) × IsDesk (C.openings caller.old) machine d × ((D.shares d) ≡ shares.now) × ((D.side d).lane ≡ order.now.lane) }
    requires budget { 2 ≤ C.budget caller.old machine }
    requires grant { IsOne shares.now granted.old }
    requires granted { frame_need order.now.payload ≤ (has granted.old).amount }
    requires formed { IsWellFormed order.now.payload }
    ensures placed { C.placed caller.new }
    ensures grant { IsOne shares.now granted.new }
    ensures granted { has granted.new ≡ with_amount (has granted.old) ((has granted.old).amount - frame_need order.now.payload) }
    ensures goes { Goes (λ said. C.went caller.old said caller.new) (C.openings caller.old) D.side machine (New order.now) result }
    ensures told { IsOf line (New order.now) result }
{
    let size = spelled_len(&order.payload);
    let need = u64::from(size) + 8;
    let grant = shares.split(granted, need);
    let (_, claimed) = claim(rt, caller, machine, need, grant);
    let offset = claimed.range.start();
    seals.seal(order.lane.link.get(), offset);
    let mut frame = FrameOctets::new();
    let length = claimed.seal(order.lane, &order.payload, &mut frame);
    let (at, answer) = put(rt, caller, machine, LaneAsk::Put { frame, length });
    Emitted {
        line,
        lane: order.lane,
        at,
        name: payload_name(&order.payload),
        ack_of: order.ack_of,
        fresh: true,
        size,
        sent: answered(offset, length, &frame, answer),
    }
}

/// Puts a frame on the wire again, by one turn of the lane. This is the frame with the repeat's number. If the wire has no
/// such frame, the repeat's own octets are put. No byte is claimed.
pub fn put_again<R: Wait, M: Machine, D: Desk, C: Calls<Either<M, D>>>(
    rt: &R,
    caller: &mut C,
    machine: usize,
    line: usize,
    repeat: &Repeat,
) -> Emitted
    requires placed { C.placed caller.old }
    requires desk { (d : D) × IsDesk (C.openings caller.old) machine d }
    requires budget { 0 < C.budget caller.old machine }
    requires short { repeat.now.length ≤ 600 }
    ensures placed { C.placed caller.new }
    ensures goes { Goes (λ said. C.went caller.old said caller.new) (C.openings caller.old) D.side machine (Again repeat.now) result }
    ensures told { IsOf line (Again repeat.now) result }
{
    let ask = LaneAsk::Again {
        number: repeat.number,
        frame: repeat.frame,
        length: repeat.length,
    };
    let (at, answer) = put(rt, caller, machine, ask);
    Emitted {
        line,
        lane: repeat.lane,
        at,
        name: repeat.name,
        ack_of: repeat.ack_of,
        fresh: false,
        size: repeat.length.saturating_sub(24),
        sent: answered(repeat.offset, repeat.length, &repeat.frame, answer),
    }
}
