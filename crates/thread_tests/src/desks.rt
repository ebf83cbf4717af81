ghost use Rattle.std.specs.Prelude.{◌≡◌};
ghost use Rattle.qkd_base.specs.Name.{Name};
ghost use Rattle.net_model.specs.declared.payload.Payload.TheVariants.{Ack};
ghost use Rattle.par_lanes.specs.Grants.{IsShareOf};

use crate::lane::{name, order, side};
use lane_shares::{Share, Shares};
use net_model::Order;
use par_lanes::{LaneAnswer, LaneAsk, LaneDesk};
use qkd_base::FrameOctets;
use source_devices::{MemWire, Wire};
use std::test::*;
use turnstile::Machine;

// Sends an order's frame by two turns, one that claims and one that puts, and seals it between them.
fn send(desk: &mut LaneDesk<'_, MemWire>, grant: Share, order: &Order) -> (u64, u16, bool)
    requires grant { IsShareOf desk.old.shares.now 25 grant }
    requires ack { (name : Name) × (order.now.payload ≡ Ack name) }
    ensures shares { desk.new.shares.now ≡ desk.old.shares.now }
{
    let claimed = match desk.turn(LaneAsk::Claim { need: 25, grant }) {
        LaneAnswer::Claimed { claimed } => claimed,
        LaneAnswer::Placed { .. } => unreachable!(),
    };
    let offset = claimed.range.start();
    let mut frame = FrameOctets::new();
    let length = claimed.seal(order.lane, &order.payload, &mut frame);
    match desk.turn(LaneAsk::Put { frame, length }) {
        LaneAnswer::Placed { answer } => (offset, length, answer.is_ok()),
        LaneAnswer::Claimed { .. } => unreachable!(),
    }
}

// They have the bytes behind the key, one behind the other.
#[test]
fn frames_go_out_by_two_turns_each(rt: HostRuntime) -> Result<(), Fail> {
    let order = order(name()?);
    let side = side(rt.alloc())?;
    let (shares, mut issuer) = Shares::open(rt.alloc(), 58, 1024).map_err(|_| "memory")?;
    let share = shares.split(&mut issuer, 8);
    let one = shares.split(&mut issuer, 25);
    let two = shares.split(&mut issuer, 25);
    let mut desk = LaneDesk::new(side, &shares, share);
    assert_eq!(rt; send(&mut desk, one, &order), (8, 41, true));
    assert_eq!(rt; send(&mut desk, two, &order), (33, 41, true));
    let side = desk.into_side();
    assert_eq!(rt; (side.counts().spent, side.wire().count()), (58, 2));
    Ok(())
}
