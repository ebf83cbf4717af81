ghost use Rattle.std.specs.Prelude.{◌≡◌, ◌≤◌, ◌<◌, [], ◌∷◌, IfOk, Some, length};
ghost use Rattle.qkd_base.specs.Name.{Name};
ghost use Rattle.qkd_base.specs.declared.lane.Way.TheVariants.{Up as UpWay};
ghost use Rattle.net_model.specs.declared.payload.Payload.TheVariants.{Ack};
ghost use Rattle.net_model.specs.Tick.{New};
ghost use Rattle.lane_shares.specs.Names.{knows as has, lane_cap, Fits as IsOne};
ghost use Rattle.shared_objects.specs.declared.either.Either.TheVariants.{Left, Right};
ghost use Rattle.par_lanes.specs.Grants.{IsShareOf};
ghost use Rattle.par_lanes.specs.Emitting.{MayEmit};

use crate::lane::{name, order, side};
use edge_io::Gate;
use lane_sender::{LaneSide, Sent};
use lane_shares::{Share, Shares};
use net_model::Order;
use par_lanes::{AtGate, Emitted, FrameLog, LaneDesk, Lanes, Plan, emit_plan};
use qkd_base::Memory;
use shared_objects::{Calls, Either, Errands, work_scripts};
use source_devices::{MemWire, Wire};
use std::alloc::Global;
use std::slice::from_ref;
use std::sync::Wait;
use std::sync::atomic::{AtomicU64, Ordering};
use std::test::*;
use std::thread::Threads;
use turnstile::Machine;

// A worker that seals waits there until another one seals too.
#[derive(Drop)]
struct Meeting {
    sealing: AtomicU64,
    missed: AtomicU64,
}

impl Gate for Meeting {
    fn pass(&self, _worker: u32, _turn: u32) {}

    fn seal(&self, _link: u8, _offset: u64) {
        self.sealing.fetch_add(1, Ordering::SeqCst);
        for _ in 0..100_000_000u32 {
            if self.sealing.load(Ordering::SeqCst) == 2 {
                return;
            }
        }
        self.missed.store(1, Ordering::SeqCst);
    }
}

// A machine of another kind, which nobody asks anything.
#[derive(Drop)]
struct Manager {
    asked: u64,
}

impl Machine for Manager {
    type Request = u64;

    type Reply = u64;

    type Charter = ();

    ghost charter = { λ m. Prim.tt };

    ghost takes = { λ c request. Unit {0} };

    ghost turns = { λ m request reply n. reply ≡ m.asked };

    fn turn(&mut self, request: u64) -> u64 {
        let reply = self.asked;
        self.asked = request;
        reply
    }
}

// What a worker may put out at one lane, and what came of it.
#[derive(Drop)]
struct Kept {
    granted: Vec<Share>,
    log: FrameLog,
}

// The plan of each line has the same order.
#[derive(Drop)]
struct Lines<'s, 'o> {
    shares: &'s Shares,
    order: &'o Order,
}

impl<'a> Errands<Either<Manager, LaneDesk<'a, MemWire>>> for Lines<'_, '_> {
    type Keep = Kept;

    ghost may = { λ it machines keep jobs. (length jobs ≤ 1)
        × (0 < length jobs → MayEmit machines (λ d. d.side) 1 (λ i. 2) (λ d. d.shares.now) (it.shares.now ∷ []) keep.granted.items (New it.order.now ∷ [])) };

    ghost does = { λ it job keep said next. Unit {0} };

    ghost most = { λ it. 2 };

    fn run<R: Wait, G: Gate, C: Calls<Either<Manager, LaneDesk<'a, MemWire>>>>(
        &self,
        rt: &R,
        gate: &G,
        job: u32,
        caller: &mut C,
        keep: &mut Kept,
    ) {
        let lanes = Lanes {
            first: 1,
            shares: from_ref(self.shares),
        };
        let plan = Plan {
            line: job as usize,
            repeats: &[],
            orders: from_ref(self.order),
        };
        emit_plan(
            rt,
            &AtGate { gate },
            caller,
            &lanes,
            &mut keep.granted,
            &plan,
            &mut keep.log,
        );
    }
}

// A worker that may send an acknowledgement.
fn worker(alloc: Global, grant: Share) -> Result<Kept, Memory>
    ensures { IfOk result (λ kept. kept.granted.items ≡ grant ∷ []) }
{
    let mut granted = Vec::new(alloc);
    granted.push(grant)?;
    Ok(Kept {
        granted,
        log: FrameLog::new(alloc),
    })
}

// Two of them.
fn both(alloc: Global, one: Share, two: Share) -> Result<Vec<Kept>, Memory>
    ensures { IfOk result (λ keeps. (p : _) × (q : _) × (keeps.items ≡ p ∷ q ∷ []) × (p.granted.items ≡ one ∷ []) × (q.granted.items ≡ two ∷ [])) }
{
    let mut keeps = Vec::new(alloc);
    keeps.push(worker(alloc, one)?)?;
    keeps.push(worker(alloc, two)?)?;
    Ok(keeps)
}

// Where a frame's bytes begin, and its length.
fn offset(sent: &Sent) -> (u64, u16) {
    match sent {
        Sent::Placed { offset, length, .. } => (*offset, *length),
        Sent::Unsent { offset, length, .. } => (*offset, *length),
    }
}

// What came of the frame that begins there: its length, its payload's size, its line and the place of its put in the lane's history.
fn told(keeps: &[Kept], from: u64) -> Option<(u16, u16, usize, u64)> {
    for keep in keeps {
        for Emitted {
            line,
            at,
            size,
            sent,
            ..
        } in &keep.log.frames {
            let (offset, length) = offset(sent);
            if offset == from {
                return Some((length, *size, *line, *at));
            }
        }
    }
    None
}

// How many bytes of the lane are spent, and how many frames are on its wire.
fn ends(machines: Vec<Either<Manager, LaneDesk<'_, MemWire>>>) -> (u64, u64) {
    let mut end = (0, 0);
    for machine in machines {
        match machine {
            Either::Left(_) => {}
            Either::Right(desk) => {
                let side = desk.into_side();
                end = (side.counts().spent, side.wire().count());
            }
        }
    }
    end
}

// The lane's desk behind the other machine.
fn machines<'a>(
    alloc: Global,
    desk: LaneDesk<'a, MemWire>,
) -> Result<Vec<Either<Manager, LaneDesk<'a, MemWire>>>, Memory>
    ensures { IfOk result (λ machines. (m : _) × (machines.items ≡ Left m ∷ Right desk.entry ∷ [])) }
{
    let mut machines = Vec::new(alloc);
    machines.push(Either::Left(Manager { asked: 0 }))?;
    machines.push(Either::Right(desk))?;
    Ok(machines)
}

// Both workers send at the same time.
fn send_both<'a, R: Threads + Wait + Sync>(
    rt: &R,
    alloc: Global,
    gate: &Meeting,
    machines: Vec<Either<Manager, LaneDesk<'a, MemWire>>>,
    keeps: Vec<Kept>,
    shares: &Shares,
    order: &Order,
) -> ((u64, u64), Vec<Kept>)
    requires machines { (m : _) × (d : _) × (machines.items ≡ Left m ∷ Right d ∷ []) × (d.shares.now ≡ shares.now) × (d.side.lane ≡ record { link = 0; way = UpWay }) }
    requires keeps { (p : _) × (q : _) × (keeps.items ≡ p ∷ q ∷ []) × ((one : _) × (p.granted.items ≡ one ∷ []) × IsShareOf shares.now 25 one) × ((two : _) × (q.granted.items ≡ two ∷ []) × IsShareOf shares.now 25 two) }
    requires order { (name : Name) × (order.now ≡ record { lane = record { link = 0; way = UpWay }; offset = 0; ack_of = Some 8; payload = Ack name }) }
{
    let lines = Lines { shares, order };
    match work_scripts(rt, alloc, gate, machines, keeps, &lines, 2, 2) {
        Ok((machines, keeps)) => (ends(machines), keeps),
        Err((_, machines, keeps)) => (ends(machines), keeps),
    }
}

// The lane is opened for two workers.
fn play<'a, R: Threads + Wait + Sync>(
    rt: &R,
    alloc: Global,
    gate: &Meeting,
    side: LaneSide<MemWire>,
    shares: &'a Shares,
    issuer: &mut Share,
    order: &Order,
) -> Result<((u64, u64), Vec<Kept>), Memory>
    requires issuer { IsOne shares.now issuer.old × ((has issuer.old).amount ≡ 58) }
    requires cap { lane_cap shares.now ≡ 1024 }
    requires side { (side.lane ≡ record { link = 0; way = UpWay }) × (side.ledger ≡ record { used = 8; end = 8; received = 1024; burnt = 0 }) × (length side.bytes ≡ 1024) }
    requires order { (name : Name) × (order.now ≡ record { lane = record { link = 0; way = UpWay }; offset = 0; ack_of = Some 8; payload = Ack name }) }
{
    let share = shares.split(issuer, 8);
    let one = shares.split(issuer, 25);
    let two = shares.split(issuer, 25);
    let machines = machines(alloc, LaneDesk::new(side, shares, share))?;
    let keeps = both(alloc, one, two)?;
    Ok(send_both(rt, alloc, gate, machines, keeps, shares, order))
}

// Each waits, sealing, for the other to seal, and between them they have the bytes behind the key. Were frames sealed in a turn of
// their lane, the other would wait for this turn to end, and the two would miss each other. Both claims stand before both puts.
#[test]
fn two_workers_seal_on_one_lane_at_once(rt: HostRuntime) -> Result<(), Fail> {
    let order = order(name()?);
    let side = side(rt.alloc())?;
    let (shares, mut issuer) = Shares::open(rt.alloc(), 58, 1024).map_err(|_| "memory")?;
    let meeting = Meeting {
        sealing: AtomicU64::new(0),
        missed: AtomicU64::new(0),
    };
    let (ends, keeps) = play(
        &rt,
        rt.alloc(),
        &meeting,
        side,
        &shares,
        &mut issuer,
        &order,
    )?;
    assert_eq!(rt; meeting.missed.load(Ordering::SeqCst), 0);
    assert_eq!(rt; ends, (58, 2));
    let one = told(&keeps, 8).ok_or("no frame")?;
    let two = told(&keeps, 33).ok_or("no frame")?;
    assert_eq!(rt; ((one.0, one.1), (two.0, two.1)), ((41, 17), (41, 17)));
    assert_eq!(rt; (one.2.min(two.2), one.2.max(two.2)), (0, 1));
    assert_eq!(rt; (one.3.min(two.3), one.3.max(two.3)), (2, 3));
    Ok(())
}
