ghost use Rattle.std.specs.Prelude.{◌≡◌, ◌+◌, ◌%◌, ◌^◌, ℕ, [], ◌∷◌, length};

use crate::parts::{Sum, sums};
use edge_io::{Gate, OpenGate};
use shared_objects::{Calls, Errands, work_scripts};
use std::sync::Wait;
use std::sync::atomic::{AtomicU64, Ordering};
use std::test::*;

// A job draws a ticket from the first machine, and adds it at the second one and to what its worker keeps. It stands at the
// gate between the two calls.
struct Tickets;

impl Errands<Sum> for Tickets {
    type Keep = u64;

    ghost may = { λ t machines keep jobs. length machines ≡ 2 };

    ghost does = { λ t job keep said next. (ticket : ℕ) × (reply : ℕ) × (first : ℕ) × (second : ℕ) × (next ≡ (keep + ticket) % 2 ^ 64)
        × (said ≡ record { machine = 0; place = first; request = 1; reply = ticket } ∷ record { machine = 1; place = second; request = ticket; reply = reply } ∷ []) };

    ghost most = { λ t. 1 };

    fn run<R: Wait, G: Gate, C: Calls<Sum>>(
        &self,
        rt: &R,
        gate: &G,
        _job: u32,
        caller: &mut C,
        keep: &mut u64,
    ) {
        let (_, ticket) = caller.call(rt, 0, 1);
        gate.seal(0, ticket);
        caller.call(rt, 1, ticket);
        *keep = keep.wrapping_add(ticket);
    }
}

// Run with an allocation that fails, it ends at the refusal.
#[test]
fn each_ticket_is_drawn_and_added_once(rt: HostRuntime) -> Result<(), Fail> {
    let (Ok(machines), Ok(keeps)) = (sums(rt.alloc()), vec![in rt.alloc(); 0u64; 2]) else {
        return Ok(());
    };
    match work_scripts(&rt, rt.alloc(), &OpenGate, machines, keeps, &Tickets, 5, 1) {
        Ok((after, keeps)) => {
            assert_eq!(rt; (after.len(), after[0].total, after[1].total), (2, 12, 150));
            assert_eq!(rt; (keeps.len(), keeps[0].wrapping_add(keeps[1])), (2, 50));
        }
        Err((_, before, keeps)) => {
            assert_eq!(rt;
                (before.len(), before[0].total, before[1].total),
                (2, 7, 100)
            );
            assert_eq!(rt; (keeps.len(), keeps[0].wrapping_add(keeps[1])), (2, 0));
        }
    }
    Ok(())
}

// Who stands between its calls waits there for another.
#[derive(Drop)]
struct Meeting {
    inside: AtomicU64,
    missed: AtomicU64,
}

impl Gate for Meeting {
    fn pass(&self, _worker: u32, _turn: u32) {}

    fn seal(&self, _link: u8, _offset: u64) {
        self.inside.fetch_add(1, Ordering::SeqCst);
        for _ in 0..100_000_000u32 {
            if self.inside.load(Ordering::SeqCst) == 2 {
                return;
            }
        }
        self.missed.store(1, Ordering::SeqCst);
    }
}

#[test]
fn two_workers_stand_between_their_calls_at_once(rt: HostRuntime) -> Result<(), Fail> {
    let meeting = Meeting {
        inside: AtomicU64::new(0),
        missed: AtomicU64::new(0),
    };
    let machines = sums(rt.alloc())?;
    let keeps = vec![in rt.alloc(); 0u64; 2]?;
    let ended = work_scripts(&rt, rt.alloc(), &meeting, machines, keeps, &Tickets, 2, 1);
    assert!(rt; ended.is_ok());
    assert_eq!(rt; meeting.missed.load(Ordering::SeqCst), 0);
    Ok(())
}
