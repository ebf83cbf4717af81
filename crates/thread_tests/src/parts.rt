// What the tests share: a machine that sums, and a gate at which two workers meet.
ghost use Rattle.std.specs.Prelude.{◌≡◌, ◌+◌, ◌%◌, ◌^◌, length, IfOk};

use edge_io::Gate;
use qkd_base::Memory;
use std::alloc::Global;
use std::sync::atomic::{AtomicU64, Ordering};
use turnstile::Machine;

/// It answers the sum after adding its request.
#[derive(Drop)]
pub struct Sum {
    pub total: u64,
}

impl Machine for Sum {
    type Request = u64;

    type Reply = u64;

    type Charter = ();

    ghost charter = { λ s. Prim.tt };

    ghost takes = { λ most request. Unit {0} };

    ghost turns = { λ s request reply t. (t.total ≡ (s.total + request) % 2 ^ 64) × (reply ≡ t.total) };

    fn turn(&mut self, request: u64) -> u64 {
        self.total = self.total.wrapping_add(request);
        self.total
    }
}

/// Two of them, of 7 and of 100.
pub fn sums(alloc: Global) -> Result<Vec<Sum>, Memory>
    ensures { IfOk result (λ sums. length sums.items ≡ 2) }
{
    let mut sums = Vec::new(alloc);
    sums.push(Sum { total: 7 })?;
    sums.push(Sum { total: 100 })?;
    Ok(sums)
}

/// Worker 0 waits before its first job until worker 1 has come to its own, and the other way round.
#[derive(Drop)]
pub struct Meeting {
    first: AtomicU64,
    second: AtomicU64,
    missed: AtomicU64,
}

impl Meeting {
    /// Nobody has come yet.
    pub fn new() -> Meeting {
        Meeting {
            first: AtomicU64::new(0),
            second: AtomicU64::new(0),
            missed: AtomicU64::new(0),
        }
    }

    /// Whether one waited in vain.
    pub fn is_missed(&self) -> bool {
        self.missed.load(Ordering::SeqCst) == 1
    }

    fn meet(&self, mine: &AtomicU64, others: &AtomicU64) {
        mine.store(1, Ordering::SeqCst);
        for _ in 0..100_000_000u32 {
            if others.load(Ordering::SeqCst) == 1 {
                return;
            }
        }
        self.missed.store(1, Ordering::SeqCst);
    }
}

impl Gate for Meeting {
    fn pass(&self, worker: u32, turn: u32) {
        if turn == 0 {
            if worker == 0 {
                self.meet(&self.first, &self.second);
            } else {
                self.meet(&self.second, &self.first);
            }
        }
    }

    fn seal(&self, _link: u8, _offset: u64) {}
}
