ghost use Rattle.std.specs.Prelude.{◌≡◌, ◌+◌, ◌%◌, ◌^◌, ◌≤◌, length};
ghost use Rattle.turnstile.specs.Names.{opening, all_calls, knows, Fits};

use std::sync::Wait;
use std::test::*;
use std::thread::{Threads, join};
use turnstile::{Machine, Seat, Turnstile};

// It answers the sum after adding its request, and takes no request above `most`.
#[derive(Drop)]
struct Sum {
    total: u64,
    most: u64,
}

impl Machine for Sum {
    type Request = u64;

    type Reply = u64;

    type Charter = u64;

    ghost charter = { λ s. s.most };

    ghost takes = { λ most request. request ≤ most };

    ghost turns = { λ s request reply t. (t.total ≡ (s.total + request) % 2 ^ 64) × (reply ≡ t.total) };

    fn turn(&mut self, request: u64) -> u64 {
        self.total = self.total.wrapping_add(request);
        self.total
    }
}

// Run with an allocation that fails, it ends at the refusal.
#[test]
fn a_refusal_gives_the_machine_back(rt: HostRuntime) {
    let sum = Sum { total: 7, most: 9 };
    match Turnstile::new(rt.alloc(), sum, 1) {
        Ok((turnstile, seat)) => assert_eq!(rt; turnstile.close(seat).total, 7),
        Err((_, machine)) => assert_eq!(rt; machine.total, 7),
    }
}

#[test]
fn two_seats(rt: HostRuntime) -> Result<(), Fail> {
    let sum = Sum { total: 0, most: 9 };
    let (turnstile, mut first) = Turnstile::new(rt.alloc(), sum, 10).ok().ok_or("memory")?;
    let mut second = turnstile.split(&mut first, 4);
    assert_eq!(rt; turnstile.call(&rt, &mut first, 5), (0, 5));
    assert_eq!(rt; turnstile.call(&rt, &mut second, 7), (1, 12));
    turnstile.join(&mut first, second);
    assert_eq!(rt; turnstile.close(first).total, 12);
    Ok(())
}

fn count<R: Wait>(rt: &R, turnstile: &Turnstile<Sum>, mut seat: Seat<Sum>) -> Seat<Sum>
    requires fits { Fits turnstile.now seat }
    requires budget { 1000 ≤ (knows seat).budget }
    requires takes { 1 ≤ (opening turnstile.now).most }
    ensures fits { Fits turnstile.now result }
    ensures all { (knows result).budget + length (knows result).mine ≡ (knows seat).budget + length (knows seat).mine }
{
    for made in 0..1000u64 {
        let _ = made;
        turnstile.call(rt, &mut seat, 1);
    }
    seat
}

fn by_two<R: Threads + Wait + Sync>(rt: &R, turnstile: Turnstile<Sum>, mut seat: Seat<Sum>) -> u64
    requires fits { Fits turnstile seat }
    requires budget { (knows seat).budget ≡ 2000 }
    requires whole { (knows seat).budget + length (knows seat).mine ≡ all_calls turnstile }
    requires takes { 1 ≤ (opening turnstile).most }
{
    let other = turnstile.split(&mut seat, 1000);
    let shared = &turnstile;
    let (mut mine, theirs) = join(
        rt,
        move || count(rt, shared, seat),
        move || count(rt, shared, other),
    );
    turnstile.join(&mut mine, theirs);
    turnstile.close(mine).total
}

#[test]
fn two_threads(rt: HostRuntime) -> Result<(), Fail> {
    let sum = Sum { total: 0, most: 1 };
    let (turnstile, seat) = Turnstile::new(rt.alloc(), sum, 2000).ok().ok_or("memory")?;
    assert_eq!(rt; by_two(&rt, turnstile, seat), 2000);
    Ok(())
}
