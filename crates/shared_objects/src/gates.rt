// Turnstiles put before machines, and machines taken back from them.
ghost use Rattle.std.specs.Prelude.{◌≡◌, ℕ, ◌≤◌, ◌<◌, ◌+◌, ◌^◌, ◌++◌, [], map, reverse, length, IfOk, vec_len, vec_capacity};
ghost use Rattle.std.specs.List.{AllZip};
ghost use Rattle.turnstile.specs.Names.{opening};
ghost use Rattle.turnstile.specs.Turns.{turn_of};
ghost use Rattle.shared_objects.specs.Seats.{IsOpened, HoldsAll, Closes};

use crate::pass::Post;
use qkd_base::Memory;
use std::alloc::Global;
use turnstile::{Machine, Turnstile};

/// Makes a turnstile for `calls` calls from each machine, beginning with the last machine, and keeps the turnstile's first
/// seat. If memory runs out, the machines not yet reached stay in `machines`.
pub fn open_all<M: Machine>(
    alloc: Global,
    machines: &mut Vec<M>,
    turnstiles: &mut Vec<Turnstile<M>>,
    kept: &mut Vec<Post<M>>,
    calls: u64,
) -> Result<(), Memory>
    requires few { calls < 2 ^ 63 }
    requires none { (turnstiles.old.items ≡ []) × (kept.old.items ≡ []) }
    requires room { (vec_len machines.old ≤ vec_capacity turnstiles.old) × (vec_len machines.old ≤ vec_capacity kept.old) }
    ensures opened { AllZip (IsOpened calls) turnstiles.new.items kept.new.items }
    ensures machines { map opening turnstiles.new.items ++ reverse machines.new.items ≡ reverse machines.old.items }
    ensures room { vec_capacity machines.new ≡ vec_capacity machines.old }
    ensures ok { IfOk result (λ _. machines.new.items ≡ []) }
{
    for place in 0..machines.len() {
        match Turnstile::new(alloc, machines.take_last(), calls) {
            Ok((turnstile, seat)) => {
                turnstiles.push_reserved(turnstile);
                kept.push_reserved(Post { place, seat });
            }
            Err((memory, machine)) => {
                machines.push_reserved(machine);
                return Err(memory);
            }
        }
    }
    Ok(())
}

/// Takes each machine back, beginning with that of the last turnstile.
pub fn close_all<M: Machine>(
    mut turnstiles: Vec<Turnstile<M>>,
    mut kept: Vec<Post<M>>,
    machines: &mut Vec<M>,
)
    requires whole { AllZip HoldsAll turnstiles.items kept.items }
    requires room { vec_len machines.old + vec_len turnstiles ≤ vec_capacity machines.old }
    ensures { Closes (turn_of M.charter M.takes M.turns) turnstiles.items kept.items machines.old.items machines.new.items }
{
    for _ in 0..turnstiles.len() {
        let turnstile = turnstiles.take_last();
        let Post { place: _, seat } = kept.take_last();
        machines.push_reserved(turnstile.close(seat));
    }
    turnstiles.destroy_empty();
}
