// Rows of seats: each worker has a row, with one seat at each turnstile.
ghost use Rattle.std.specs.Prelude.{◌≡◌, ℕ, ◌≤◌, ◌<◌, ◌+◌, ◌*◌, ◌++◌, [], All, map, length, vec_len, vec_capacity};
ghost use Rattle.std.specs.List.{AllZip, AllByRecursion, flat_map, sum_by};
ghost use Rattle.shared_objects.specs.Seats.{calls_at, budget_at, Belongs, IsFresh};

use crate::pass::{Pass, Post, Shift};
use turnstile::{Machine, Turnstile};

/// Makes a row: splits a seat with `calls` calls off each kept seat.
pub fn split_row<M: Machine>(
    turnstiles: &[Turnstile<M>],
    kept: &mut [Post<M>],
    row: &mut Vec<Post<M>>,
    calls: u64,
)
    requires none { row.old.items ≡ [] }
    requires room { length turnstiles.now ≤ vec_capacity row.old }
    requires fits { AllZip Belongs turnstiles.now kept.old }
    requires budget { (i : ℕ) → i < length kept.old → calls ≤ budget_at i kept.old }
    ensures kept { AllZip Belongs turnstiles.now kept.new }
    ensures own { (i : ℕ) → calls_at i kept.new ≡ calls_at i kept.old }
    ensures budget { (i : ℕ) → i < length kept.old → budget_at i kept.new + calls ≡ budget_at i kept.old }
    ensures row { AllZip (IsFresh calls) turnstiles.now row.new.items }
{
    for place in 0..turnstiles.len() {
        let post = &mut kept[place];
        let seat = turnstiles[place].split(&mut post.seat, calls);
        row.push_reserved(Post { place, seat });
    }
}

/// Gives each worker a row of seats with `calls` calls each, split off the kept seats.
pub fn seat_workers<M: Machine>(
    turnstiles: &[Turnstile<M>],
    kept: &mut [Post<M>],
    rows: &mut Vec<Vec<Post<M>>>,
    shifts: Vec<Shift<M::Request>>,
    passes: &mut Vec<Pass<M>>,
    calls: u64,
)
where
    M::Request: Drop,
    requires rows { vec_len rows.old ≡ vec_len shifts }
    requires empty { All (λ row. (row.items ≡ []) × (length turnstiles.now ≤ vec_capacity row)) rows.old.items }
    requires none { passes.old.items ≡ [] }
    requires room { vec_len shifts ≤ vec_capacity passes.old }
    requires fits { AllZip Belongs turnstiles.now kept.old }
    requires budget { (i : ℕ) → i < length kept.old → vec_len shifts * calls ≡ budget_at i kept.old }
    ensures kept { AllZip Belongs turnstiles.now kept.new }
    ensures own { (i : ℕ) → calls_at i kept.new ≡ calls_at i kept.old }
    ensures budget { (i : ℕ) → i < length kept.old → budget_at i kept.new ≡ 0 }
    ensures fresh { AllByRecursion (λ pass. AllZip (IsFresh calls) turnstiles.now pass.posts.items) passes.new.items }
    ensures shifts { map (λ pass. pass.shift) passes.new.items ≡ shifts.items }
{
    for shift in shifts {
        let mut posts = rows.take_last();
        split_row(turnstiles, kept, &mut posts, calls);
        passes.push_reserved(Pass { posts, shift });
    }
}

/// Joins each seat of a row into the kept seat of the same turnstile.
pub fn join_row<M: Machine>(
    turnstiles: &[Turnstile<M>],
    kept: &mut [Post<M>],
    mut row: Vec<Post<M>>,
)
    requires kept { AllZip Belongs turnstiles.now kept.old }
    requires row { AllZip Belongs turnstiles.now row.items }
    ensures kept { AllZip Belongs turnstiles.now kept.new }
    ensures own { (i : ℕ) → calls_at i kept.new ≡ calls_at i kept.old ++ calls_at i row.items }
    ensures budget { (i : ℕ) → budget_at i kept.new ≡ budget_at i kept.old + budget_at i row.items }
{
    for _ in 0..turnstiles.len() {
        let Post { place: _, seat } = row.take_last();
        let place = row.len();
        let post = &mut kept[place];
        turnstiles[place].join(&mut post.seat, seat);
    }
}

/// Joins the seats of all workers into the kept seats, worker by worker.
pub fn join_workers<M: Machine>(
    turnstiles: &[Turnstile<M>],
    kept: &mut [Post<M>],
    passes: Vec<Pass<M>>,
)
where
    M::Request: Drop,
    requires kept { AllZip Belongs turnstiles.now kept.old }
    requires rows { AllByRecursion (λ pass. AllZip Belongs turnstiles.now pass.posts.items) passes.items }
    ensures kept { AllZip Belongs turnstiles.now kept.new }
    ensures own { (i : ℕ) → calls_at i kept.new ≡ calls_at i kept.old ++ flat_map (λ pass. calls_at i pass.posts.items) passes.items }
    ensures budget { (i : ℕ) → budget_at i kept.new ≡ budget_at i kept.old + sum_by (λ pass. budget_at i pass.posts.items) passes.items }
{
    for pass in passes {
        let Pass { posts, shift: _ } = pass;
        join_row(turnstiles, kept, posts);
    }
}
