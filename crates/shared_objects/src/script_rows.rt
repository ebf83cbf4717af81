// How the workers get their seats and give them back.
ghost use Rattle.std.specs.Prelude.{◌≡◌, ℕ, ◌≤◌, ◌<◌, ◌+◌, ◌*◌, ◌++◌, [], All, map, length, vec_len, vec_capacity};
ghost use Rattle.std.specs.List.{AllZip, AllByRecursion, flat_map, sum_by};
ghost use Rattle.shared_objects.specs.Seats.{calls_at, budget_at, Belongs, IsFresh};

use crate::script_pass::Pass;
use crate::{Post, join_row, split_row};
use turnstile::{Machine, Turnstile};

/// Gives each worker a row of seats with `calls` calls each, split off the kept seats.
pub fn seat_workers<M: Machine, K: Drop>(
    turnstiles: &[Turnstile<M>],
    kept: &mut [Post<M>],
    rows: &mut Vec<Vec<Post<M>>>,
    keeps: Vec<K>,
    passes: &mut Vec<Pass<M, K>>,
    calls: u64,
)
    requires rows { vec_len rows.old ≡ vec_len keeps }
    requires empty { All (λ row. (row.items ≡ []) × (length turnstiles.now ≤ vec_capacity row)) rows.old.items }
    requires none { passes.old.items ≡ [] }
    requires room { vec_len keeps ≤ vec_capacity passes.old }
    requires fits { AllZip Belongs turnstiles.now kept.old }
    requires budget { (i : ℕ) → i < length kept.old → vec_len keeps * calls ≡ budget_at i kept.old }
    ensures kept { AllZip Belongs turnstiles.now kept.new }
    ensures own { (i : ℕ) → calls_at i kept.new ≡ calls_at i kept.old }
    ensures budget { (i : ℕ) → i < length kept.old → budget_at i kept.new ≡ 0 }
    ensures fresh { AllByRecursion (λ pass. AllZip (IsFresh calls) turnstiles.now pass.posts.items) passes.new.items }
    ensures keeps { map (λ pass. pass.keep) passes.new.items ≡ keeps.items }
{
    for keep in keeps {
        let mut posts = rows.take_last();
        split_row(turnstiles, kept, &mut posts, calls);
        passes.push_reserved(Pass { posts, keep });
    }
}

/// Joins the seats of all workers into the kept seats, worker by worker, and hands back what the workers keep.
pub fn join_workers<M: Machine, K: Drop>(
    turnstiles: &[Turnstile<M>],
    kept: &mut [Post<M>],
    passes: Vec<Pass<M, K>>,
    keeps: &mut Vec<K>,
)
    requires kept { AllZip Belongs turnstiles.now kept.old }
    requires rows { AllByRecursion (λ pass. AllZip Belongs turnstiles.now pass.posts.items) passes.items }
    requires none { keeps.old.items ≡ [] }
    requires room { vec_len passes ≤ vec_capacity keeps.old }
    ensures kept { AllZip Belongs turnstiles.now kept.new }
    ensures own { (i : ℕ) → calls_at i kept.new ≡ calls_at i kept.old ++ flat_map (λ pass. calls_at i pass.posts.items) passes.items }
    ensures budget { (i : ℕ) → budget_at i kept.new ≡ budget_at i kept.old + sum_by (λ pass. budget_at i pass.posts.items) passes.items }
    ensures keeps { keeps.new.items ≡ map (λ pass. pass.keep) passes.items }
{
    for pass in passes {
        let Pass { posts, keep } = pass;
        join_row(turnstiles, kept, posts);
        keeps.push_reserved(keep);
    }
}
