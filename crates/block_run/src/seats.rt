// The workers of a block with their passes and answers.
ghost use Rattle.std.specs.Prelude.{◌≡◌, ◌<◌, ◌≤◌, ◌+◌, ℕ, [], ◌++◌, All, IfOk, map, reverse, length, vec_len, vec_capacity};
ghost use Rattle.std.specs.List.{flat_map};

use crate::Work;
use qkd_base::Memory;
use std::alloc::Global;

/// One worker: its pass, and the answers of its jobs so far.
pub struct Seat<T: Work> {
    pub pass: T::Pass,
    pub answers: Vec<(u32, T::Answer)>,
}

/// Allocates `count` empty lists, each with room for `each` answers.
pub fn lists<A: Drop>(alloc: Global, count: u32, each: u32) -> Result<Vec<Vec<(u32, A)>>, Memory>
    ensures count { IfOk result (λ lists. vec_len lists ≡ count) }
    ensures empty { IfOk result (λ lists. All (λ list. (list.items ≡ []) × (each ≤ vec_capacity list)) lists.items) }
{
    let mut lists = Vec::new(alloc);
    for _ in 0..count {
        lists.push(Vec::with_capacity(alloc, each as usize)?)?;
    }
    Ok(lists)
}

/// Gives each pass a list for its answers. The last worker then has the first seat.
pub fn sit<T: Work>(
    passes: &mut Vec<T::Pass>,
    lists: &mut Vec<Vec<(u32, T::Answer)>>,
    seats: &mut Vec<Seat<T>>,
)
    requires lists { vec_len lists.old ≡ vec_len passes.old }
    requires none { seats.old.items ≡ [] }
    requires room { vec_len seats.old + vec_len passes.old ≤ vec_capacity seats.old }
    ensures passes { (passes.new.items ≡ []) × (vec_capacity passes.new ≡ vec_capacity passes.old) }
    ensures lists { lists.new.items ≡ [] }
    ensures seats { map (λ s. s.pass) seats.new.items ≡ reverse passes.old.items }
    ensures room { (each : ℕ) → All (λ list. (list.items ≡ []) × (each ≤ vec_capacity list)) lists.old.items → All (λ s. (s.answers.items ≡ []) × (each ≤ vec_capacity s.answers)) seats.new.items }
{
    for _ in 0..passes.len() {
        let answers = lists.take_last();
        let pass = passes.take_last();
        seats.push_reserved(Seat { pass, answers });
    }
}

// Moves all items of a list to the end of another.
fn move_all<A: Drop>(from: Vec<A>, into: &mut Vec<A>)
    requires { vec_len into.old + vec_len from ≤ vec_capacity into.old }
    ensures items { into.new.items ≡ into.old.items ++ from.items }
    ensures capacity { vec_capacity into.new ≡ vec_capacity into.old }
{
    for item in from {
        into.push_reserved(item);
    }
}

/// Takes the passes and the answers back, beginning with the last seat.
pub fn leave<T: Work>(
    seats: &mut Vec<Seat<T>>,
    passes: &mut Vec<T::Pass>,
    answers: &mut Vec<(u32, T::Answer)>,
)
    requires none { (passes.old.items ≡ []) × (answers.old.items ≡ []) }
    requires room { vec_len passes.old + vec_len seats.old ≤ vec_capacity passes.old }
    requires answers { length (flat_map (λ s. s.answers.items) (reverse seats.old.items)) ≤ vec_capacity answers.old }
    ensures seats { seats.new.items ≡ [] }
    ensures passes { passes.new.items ≡ reverse (map (λ s. s.pass) seats.old.items) }
    ensures answers { answers.new.items ≡ flat_map (λ s. s.answers.items) (reverse seats.old.items) }
{
    for _ in 0..seats.len() {
        let Seat {
            pass,
            answers: list,
        } = seats.take_last();
        passes.push_reserved(pass);
        move_all(list, answers);
    }
}
