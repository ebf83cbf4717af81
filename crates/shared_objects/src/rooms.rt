ghost use Rattle.std.specs.Prelude.{◌≡◌, ◌≤◌, [], All, IfOk, vec_len, vec_capacity};

use crate::pass::Post;
use qkd_base::Memory;
use std::alloc::Global;
use turnstile::{Machine, Turnstile};

/// The memory of a block of calls before its first call: empty lists for the turnstiles, for the kept seats, for each worker's
/// seats, and for the workers' passes.
pub struct Rooms<M: Machine, P> {
    pub turnstiles: Vec<Turnstile<M>>,
    pub kept: Vec<Post<M>>,
    pub rows: Vec<Vec<Post<M>>>,
    pub passes: Vec<P>,
}

/// The memory of the workers before they are seated: an empty row for the seats of each of them, and an empty list for their
/// passes.
pub struct WorkerRooms<M: Machine, P> {
    pub rows: Vec<Vec<Post<M>>>,
    pub passes: Vec<P>,
}

// Allocates `count` empty rows, each with room for `each` seats.
fn rows<M: Machine>(alloc: Global, count: usize, each: usize) -> Result<Vec<Vec<Post<M>>>, Memory>
    ensures count { IfOk result (λ rows. vec_len rows ≡ count) }
    ensures empty { IfOk result (λ rows. All (λ row. (row.items ≡ []) × (each ≤ vec_capacity row)) rows.items) }
{
    let mut rows = Vec::new(alloc);
    for _ in 0..count {
        rows.push(Vec::with_capacity(alloc, each)?)?;
    }
    Ok(rows)
}

impl<M: Machine, P: Drop> Rooms<M, P> {
    /// Allocates the memory for `workers` workers and `machines` machines.
    pub fn new(alloc: Global, workers: usize, machines: usize) -> Result<Self, Memory>
        ensures turnstiles { IfOk result (λ rooms. (rooms.turnstiles.items ≡ []) × (machines ≤ vec_capacity rooms.turnstiles)) }
        ensures kept { IfOk result (λ rooms. (rooms.kept.items ≡ []) × (machines ≤ vec_capacity rooms.kept)) }
        ensures rows { IfOk result (λ rooms. vec_len rooms.rows ≡ workers) }
        ensures empty { IfOk result (λ rooms. All (λ row. (row.items ≡ []) × (machines ≤ vec_capacity row)) rooms.rows.items) }
        ensures passes { IfOk result (λ rooms. (rooms.passes.items ≡ []) × (workers ≤ vec_capacity rooms.passes)) }
    {
        let rows = rows(alloc, workers, machines)?;
        let kept = Vec::with_capacity(alloc, machines)?;
        let passes = Vec::with_capacity(alloc, workers)?;
        let turnstiles = Vec::with_capacity(alloc, machines)?;
        Ok(Rooms {
            turnstiles,
            kept,
            rows,
            passes,
        })
    }
}
