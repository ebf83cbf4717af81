// The memory for serving.
ghost use Rattle.std.specs.Prelude.{◌≡◌, ◌≤◌, [], IfOk, vec_capacity};

use crate::Pass;
use kme_serve::Worker;
use qkd_base::Memory;
use shared_objects::Post as Kept;
use std::alloc::Global;
use turnstile::{Machine, Turnstile};

/// Unused memory for the managers, their turnstiles, the kept seats, the workers, and their doors.
pub(crate) struct Room<M: Machine, D> {
    pub managers: Vec<M>,
    pub turnstiles: Vec<Turnstile<M>>,
    pub kept: Vec<Kept<M>>,
    pub workers: Vec<Worker<Pass<M>, D>>,
    pub doors: Vec<D>,
}

impl<M: Machine + Drop, D: Drop> Room<M, D> {
    /// Memory for `nodes` nodes and `workers` workers.
    pub fn new(alloc: Global, nodes: usize, workers: usize) -> Result<Self, Memory>
        ensures managers { IfOk result (λ room. (room.managers.items ≡ []) × (nodes ≤ vec_capacity room.managers)) }
        ensures turnstiles { IfOk result (λ room. (room.turnstiles.items ≡ []) × (nodes ≤ vec_capacity room.turnstiles)) }
        ensures kept { IfOk result (λ room. (room.kept.items ≡ []) × (nodes ≤ vec_capacity room.kept)) }
        ensures workers { IfOk result (λ room. (room.workers.items ≡ []) × (workers ≤ vec_capacity room.workers)) }
        ensures doors { IfOk result (λ room. (room.doors.items ≡ []) × (workers ≤ vec_capacity room.doors)) }
    {
        let managers = Vec::with_capacity(alloc, nodes)?;
        let kept = Vec::with_capacity(alloc, nodes)?;
        let doors = Vec::with_capacity(alloc, workers)?;
        let seated = Vec::with_capacity(alloc, workers)?;
        let turnstiles = Vec::with_capacity(alloc, nodes)?;
        Ok(Room {
            managers,
            turnstiles,
            kept,
            workers: seated,
            doors,
        })
    }
}
