// Memory for the gathered results.
ghost use Rattle.std.specs.Prelude.{◌≡◌, ◌≤◌, [], IfOk, vec_capacity};

use par_lanes::Emitted;
use par_managers::Replied;
use qkd_base::Memory;
use run_ops::Turned;
use std::alloc::Global;

/// Room for the results of a block's workers. Gathering takes further memory for frames only.
#[derive(Drop)]
pub struct Room {
    pub(crate) replied: Vec<Replied>,
    pub(crate) turns: Vec<Turned>,
    pub(crate) frames: Vec<Emitted>,
}

impl Room {
    /// Room for `replies` replies.
    pub fn new(alloc: Global, replies: usize) -> Result<Room, Memory>
        ensures none { IfOk result (λ room. (room.replied.items ≡ []) × (room.turns.items ≡ []) × (room.frames.items ≡ [])) }
        ensures replied { IfOk result (λ room. replies ≤ vec_capacity room.replied) }
        ensures turns { IfOk result (λ room. replies ≤ vec_capacity room.turns) }
    {
        Ok(Room {
            replied: Vec::with_capacity(alloc, replies)?,
            turns: Vec::with_capacity(alloc, replies)?,
            frames: Vec::new(alloc),
        })
    }
}
