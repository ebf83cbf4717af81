// A worker's log of the frames that it sent.
ghost use Rattle.std.specs.Prelude.{◌≡◌, ◌++◌, [], ◌∷◌, true, OnOk};

use crate::Emitted;
use qkd_base::Memory;
use std::alloc::Global;

/// A worker's records of the frames that it sent, as far as there was memory for them.
#[derive(Drop)]
pub struct FrameLog {
    /// Whether there was memory for all records. If there wasn't, the list says nothing.
    pub is_whole: bool,
    /// The records, in the order in which the frames were sent.
    pub frames: Vec<Emitted>,
}

impl FrameLog {
    /// An empty log. It takes no memory.
    pub fn new(alloc: Global) -> FrameLog
        ensures whole { result.is_whole ≡ true }
        ensures none { result.frames.items ≡ [] }
    {
        FrameLog {
            is_whole: true,
            frames: Vec::new(alloc),
        }
    }

    // Adds a record. An `Err` adds nothing.
    fn try_add(&mut self, frame: Emitted) -> Result<(), Memory>
        ensures whole { self.new.is_whole ≡ self.old.is_whole }
        ensures ok { OnOk result (self.new.frames.items ≡ self.old.frames.items ++ frame ∷ []) }
    {
        self.frames.push(frame)?;
        Ok(())
    }

    // Adds a record, or notes that there was no memory for it.
    pub(crate) fn add(&mut self, frame: Emitted)
        ensures whole { self.new.is_whole ≡ true → self.old.is_whole ≡ true }
        ensures added { self.new.is_whole ≡ true → self.new.frames.items ≡ self.old.frames.items ++ frame ∷ [] }
    {
        if self.try_add(frame).is_err() {
            self.is_whole = false;
        }
    }
}
