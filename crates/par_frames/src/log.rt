// The record of the frames that are put.
ghost use Rattle.std.specs.Prelude.{◌≡◌, ◌++◌, [], true, length, OnOk};
ghost use Rattle.par_frames.specs.Adding.{is_first, place_behind, IsAdded, IsEnded, IsEmpty};

use net_model::{Placing, Placings};
use qkd_base::{Items, Memory};
use run_ops::PutFrame;
use std::alloc::Global;
use std::mem;

/// A frame that its wire refused.
#[derive(Drop)]
pub struct Refused {
    /// The frame's offset on its lane.
    pub offset: u64,
    pub frame: PutFrame,
}

/// What is recorded of the frames that are put, lane by lane.
#[derive(Drop)]
pub struct Log {
    alloc: Global,
    /// Whether there was memory for the whole record. If there wasn't, the lists say nothing.
    pub is_whole: bool,
    /// The frames in the order of the report. Lane by lane, they are those that the wire took and, once the lane is done,
    /// those that it refused.
    pub frames: Vec<PutFrame>,
    /// The refused frames of the current lane, in order of offset and then of place.
    pub refused: Vec<Refused>,
    /// For each node, what it is to note, in order.
    pub placings: Vec<Placings>,
}

// Whether frame a comes before frame b of its lane, or has the same offset and place.
fn is_first(a: &Refused, b: &Refused) -> bool
    ensures { result ≡ is_first a.now b.now }
{
    a.offset < b.offset || (a.offset == b.offset && a.frame.place <= b.frame.place)
}

// The number of frames at the front of the list that come before this one.
fn place_behind(all: &[Refused], frame: &Refused) -> usize
    ensures { result ≡ place_behind frame.now all.now }
{
    for (i, other) in all.iter().enumerate() {
        if !is_first(other, frame) {
            return i;
        }
    }
    all.len()
}

impl Log {
    // Adds what became of a frame. After an `Err`, a part of it may have been added.
    fn try_add(
        &mut self,
        node: usize,
        placing: Placing,
        took: bool,
        refused: Refused,
    ) -> Result<(), Memory>
        ensures whole { self.new.is_whole ≡ self.old.is_whole }
        ensures ok { OnOk result (IsAdded node placing took refused self.old self.new) }
    {
        match self.placings.get_mut(node) {
            None => return Err(Memory),
            Some(placings) => placings.push(placing)?,
        }
        if took {
            let Refused { frame, .. } = refused;
            self.frames.push(frame)?;
        } else {
            let place = place_behind(self.refused.as_slice(), &refused);
            self.refused.insert(place, refused)?;
        }
        Ok(())
    }

    // Ends a lane. After an `Err`, a part of its frames may have been added.
    fn try_end(&mut self) -> Result<(), Memory>
        ensures whole { self.new.is_whole ≡ self.old.is_whole }
        ensures ok { OnOk result (IsEnded self.old self.new) }
    {
        let all = mem::replace(&mut self.refused, Vec::new(self.alloc));
        for refused in all {
            self.frames.push(refused.frame)?;
        }
        Ok(())
    }

    /// An empty record for this many nodes.
    pub fn new(alloc: Global, nodes: usize) -> Log
        ensures { result.is_whole ≡ true → IsEmpty nodes result }
    {
        let mut log = Log {
            alloc,
            is_whole: true,
            frames: Vec::new(alloc),
            refused: Vec::new(alloc),
            placings: Vec::new(alloc),
        };
        for _ in 0..nodes {
            if log.placings.push(Items::new(alloc)).is_err() {
                log.is_whole = false;
            }
        }
        log
    }

    /// Ends a lane: the frames that its wire refused follow those that it took.
    pub fn end_lane(&mut self)
        ensures whole { self.new.is_whole ≡ true → self.old.is_whole ≡ true }
        ensures ended { self.new.is_whole ≡ true → IsEnded self.old self.new }
    {
        if self.try_end().is_err() {
            self.is_whole = false;
        }
    }

    /// Adds what became of a frame: what its node is to note, and the frame, as one that its wire took or refused.
    pub fn add(&mut self, node: usize, placing: Placing, took: bool, refused: Refused)
        ensures whole { self.new.is_whole ≡ true → self.old.is_whole ≡ true }
        ensures added { self.new.is_whole ≡ true → IsAdded node placing took refused self.old self.new }
    {
        if self.try_add(node, placing, took, refused).is_err() {
            self.is_whole = false;
        }
    }
}
