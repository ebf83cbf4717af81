// The blocks that one end of a link received.
ghost use Rattle.std.specs.Prelude.{◌≡◌, ◌+◌, ◌<◌, ◌≤◌, ◌↔◌, [], ◌∷◌, ◌++◌, length, take, drop, IsOk, OnOk, OnErr, IfErr};
ghost use Rattle.qkd_base.specs.LaneBytes.{lane_octets, lane_len};
ghost use Rattle.link_segments.specs.Lanes.{first_place, AreBlocks, Refuses};

use crate::{NoBits, TakeRefusal};
use qkd_base::{Memory, Way};
use std::alloc::Global;
use std::marker::Model;

/// The blocks of 1,024 bytes that one end of a link received, at most 1,024 of them. Both ends receive the same list
/// from the link's device (SECOQC quantum point-to-point link). The even blocks, in order, are the bytes of the lane
/// Up, and the odd ones those of the lane Down. The first 8 bytes of a lane are its hash key.
#[derive(Debug, Drop)]
pub struct Segments {
    blocks: Vec<[u8; 1024]>,
}

impl Model for Segments {
    ghost use Rattle.std.specs.Prelude.{◌-◌, ◌≤◌, vec_capacity, vec_len};
    ghost use Rattle.link_segments.specs.Lanes.{Held, AreBlocks};

    ghost Value = { Held };

    ghost view = { λ s. record { blocks = s.blocks.items; spare = vec_capacity s.blocks - vec_len s.blocks } };

    ghost invariant = { λ s. AreBlocks s.blocks.items };
}

// The place of a lane's first block: 0 for Up, 1 for Down.
fn first_place(way: Way) -> usize
    ensures { result ≡ first_place way }
{
    match way {
        Way::Up => 0,
        Way::Down => 1,
    }
}

// Copies the bytes of a lane from an offset on.
fn copy_lane(blocks: &[[u8; 1024]], way: Way, off: usize, into: &mut [u8])
    requires blocks { AreBlocks blocks.now }
    requires reach { off + length into.old ≤ length (lane_octets way blocks.now) }
    ensures { into.new ≡ take (length into.old) (drop off (lane_octets way blocks.now)) }
{
    let first = first_place(way);
    for i in 0..into.len() {
        let place = off + i;
        into[i] = blocks[2 * (place / 1024) + first][place % 1024];
    }
}

impl Segments {
    /// No blocks. No memory is allocated.
    pub fn new(alloc: Global) -> Self
        ensures { result ≡ record { blocks = []; spare = 0 } }
    {
        Segments {
            blocks: Vec::new(alloc),
        }
    }

    /// Makes room for `more` further blocks. An `Err` changes nothing.
    pub fn room(&mut self, more: u32) -> Result<(), Memory>
        ensures blocks { self.new.blocks ≡ self.old.blocks }
        ensures ok { OnOk result (more ≤ self.new.spare) }
        ensures err { OnErr result (self.new ≡ self.old) }
    {
        self.blocks.reserve(more as usize)?;
        Ok(())
    }

    /// Takes the link's next block, whose number is the number of blocks held. If there is room for it, no memory is
    /// allocated.
    pub fn take_block(&mut self, number: u32, bytes: &[u8; 1024]) -> Result<(), TakeRefusal>
        ensures taken { OnOk result ((length self.old.blocks < 1024) × (number ≡ length self.old.blocks)
            × (self.new.blocks ≡ self.old.blocks ++ bytes.now ∷ []) × (self.old.spare ≤ self.new.spare + 1)) }
        ensures refused { IfErr result (λ refusal. Refuses self.old number refusal × (self.new ≡ self.old)) }
    {
        let held = self.blocks.len();
        if held == 1024 {
            return Err(TakeRefusal::Full);
        }
        if number as usize != held {
            return Err(TakeRefusal::OutOfOrder(held as u32));
        }
        self.blocks.reserve(1)?;
        self.blocks.push_reserved(*bytes);
        Ok(())
    }

    /// The blocks in order.
    pub fn blocks(&self) -> &[[u8; 1024]]
        ensures blocks { result.now ≡ self.now.blocks }

        // The invariant of the blocks.
        ensures whole { AreBlocks self.now.blocks }
    {
        &self.blocks
    }

    /// How many bytes of a lane were received: at most 524,288.
    pub fn received(&self, way: Way) -> u64
        ensures length { result ≡ length (lane_octets way self.now.blocks) }
        ensures number { result ≡ lane_len way (length self.now.blocks) }
    {
        let blocks = self.blocks.len() + 1 - first_place(way);
        1024 * (blocks / 2) as u64
    }

    /// Copies the bytes of a lane from an offset on, as many as `into` has room for. An `Err` writes nothing.
    pub fn lane_bytes(&self, way: Way, off: u64, into: &mut [u8]) -> Result<(), NoBits>
        ensures reach { IsOk result ↔ (off + length into.old ≤ length (lane_octets way self.now.blocks)) }
        ensures ok { OnOk result (into.new ≡ take (length into.old) (drop off (lane_octets way self.now.blocks))) }
        ensures no_bits { IfErr result (λ e. (e.have ≡ length (lane_octets way self.now.blocks)) × (into.new ≡ into.old)) }
    {
        let have = self.received(way);
        let size = into.len() as u64;
        if have < size || have - size < off {
            return Err(NoBits { have });
        }
        copy_lane(&self.blocks, way, off as usize, into);
        Ok(())
    }
}
