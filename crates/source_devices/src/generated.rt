// A device and an entropy that give the same octets in each run.
ghost use Rattle.std.specs.Prelude.{◌≡◌, ◌≤◌, ◌+◌, ◌%◌, ◌^◌, ℕ, Some, OnOk, IsErrOf, IsOk, length};
ghost use Rattle.qkd_base.specs.Faults.{Rose};
ghost use Rattle.source_devices.specs.declared.shortage.Shortage.TheVariants.{Failed as ShortageFailed};
ghost use Rattle.source_devices.specs.KeyStream.{device_told, entropy_told, told_from};
ghost use Rattle.source_devices.specs.Telling.{GivesBlock, Draws};

use crate::key_stream::KeyStream;
use crate::{Device, Entropy, Shortage};
use qkd_base::{LinkNo, NodeNo};
use std::marker::Model;

// The number of blocks of a generated device.
const BLOCKS: u32 = 1024;

/// A link's device with 1,048,576 octets, the first ones of a key stream of ChaCha20. It never fails.
#[derive(Drop)]
pub struct GeneratedDevice {
    stream: KeyStream,
    // The block that was read last is kept, since the link's other end reads it next. At first this is no block's number.
    last: u32,
    kept: [u8; 1024],
}

impl Model for GeneratedDevice {
    ghost use Rattle.std.specs.Prelude.{◌≡◌, ◌<◌, ℕ};
    ghost use Rattle.net_model.specs.OctetSequence.{block_at};
    ghost use Rattle.source_devices.specs.KeyStream.{device_told};

    ghost Value = { ℕ };

    ghost view = { λ s. s.stream.number };

    ghost invariant = { λ s. (s.stream.letter ≡ 0x4c) × (s.last < 1024 → s.kept ≡ block_at (device_told s.stream.number) s.last) };
}

impl GeneratedDevice {
    /// The generated device of a link.
    pub fn new(link: LinkNo) -> Self
        ensures { result ≡ link }
    {
        GeneratedDevice {
            stream: KeyStream::new(b'L', link.get()),
            last: BLOCKS,
            kept: [0; 1024],
        }
    }
}

impl Device for GeneratedDevice {
    ghost told = { λ s. Some (device_told s) };

    ghost faults = { λ _. 0 };

    fn block(&mut self, number: u32, into: &mut [u8; 1024]) -> Result<(), Shortage>
        ensures block { GivesBlock (Some (device_told self.old)) number result into.new }
        ensures same { self.new ≡ self.old }
        ensures never { IsErrOf result ShortageFailed → ⊥ }
    {
        if number >= BLOCKS {
            return Err(Shortage::End);
        }
        if number != self.last {
            self.stream.go_to_block(number);
            self.stream.read(&mut self.kept);
            self.last = number;
        }
        *into = self.kept;
        Ok(())
    }
}

/// A node's entropy without end: the octets of a key stream of ChaCha20. It never fails.
#[derive(Drop)]
pub struct GeneratedEntropy {
    stream: KeyStream,
}

impl Model for GeneratedEntropy {
    ghost use Rattle.std.specs.Prelude.{◌≡◌};
    ghost use Rattle.source_devices.specs.KeyStream.{StreamForm};

    ghost Value = { StreamForm };

    ghost view = { λ s. s.stream };

    ghost invariant = { λ s. s.stream.letter ≡ 0x45 };
}

impl GeneratedEntropy {
    /// The generated entropy of a node, from its first octet on.
    #[tactic(auto, using(crate::proofs::Streams::starts))]
    pub fn new(node: NodeNo) -> Self
        ensures form { result ≡ record { letter = 0x45; number = node; place = 0 } }
        ensures told { (i : ℕ) → (told_from result).octet i ≡ (entropy_told node).octet i }
    {
        GeneratedEntropy {
            stream: KeyStream::new(b'E', node.get()),
        }
    }
}

impl Entropy for GeneratedEntropy {
    ghost left = { λ s. Some (told_from s) };

    ghost faults = { λ _. 0 };

    fn draw(&mut self, into: &mut [u8]) -> Result<(), Shortage>
        ensures drawn { Draws (Some (told_from self.old)) (Some (told_from self.new)) result (length into.old) into.new }
        ensures place { self.new ≡ record self.old { place = (self.old.place + length into.old) % 2 ^ 70 } }
        ensures always { IsOk result }
    {
        self.stream.read(into);
        Ok(())
    }
}
