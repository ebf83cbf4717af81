// A sink that keeps what it takes.
ghost use Rattle.std.specs.Prelude.{◌≡◌, ◌++◌, ◌∷◌, [], Some, OnOk, OnErr};
ghost use Rattle.asked_lines.specs.Telling.{text_of};

use edge_io::{Failed, Sink};
use qkd_base::{Items, Lists, Memory, Octets};
use std::alloc::Global;
use std::marker::Model;

/// A sink that keeps each piece that it takes. A write fails only if memory runs out, and then takes nothing. Contracts see
/// the pieces, and how often a write failed.
#[derive(Drop)]
pub struct KeptLines {
    alloc: Global,
    lines: Lists,
    faults: u64,
}

impl Model for KeptLines {
    ghost use Rattle.std.specs.Prelude.{List, ℕ};

    ghost Value = { List (List ℕ) × ℕ };

    ghost view = { λ k. (k.lines, k.faults) };
}

impl KeptLines {
    /// A sink that has taken nothing. No memory is allocated.
    pub fn new(alloc: Global) -> Self
        ensures { result ≡ ([], 0) }
    {
        KeptLines {
            alloc,
            lines: Items::new(alloc),
            faults: 0,
        }
    }

    /// The pieces, in order.
    pub fn lines(&self) -> &[Octets]
        ensures { result.now ≡ self.now.0 }
    {
        self.lines.as_slice()
    }
}

// Adds a copy of these bytes to the lines. An `Err` changes nothing.
fn keep(alloc: Global, lines: &mut Lists, bytes: &[u8]) -> Result<(), Memory>
    ensures ok { OnOk result (lines.new ≡ lines.old ++ bytes.now ∷ []) }
    ensures err { OnErr result (lines.new ≡ lines.old) }
{
    let line = Octets::from_slice(alloc, bytes)?;
    lines.push(line)
}

impl Sink for KeptLines {
    ghost taken = { λ k. Some (text_of k.0) };

    ghost pieces = { λ k. Some k.0 };

    ghost faults = { λ k. k.1 };

    #[tactic(auto, using(crate::proofs::Lines::text_more))]
    fn write_all(&mut self, bytes: &[u8]) -> Result<(), Failed> {
        match keep(self.alloc, &mut self.lines, bytes) {
            Ok(()) => Ok(()),
            Err(Memory) => {
                self.faults = self.faults.saturating_add(1);
                Err(Failed)
            }
        }
    }
}
