// The trait of wires, which carry frames.
ghost use Rattle.std.specs.Prelude.{◌≡◌, ◌+◌, ◌≤◌, ◌<◌, ℕ, List, Option, IsErrOf, IfSome, MatchResult, MatchOption, length, drop};
ghost use Rattle.qkd_base.specs.Faults.{Rose};
ghost use Rattle.source_devices.specs.declared.wire.WireFailed.TheVariants.{Fault};
ghost use Rattle.source_devices.specs.Frames.{TakesFrame, TakesAgain, IsFrame};

use qkd_base::FrameOctets;
use std::error::Error;
use std::fmt;

/// Why a frame was not sent.
#[derive(Clone, Copy, Debug, PartialEq, Eq)]
pub enum WireFailed {
    /// The call failed. The wire's count of faults rose by one, unless it was at its greatest.
    Fault,
    /// Memory ran out.
    Memory,
}

impl fmt::Display for WireFailed {
    ghost use Rattle.std.specs.Prelude.{Some};
    ghost use Rattle.source_devices.specs.Sayings.{failure_said};

    ghost output = { λ r. Some (failure_said r) };

    fn fmt<W: fmt::Write>(&self, f: &mut fmt::Formatter<W>) -> fmt::Result {
        match self {
            WireFailed::Fault => write!(f, "the call failed"),
            WireFailed::Memory => write!(f, "out of memory"),
        }
    }
}

impl Error for WireFailed {}

/// The wire of a lane. It takes frames of at most 600 octets each, and numbers them from 0.
pub trait Wire {
    /// The frames that were taken, in order, if they are known. With `None` the contracts say nothing of them.
    ghost frames: { Self → Option (List (List ℕ)) };

    /// How many frames were taken.
    ghost counted: { Self → ℕ };

    /// How many calls of `send_new` and `send_again` have failed.
    ghost faults: { Self → ℕ };

    /// Takes a frame, and returns its number. On an error no frame was taken.
    fn send_new(&mut self, bytes: &[u8]) -> Result<u64, WireFailed>
        requires short { length bytes.now ≤ 600 }
        ensures number { MatchResult result (λ n. (n ≡ counted self.old) × (counted self.new ≡ counted self.old + 1)) (λ _. counted self.new ≡ counted self.old) }
        ensures frame { TakesFrame (frames self.old) (frames self.new) result bytes.now }
        ensures cause { IsErrOf result Fault → Rose (faults self.old) (faults self.new) }
        ensures later { faults self.old ≤ faults self.new }
        ensures calm { (IsErrOf result Fault → ⊥) → faults self.new ≡ faults self.old };

    /// Takes the frame with this number once more, and returns the further number that it gets. On an error no frame was
    /// taken.
    fn send_again(&mut self, number: u64) -> Result<u64, WireFailed>
        requires there { number < counted self.old }
        ensures number { MatchResult result (λ n. (n ≡ counted self.old) × (counted self.new ≡ counted self.old + 1)) (λ _. counted self.new ≡ counted self.old) }
        ensures frame { TakesAgain (frames self.old) (frames self.new) result number }
        ensures cause { IsErrOf result Fault → Rose (faults self.old) (faults self.new) }
        ensures later { faults self.old ≤ faults self.new }
        ensures calm { (IsErrOf result Fault → ⊥) → faults self.new ≡ faults self.old };

    /// How many frames were taken.
    fn count(&self) -> u64
        ensures { result ≡ counted self.now };

    /// Copies the frame with this number to the front of the buffer, and returns its length in octets. It returns `None`
    /// exactly if no frame has that number.
    fn frame(&self, number: u64, into: &mut FrameOctets) -> Option<usize>
        ensures frame { MatchOption result
            ((counted self.now ≤ number) × (into.new ≡ into.old))
            (λ n. (number < counted self.now) × (n ≤ 600) × IsFrame (frames self.now) number n into.new.octets × (drop n into.new.octets ≡ drop n into.old.octets)) };

    /// If the frames are known, their number is the count of frames.
    ghost all_counted: { (wire : Self) → IfSome (frames wire) (λ all. length all ≡ counted wire) };
}
