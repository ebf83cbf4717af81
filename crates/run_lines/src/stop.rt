// Why a run ends early.
ghost use Rattle.std.specs.Prelude.{◌≡◌};
ghost use Rattle.run_lines.specs.declared.stop.Stop.TheVariants.{Memory as WantOfMemory};

use qkd_base::Memory;
use std::error::Error;
use std::fmt;

/// Why a run ends before all its lines are done.
#[derive(Clone, Copy, Debug, PartialEq, Eq)]
pub enum Stop {
    /// The sink failed.
    WriteFault,
    /// Out of memory.
    Memory,
    /// The line of this number brought octets with a valid tag that no manager had put on the wire.
    Forged(u32),
}

impl From<Memory> for Stop {
    ghost from_gives = { λ _ stop. stop ≡ WantOfMemory };

    fn from(_: Memory) -> Self {
        Stop::Memory
    }
}

impl fmt::Display for Stop {
    ghost use Rattle.std.specs.Prelude.{Some};
    ghost use Rattle.run_lines.specs.Sayings.{said_of};

    ghost output = { λ r. Some (said_of r) };

    fn fmt<W: fmt::Write>(&self, f: &mut fmt::Formatter<W>) -> fmt::Result {
        match self {
            Stop::WriteFault => write!(f, "the report could not be written"),
            Stop::Memory => write!(f, "out of memory"),
            Stop::Forged(line) => write!(f, "a forged frame has a right tag at line {line}"),
        }
    }
}

impl Error for Stop {}
