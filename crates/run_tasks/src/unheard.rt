// A sink for reports that nobody reads.
ghost use Rattle.std.specs.Prelude.{None};

use edge_io::{Failed, Sink};

/// A sink that keeps nothing and never fails.
#[derive(Clone, Copy, Debug)]
pub struct Unheard;

impl Sink for Unheard {
    ghost taken = { λ _. None };

    ghost faults = { λ _. 0 };

    fn write_all(&mut self, _bytes: &[u8]) -> Result<(), Failed> {
        Ok(())
    }

    fn is_heard(&self) -> bool {
        false
    }
}
