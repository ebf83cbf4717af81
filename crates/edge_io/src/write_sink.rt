// A sink over a writer.
ghost use Rattle.std.specs.Prelude.{◌≡◌, OnOk, OnErr, None};
ghost use Rattle.qkd_base.specs.Faults.{HasCause, one_more};
ghost use Rattle.edge_io.specs.Writes.{WritesUpTo, WritesAll, TakesPiece};

use crate::{Failed, Sink};
use std::io::Write;
use std::marker::Model;

/// A sink over any writer of the standard library. It has taken the bytes that the writer has taken. It writes each
/// piece at once and then flushes. It counts each piece that fails, by an error or because the writer takes no more
/// bytes.
#[derive(Drop)]
pub struct WriteSink<W> {
    inner: W,
    faults: u64,
}

impl<W> Model for WriteSink<W> {
    ghost use Rattle.std.specs.Prelude.{ℕ};

    ghost Value = { W × ℕ };

    ghost view = { λ s. (s.inner, s.faults) };
}

impl<W> WriteSink<W> {
    /// A sink over this writer, with no failure so far.
    pub fn new(inner: W) -> Self
        ensures { result ≡ (inner, 0) }
    {
        WriteSink { inner, faults: 0 }
    }

    /// How often a write failed.
    pub fn faults(&self) -> u64
        ensures { result ≡ self.now.1 }
    {
        self.faults
    }
}

// Writes all of the bytes and flushes. The answer is whether both succeeded. If a write fails, the bytes after it are
// not written.
fn write_whole<W: Write>(inner: &mut W, bytes: &[u8]) -> bool
    ensures { WritesUpTo (W.contents inner.old) (W.contents inner.new) result bytes.now }
{
    let mut rest = bytes;
    for _ in 0..u64::MAX {
        if rest.is_empty() {
            return inner.flush().is_ok();
        }
        match inner.write(rest) {
            Ok(0) => return false,
            Ok(count) => rest = &rest[count..],
            Err(_) => return false,
        }
    }
    false
}

impl<W: Write> Sink for WriteSink<W> {
    ghost taken = { λ s. W.contents s.0 };

    ghost faults = { λ s. s.1 };

    fn write_all(&mut self, bytes: &[u8]) -> Result<(), Failed>
        ensures bytes { WritesAll (W.contents self.old.0) (W.contents self.new.0) result bytes.now }
        ensures piece { TakesPiece None None result bytes.now }
        ensures cause { HasCause self.old.1 self.new.1 result }
        ensures calm { OnOk result (self.new.1 ≡ self.old.1) }
        ensures once { OnErr result (self.new.1 ≡ one_more self.old.1) }
    {
        if write_whole(&mut self.inner, bytes) {
            Ok(())
        } else {
            self.faults = self.faults.saturating_add(1);
            Err(Failed)
        }
    }
}
