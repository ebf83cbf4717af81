// A source over a reader.
ghost use Rattle.std.specs.Prelude.{◌≡◌, OnOk, OnErr};
ghost use Rattle.std.specs.Io.{ReadsAtMost};
ghost use Rattle.std.specs.Io.KnownBytes.{ReadConsumes};
ghost use Rattle.qkd_base.specs.Faults.{HasCause, one_more};

use crate::{Failed, Source};
use std::io::Read;
use std::marker::Model;

/// A source over any reader of the standard library. It has the bytes that the reader has. Each call reads once, and
/// each error is counted.
#[derive(Drop)]
pub struct ReadSource<R> {
    inner: R,
    faults: u64,
}

impl<R> Model for ReadSource<R> {
    ghost use Rattle.std.specs.Prelude.{ℕ};

    ghost Value = { R × ℕ };

    ghost view = { λ s. (s.inner, s.faults) };
}

impl<R> ReadSource<R> {
    /// A source over this reader, with no failure so far.
    pub fn new(inner: R) -> Self
        ensures { result ≡ (inner, 0) }
    {
        ReadSource { inner, faults: 0 }
    }

    /// How often a read failed.
    pub fn faults(&self) -> u64
        ensures { result ≡ self.now.1 }
    {
        self.faults
    }
}

impl<R: Read> Source for ReadSource<R> {
    ghost left = { λ s. R.remaining s.0 };

    ghost faults = { λ s. s.1 };

    fn read(&mut self, into: &mut [u8]) -> Result<usize, Failed>
        ensures bound { ReadsAtMost result into.new }
        ensures bytes { ReadConsumes (R.remaining self.old.0) (R.remaining self.new.0) result into.new }
        ensures cause { HasCause self.old.1 self.new.1 result }
        ensures calm { OnOk result (self.new.1 ≡ self.old.1) }
        ensures once { OnErr result (self.new.1 ≡ one_more self.old.1) }
    {
        match self.inner.read(into) {
            Ok(count) => Ok(count),
            Err(_) => {
                self.faults = self.faults.saturating_add(1);
                Err(Failed)
            }
        }
    }
}
