// A sink that gathers pieces.
ghost use Rattle.std.specs.Prelude.{◌≡◌, [], OnOk, OnErr, IfOk, None};
ghost use Rattle.std.specs.Io.KnownBytes.{Keeps};
ghost use Rattle.qkd_base.specs.Faults.{HasCause, one_more};
ghost use Rattle.edge_io.specs.Writes.{WritesUpTo, WritesAll, TakesPiece};
ghost use Rattle.gathered_sink.specs.Gathered.{taken_of};

use edge_io::{Failed, Sink};
use qkd_base::Memory;
use std::alloc::Global;
use std::io::{BufWriter, Write};
use std::marker::Model;

/// A sink over any writer of the standard library. It holds what it takes until a piece doesn't fit, or until it is finished. It has
/// taken the bytes that the writer has taken, and then those that it holds. If a write fails, what wasn't written stays held. Where it
/// is dropped it tries once to write what it holds.
#[derive(Drop)]
pub struct GatheredSink<W: Write + Drop> {
    buffered: BufWriter<W>,
    faults: u64,
}

impl<W: Write + Drop> Model for GatheredSink<W> {
    ghost use Rattle.std.specs.Io.Buffered.{writer_inner, writer_buffer};
    ghost use Rattle.gathered_sink.specs.Gathered.{Gathered};

    ghost Value = { Gathered W };

    ghost view = { λ s. record { inner = writer_inner s.buffered; held = writer_buffer s.buffered; faults = s.faults } };
}

impl<W: Write + Drop> GatheredSink<W> {
    /// A sink over this writer, with no failure so far and room for so many bytes. Where there is none it writes each piece at once.
    pub fn new(alloc: Global, inner: W, room: usize) -> Result<Self, Memory>
        ensures { IfOk result (λ sink. sink ≡ record { inner = inner; held = []; faults = 0 }) }
    {
        match BufWriter::with_capacity(alloc, room, inner) {
            Ok(buffered) => Ok(GatheredSink {
                buffered,
                faults: 0,
            }),
            Err(_) => Err(Memory),
        }
    }

    /// How often a write failed.
    pub fn faults(&self) -> u64
        ensures { result ≡ self.now.faults }
    {
        self.faults
    }

    /// Writes what is held. After a failure it may be called again.
    pub fn finish(&mut self) -> Result<(), Failed>
        ensures bytes { Keeps (taken_of W.contents self.old) (taken_of W.contents self.new) }
        ensures none_held { OnOk result (self.new.held ≡ []) }
        ensures calm { OnOk result (self.new.faults ≡ self.old.faults) }
        ensures once { OnErr result (self.new.faults ≡ one_more self.old.faults) }
    {
        match self.buffered.flush() {
            Ok(()) => Ok(()),
            Err(_) => {
                self.faults = self.faults.saturating_add(1);
                Err(Failed)
            }
        }
    }
}

// Writes all of the bytes, or those before the first that can't be written. The answer is whether it was all.
fn write_whole<W: Write>(writer: &mut W, bytes: &[u8]) -> bool
    ensures { WritesUpTo (W.contents writer.old) (W.contents writer.new) result bytes.now }
{
    let mut rest = bytes;
    for _ in 0..u64::MAX {
        if rest.is_empty() {
            return true;
        }
        match writer.write(rest) {
            Ok(0) => return false,
            Ok(count) => rest = &rest[count..],
            Err(_) => return false,
        }
    }
    false
}

impl<W: Write + Drop> Sink for GatheredSink<W> {
    ghost taken = { λ s. taken_of W.contents s };

    ghost faults = { λ s. s.faults };

    fn write_all(&mut self, bytes: &[u8]) -> Result<(), Failed>
        ensures bytes { WritesAll (taken_of W.contents self.old) (taken_of W.contents self.new) result bytes.now }
        ensures piece { TakesPiece None None result bytes.now }
        ensures cause { HasCause self.old.faults self.new.faults result }
        ensures calm { OnOk result (self.new.faults ≡ self.old.faults) }
        ensures once { OnErr result (self.new.faults ≡ one_more self.old.faults) }
    {
        if write_whole(&mut self.buffered, bytes) {
            Ok(())
        } else {
            self.faults = self.faults.saturating_add(1);
            Err(Failed)
        }
    }
}
