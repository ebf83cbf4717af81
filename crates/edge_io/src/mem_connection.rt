// A connection in memory.
ghost use Rattle.std.specs.Prelude.{◌≡◌, IfOk};
ghost use Rattle.edge_io.specs.Doors.{source_of, sink_of};

use crate::{Ended, MemSink, MemSource};
use qkd_base::Memory;
use std::alloc::Global;
use std::marker::Model;

/// A connection that waits to be accepted.
#[derive(Debug, Drop)]
pub struct MemConnection {
    source: MemSource,
    sink: MemSink,
}

impl Model for MemConnection {
    ghost use Rattle.std.specs.Prelude.{◌≡◌};
    ghost use Rattle.edge_io.specs.Doors.{ConnectionForm, source_of, sink_of};

    ghost Value = { ConnectionForm };

    ghost view = { λ c. record { sent = c.source.left; read_fails = c.source.fails; room = c.sink.room; write_fails = c.sink.fails } };

    ghost invariant = { λ c. (c.source ≡ source_of (record { sent = c.source.left; read_fails = c.source.fails; room = c.sink.room; write_fails = c.sink.fails }))
        × (c.sink ≡ sink_of (record { sent = c.source.left; read_fails = c.source.fails; room = c.sink.room; write_fails = c.sink.fails })) };
}

impl MemConnection {
    /// A connection whose peer sends these bytes and whose sink has room for `room` bytes. The lists have the numbers
    /// of the reads and of the writes that fail.
    pub fn new(
        alloc: Global,
        sent: Vec<u8>,
        read_fails: Vec<u64>,
        room: usize,
        write_fails: Vec<u64>,
    ) -> Result<Self, Memory>
        ensures { IfOk result (λ c. c ≡ record { sent = sent.items; read_fails = read_fails.items; room = room; write_fails = write_fails.items }) }
    {
        let sink = MemSink::new(alloc, room, write_fails)?;
        Ok(MemConnection {
            source: MemSource::new(sent, read_fails),
            sink,
        })
    }

    // The source and the sink of the connection.
    pub(crate) fn into_ends(self) -> (MemSource, MemSink)
        ensures source { result.0 ≡ source_of self }
        ensures sink { result.1 ≡ sink_of self }
    {
        let MemConnection { source, sink } = self;
        (source, sink)
    }
}

/// A connection that was finished, with its source, its sink and the way it ended.
#[derive(Debug, Drop)]
pub struct MemFinished {
    pub source: MemSource,
    pub sink: MemSink,
    pub ended: Ended,
}
