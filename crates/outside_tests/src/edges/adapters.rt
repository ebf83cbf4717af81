// The adapters over readers and writers.
ghost use Rattle.std.specs.Prelude.{◌≤◌, IfOk};

use crate::cases::holds;
use edge_io::{Failed, Gate, OpenGate, ReadSource, Sink, Source, WriteSink};
use std::io;

#[test]
fn a_source_passes_bytes_on(rt: HostRuntime) {
    let mut source = ReadSource::new(b"abc".as_slice());
    let mut buffer = [0u8; 2];
    assert!(rt; source.read(&mut buffer) == Ok(2));
    assert!(rt; buffer == *b"ab");
    assert!(rt; source.read(&mut buffer) == Ok(1));
    assert!(rt; source.read(&mut buffer) == Ok(0));
    assert!(rt; source.read(&mut buffer) == Ok(0));
    assert!(rt; source.faults() == 0);
}

#[test]
fn a_sink_passes_bytes_on(rt: HostRuntime) {
    let mut held = Vec::new(rt.alloc());
    {
        let mut sink = WriteSink::new(&mut held);
        assert!(rt; sink.write_all(b"xy") == Ok(()));
        assert!(rt; sink.write_all(b"z") == Ok(()));
        assert!(rt; sink.faults() == 0);
    }
    assert!(rt; held.as_slice() == b"xyz".as_slice());
}

// At each call it takes or gives so many bytes, or fails.
#[derive(Drop)]
struct Script {
    answers: [Option<usize>; 4],
    calls: usize,
    flush_fails: bool,
    flushes: usize,
}

impl Script {
    fn next(&mut self, most: usize) -> io::Result<usize>
        ensures { IfOk result (λ count. count ≤ most) }
    {
        let answer = self.answers.get(self.calls).copied();
        self.calls = self.calls.saturating_add(1);
        match answer {
            Some(Some(count)) => Ok(count.min(most)),
            _ => Err(io::Error::from(io::ErrorKind::Interrupted)),
        }
    }
}

impl io::Write for Script {
    fn write(&mut self, bytes: &[u8]) -> io::Result<usize> {
        self.next(bytes.len())
    }

    fn flush(&mut self) -> io::Result<()> {
        self.flushes = self.flushes.saturating_add(1);
        if self.flush_fails {
            Err(io::Error::from(io::ErrorKind::Other))
        } else {
            Ok(())
        }
    }
}

impl io::Read for Script {
    fn read(&mut self, into: &mut [u8]) -> io::Result<usize> {
        self.next(into.len())
    }
}

fn make_script(answers: [Option<usize>; 4], flush_fails: bool) -> Script {
    Script {
        answers,
        calls: 0,
        flush_fails,
        flushes: 0,
    }
}

// What a writer answers, and whether its flush fails; then what the sink over it answers to three bytes, and how often the writer
// was called and flushed.
const WRITERS: [([Option<usize>; 4], bool, Result<(), Failed>, usize, usize); 6] = [
    ([Some(1), Some(1), Some(1), None], false, Ok(()), 3, 1),
    ([Some(1), Some(3), None, None], false, Ok(()), 2, 1),
    (
        [Some(0), Some(3), Some(3), Some(3)],
        false,
        Err(Failed),
        1,
        0,
    ),
    ([None, Some(3), Some(3), Some(3)], false, Err(Failed), 1, 0),
    ([Some(1), None, Some(3), Some(3)], false, Err(Failed), 2, 0),
    ([Some(3), None, None, None], true, Err(Failed), 1, 1),
];

// What the sink answers, and how many faults it has.
fn written(writer: &mut Script, bytes: &[u8]) -> (Result<(), Failed>, u64) {
    let mut sink = WriteSink::new(writer);
    let result = sink.write_all(bytes);
    (result, sink.faults())
}

#[test]
fn no_error_of_a_writer_is_passed_over(rt: HostRuntime) {
    let mut row = 0u64;
    for (answers, flush_fails, result, calls, flushes) in &WRITERS {
        let mut writer = make_script(*answers, *flush_fails);
        let (found, faults) = written(&mut writer, b"abc");
        holds(&rt, row, found == *result);
        holds(&rt, row, faults == u64::from(result.is_err()));
        holds(&rt, row, writer.calls == *calls);
        holds(&rt, row, writer.flushes == *flushes);
        row = row.saturating_add(1);
    }
}

#[test]
fn an_empty_piece_is_flushed_too(rt: HostRuntime) {
    let mut writer = make_script([None, None, None, None], false);
    let (found, _) = written(&mut writer, b"");
    assert!(rt; found == Ok(()));
    assert!(rt; writer.calls == 0);
    assert!(rt; writer.flushes == 1);
}

// What a source over that reader answers in turn, and how many faults it has then.
const READS: [(Result<usize, Failed>, u64); 5] = [
    (Ok(2), 0),
    (Err(Failed), 1),
    (Ok(1), 1),
    (Ok(0), 1),
    (Err(Failed), 2),
];

#[test]
fn a_failed_read_is_not_tried_again(rt: HostRuntime) {
    let mut reader = make_script([Some(2), None, Some(1), Some(0)], false);
    {
        let mut source = ReadSource::new(&mut reader);
        let mut buffer = [0u8; 8];
        for (result, faults) in &READS {
            assert!(rt; source.read(&mut buffer) == *result);
            assert!(rt; source.faults() == *faults);
        }
    }
    assert!(rt; reader.calls == 5);
}

#[test]
fn an_open_gate_holds_nobody(rt: HostRuntime) {
    OpenGate.pass(0, 0);
    OpenGate.seal(31, 8);
    assert!(rt; true);
}
