// Octets through a sink that gathers them, to a writer that takes few of them at a time.
use crate::GatheredSink;
use edge_io::{Failed, Sink};
use qkd_base::Memory;
use std::alloc::Global;
use std::io;

// Takes at most two octets at a call, and as many as it has room for. The call of one number fails, and each without room.
#[derive(Drop)]
struct Narrow {
    taken: Vec<u8>,
    room: usize,
    fails: usize,
    calls: usize,
}

impl Narrow {
    fn new(alloc: Global, room: usize, fails: usize) -> Self {
        Narrow {
            taken: Vec::new(alloc),
            room,
            fails,
            calls: 0,
        }
    }
}

impl io::Write for Narrow {
    fn write(&mut self, bytes: &[u8]) -> io::Result<usize> {
        let call = self.calls;
        self.calls = call.saturating_add(1);
        let count = bytes.len().min(2).min(self.room);
        if call == self.fails || count == 0 {
            return Err(io::Error::from(io::ErrorKind::StorageFull));
        }
        self.room -= count;
        self.taken.extend_from_slice(&bytes[..count])?;
        Ok(count)
    }

    fn flush(&mut self) -> io::Result<()> {
        Ok(())
    }
}

// What a sink answers to the pieces `ab`, `c` and `defgh`, and at its end. The result is how many faults it has then.
fn written(
    alloc: Global,
    writer: &mut Narrow,
    room: usize,
    answers: &mut [Result<(), Failed>; 4],
) -> Result<u64, Memory> {
    let mut sink = GatheredSink::new(alloc, writer, room)?;
    answers[0] = sink.write_all(b"ab");
    answers[1] = sink.write_all(b"c");
    answers[2] = sink.write_all(b"defgh");
    answers[3] = sink.finish();
    Ok(sink.faults())
}

const DONE: Result<(), Failed> = Ok(());

const FAILED: Result<(), Failed> = Err(Failed);

// How many octets a sink gathers, how many the writer has room for, and which of its calls fails. Then what the sink answers, how
// many octets the writer took, and how often it was called, also when the sink is dropped.
const ROWS: [(usize, usize, usize, [Result<(), Failed>; 4], usize, usize); 7] = [
    (0, 8, 9, [DONE, DONE, DONE, DONE], 8, 5),
    (4, 8, 9, [DONE, DONE, DONE, DONE], 8, 5),
    (100, 8, 9, [DONE, DONE, DONE, DONE], 8, 4),
    (100, 3, 9, [DONE, DONE, DONE, FAILED], 3, 4),
    (4, 2, 9, [DONE, DONE, FAILED, FAILED], 2, 4),
    (4, 8, 1, [DONE, DONE, FAILED, DONE], 3, 3),
    (0, 2, 9, [DONE, FAILED, FAILED, DONE], 2, 3),
];

// A sink's octets come out once, in order, and each write that fails is told.
#[test]
fn no_gathered_octet_is_lost_or_comes_twice(rt: HostRuntime) {
    let mut row = 0u64;
    for (gathered, room, fails, answers, count, calls) in &ROWS {
        let mut writer = Narrow::new(rt.alloc(), *room, *fails);
        let mut found = [DONE; 4];
        let Ok(faults) = written(rt.alloc(), &mut writer, *gathered, &mut found) else {
            panic!(rt; "no memory");
        };
        let failed = answers.iter().filter(|it| it.is_err()).count();
        let taken = b"abcdefgh".get(..*count);
        assert!(rt; found == *answers, "row {row}");
        assert!(rt; faults == failed as u64, "row {row}");
        assert!(rt; Some(writer.taken.as_slice()) == taken, "row {row}");
        assert!(rt; writer.calls == *calls, "row {row}");
        row = row.saturating_add(1);
    }
}
