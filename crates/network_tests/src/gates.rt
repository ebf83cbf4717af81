// Workers that are held, to see that several are at work at once.
use crate::bench::{FirstParts, octets};
use crate::run::{ROOM, held_over, source};
use edge_io::{Gate, MemSink};
use qkd_base::Memory;
use qkd_network::Status;
use std::alloc::Global;
use std::sync::atomic::{AtomicU64, Ordering};
use std::test::Fail;

// How often a held worker looks whether it may go on.
const TRIES: u32 = 100_000_000;

// Holds worker 0 before its first line until worker 1 has come to its second.
#[derive(Drop)]
struct Ahead {
    has_come: AtomicU64,
    was_in_vain: AtomicU64,
}

impl Ahead {
    fn hold(&self) {
        for _ in 0..TRIES {
            if self.has_come.load(Ordering::SeqCst) == 1 {
                return;
            }
        }
        self.was_in_vain.store(1, Ordering::SeqCst);
    }
}

impl Gate for Ahead {
    fn pass(&self, worker: u32, turn: u32) {
        if worker == 1 && turn == 1 {
            self.has_come.store(1, Ordering::SeqCst);
        }
        if worker == 0 && turn == 0 {
            self.hold();
        }
    }

    fn seal(&self, _link: u8, _offset: u64) {}
}

// Forty keys that are ready at both ends, and a block in which the master takes each.
fn forty(alloc: Global) -> Result<String, Memory> {
    let mut text = String::from_str(
        alloc,
        "node A\nnode B\nlink A B\nsae alice A\nsae bob B\nallow alice bob\nbits 0 both 8\nfill alice bob 256 40\nsettle 10\ntogether\n",
    )?;
    for _ in 0..40u8 {
        text.push_str("enc A alice bob 1 256\n")?;
    }
    text.push_str("apart\nend\n")?;
    Ok(text)
}

// Whether the lines of a report that hand keys hand those of count 1 to 40, one after another.
fn hands_all(alloc: Global, report: &str) -> Result<bool, Memory> {
    let mut count = 0u32;
    for line in report.split('\n') {
        if let Some((_, keys)) = line.split_once(" keys ") {
            count = count.saturating_add(1);
            let name = format!(in alloc; "00000000-0000-8000-8000-{count:012x} ")?;
            if !keys.starts_with(name.as_str()) {
                return Ok(false);
            }
        }
    }
    Ok(count == 40)
}

#[test]
fn a_worker_goes_on_while_another_is_held(rt: HostRuntime) -> Result<(), Fail> {
    let alloc = rt.alloc();
    let gate = Ahead {
        has_come: AtomicU64::new(0),
        was_in_vain: AtomicU64::new(0),
    };
    let text = forty(alloc)?;
    let mut first = FirstParts::new(alloc, 8)?;
    first.drawn = octets(alloc, 2048)?;
    let mut source = source(alloc, text.as_str())?;
    let mut sink = MemSink::new(alloc, ROOM, Vec::new(alloc))?;
    let (status, _bench) = held_over(&rt, alloc, &gate, "run 4", first, &mut source, &mut sink)?;
    let report = String::from_utf8_lossy(alloc, sink.taken())?;
    assert_eq!(rt; status, Status::Done);
    assert!(rt; hands_all(alloc, report.as_str())?);
    assert_eq!(rt; gate.was_in_vain.load(Ordering::SeqCst), 0);
    Ok(())
}

// Holds worker 1 before its first line until a frame is being sealed, and who seals first until another does too.
#[derive(Drop)]
struct BothSeal {
    sealing: AtomicU64,
    was_in_vain: AtomicU64,
}

impl BothSeal {
    // Waits until so many frames are being sealed, or were.
    fn wait_for(&self, count: u64) {
        for _ in 0..TRIES {
            if self.sealing.load(Ordering::SeqCst) >= count {
                return;
            }
        }
        self.was_in_vain.store(1, Ordering::SeqCst);
    }
}

impl Gate for BothSeal {
    fn pass(&self, worker: u32, turn: u32) {
        if worker == 1 && turn == 0 {
            self.wait_for(1);
        }
    }

    fn seal(&self, _link: u8, _offset: u64) {
        self.sealing.fetch_add(1, Ordering::SeqCst);
        self.wait_for(2);
    }
}

// One key on its way, and a block in which two workers tick its node. It has so many lines that more than one worker does it.
const TWO_TICKS: &str = "node A\n\
    node B\n\
    link A B\n\
    sae alice A\n\
    sae bob B\n\
    allow alice bob\n\
    bits 0 both 8\n\
    fill alice bob 256 1\n\
    together\n\
    tick A\n\
    fill alice bob 256 1\n\
    status A alice bob\n\
    tick A\n\
    status A alice bob\nstatus A alice bob\nstatus A alice bob\nstatus A alice bob\n\
    status A alice bob\nstatus A alice bob\nstatus A alice bob\nstatus A alice bob\n\
    status A alice bob\nstatus A alice bob\nstatus A alice bob\nstatus A alice bob\n\
    apart\nend\n";

#[test]
fn two_workers_seal_at_once(rt: HostRuntime) -> Result<(), Fail> {
    let alloc = rt.alloc();
    let gate = BothSeal {
        sealing: AtomicU64::new(0),
        was_in_vain: AtomicU64::new(0),
    };
    let mut first = FirstParts::new(alloc, 8)?;
    first.drawn = octets(alloc, 64)?;
    let mut source = source(alloc, TWO_TICKS)?;
    let mut sink = MemSink::new(alloc, ROOM, Vec::new(alloc))?;
    let (status, _bench) = held_over(&rt, alloc, &gate, "run 2", first, &mut source, &mut sink)?;
    let report = String::from_utf8_lossy(alloc, sink.taken())?;
    assert_eq!(rt; status, Status::Done);
    assert!(rt;
        report.as_str().contains("sent 0 up 0 ") && report.as_str().contains("sent 0 up 1 ")
    );
    assert_eq!(rt; gate.was_in_vain.load(Ordering::SeqCst), 0);
    Ok(())
}
