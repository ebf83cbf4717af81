// What stands on the disks: the layout of a journal.
use crate::bench::FirstParts;
use crate::run::{Outcome, run};
use disk_model::MemDisk;
use qkd_base::Memory;
use std::alloc::Global;
use std::sync::Wait;
use std::test::Fail;
use std::thread::Threads;

// The run of a pair with so many blocks that a start makes a checkpoint, and then these lines.
fn run_of<R: Threads + Wait + Sync>(rt: &R, alloc: Global, lines: &str) -> Result<Outcome, Memory> {
    let text = format!(in alloc; "node A\nnode B\nlink A B\nbits 0 both 64\n{lines}end\n")?;
    run(rt, alloc, text.as_str(), FirstParts::new(alloc, 64)?)
}

fn first_disk(outcome: &Outcome) -> Result<&MemDisk, Fail> {
    Ok(outcome.bench.disks.first().ok_or("no disk")?)
}

#[test]
fn a_journal_is_made_short_at_a_start(rt: HostRuntime) -> Result<(), Fail> {
    let alloc = rt.alloc();
    let whole = run_of(&rt, alloc, "")?;
    let octets = first_disk(&whole)?.content();
    assert_eq!(rt; octets.len(), 66385);
    assert_eq!(rt;
        octets.get(..17),
        Some(b"QKDJRNL\x02\0\0\0\0\0\0\0\0\x01".as_slice())
    );
    assert_eq!(rt; octets.get(66384), Some(&0));
    let once = run_of(&rt, alloc, "crash A\nstart A\n")?;
    let octets = first_disk(&once)?.content();
    assert_eq!(rt; octets.len(), 132313);
    assert_eq!(rt;
        octets.get(8..16),
        Some([1, 2, 0, 0, 0, 1, 3, 0x51].as_slice())
    );
    assert_eq!(rt; octets.get(66385), Some(&1));
    assert_eq!(rt; octets.get(132312), Some(&0));
    let twice = run_of(&rt, alloc, "crash A\nstart A\ncrash A\nstart A\n")?;
    let octets = first_disk(&twice)?.content();
    assert_eq!(rt; octets.len(), 132313);
    assert_eq!(rt; octets.get(8), Some(&1));
    assert_eq!(rt; octets.get(16), Some(&3));
    assert_eq!(rt;
        octets.get(18..34),
        Some([0, 0, 0, 0, 0, 0, 0, 1, 2, 0, 0, 0, 0, 0, 0, 50].as_slice())
    );
    assert_eq!(rt; octets.get(50), Some(&1));
    assert_eq!(rt; octets.get(65977), Some(&0));
    Ok(())
}

const HANDED: &str =
    "node A\nnode B\nlink A B\nsae alice A\nsae bob B\nallow alice bob\nbits 0 both 2\nfill alice bob 256 1\nsettle 10\nenc A alice bob 1 256\nend\n";

// The last batch is the master's mark of one key: its gate, its length, one record of kind 5 and the next gate.
#[test]
fn a_handed_key_is_marked(rt: HostRuntime) -> Result<(), Fail> {
    let alloc = rt.alloc();
    let outcome = run(&rt, alloc, HANDED, FirstParts::new(alloc, 2)?)?;
    let octets = first_disk(&outcome)?.content();
    assert_eq!(rt; octets.len(), 2257);
    let batch = [1, 0, 0, 0, 14, 0, 1, 5, 0, 0, 0, 1, 0, 0, 0, 0, 0, 0, 1, 0];
    assert_eq!(rt; octets.get(2237..), Some(batch.as_slice()));
    Ok(())
}
