ghost use Rattle.std.specs.Prelude.{◌≡◌, None};

use crate::cases::holds;
use disk_model::{Arm, Disk, DiskFailed, Image, KeptDisk, MemDisk, OctetFile, SystemFile};
use qkd_base::Memory;
use std::alloc::Global;
use std::fs;
use std::fs::OpenOptions;
use std::process::Abort;

// Writes, where the place is in the disk. The answer is whether it was written.
fn write(disk: &mut MemDisk, at: u64, bytes: &[u8]) -> Result<bool, Memory>
    ensures { disk.new.armings ≡ disk.old.armings }
{
    disk.room(16)?;
    if at > disk.content().len() as u64 || at > 8 || bytes.len() > 8 {
        return Ok(false);
    }
    Ok(disk.write_at(at, bytes).is_ok())
}

fn sync(disk: &mut MemDisk) -> Result<bool, Memory>
    ensures { disk.new.armings ≡ disk.old.armings }
{
    disk.room(16)?;
    Ok(disk.sync().is_ok())
}

fn read(disk: &mut MemDisk) -> Result<bool, Memory> {
    let mut two = [0; 2];
    if disk.content().len() < 3 {
        return Ok(false);
    }
    Ok(disk.read(1, &mut two).is_ok())
}

// The script's call of this number. The answer is whether it succeeded.
fn call(disk: &mut MemDisk, number: u32) -> Result<bool, Memory> {
    match number {
        1 => Ok(disk.len().is_ok()),
        2 => write(disk, 3, b"wxyz"),
        3 => sync(disk),
        4 => write(disk, 0, b"q"),
        5 => write(disk, 4, b"rstu"),
        6 => read(disk),
        7 => sync(disk),
        _ => write(disk, 1, b"vv"),
    }
}

// Whether a call fails under this fault.
fn fails_by(arm: Arm, number: u32) -> bool {
    match arm {
        Arm::Cut { call, .. } => call <= number,
        Arm::Fail { call } => call == number,
    }
}

// The disk after the script of eight calls on `abcd`, with this fault, and then revived.
fn run(rt: &impl Abort, alloc: Global, arm: Arm) -> Result<MemDisk, Memory> {
    let mut disk = MemDisk::new(alloc, b"abcd", Vec::new(alloc))?;
    disk.arm(arm);
    for number in 1..9u32 {
        let done = call(&mut disk, number)?;
        holds(rt, u64::from(number), done != fails_by(arm, number));
    }
    disk.revive();
    Ok(disk)
}

// Whether the disk then has this content.
fn leaves(rt: &impl Abort, alloc: Global, arm: Arm, content: &[u8]) -> bool {
    match run(rt, alloc, arm) {
        Ok(disk) => disk.content() == content,
        Err(_) => false,
    }
}

// The contents after a cut at each call: the old octets lost, kept, and torn.
const CUTS: [[&[u8]; 3]; 8] = [
    [b"abcd", b"abcd", b"abcd"],
    [b"abcd", b"abcwxyz", b"abc\xee\xee\xee\xee"],
    [b"abcd", b"abcwxyz", b"abc\xee\xee\xee\xee"],
    [b"abcwxyz", b"qbcwxyz", b"\xeebcwxyz"],
    [b"abcwxyz", b"qbcwrstu", b"\xeebcw\xee\xee\xee\xee"],
    [b"abcwxyz", b"qbcwrstu", b"\xeebcw\xee\xee\xee\xee"],
    [b"abcwxyz", b"qbcwrstu", b"\xeebcw\xee\xee\xee\xee"],
    [b"qbcwrstu", b"qvvwrstu", b"q\xee\xeewrstu"],
];

// Whether a cut at a call leaves this content.
fn cut_leaves(rt: &impl Abort, alloc: Global, call: u32, image: Image, content: &[u8]) -> bool {
    leaves(rt, alloc, Arm::Cut { call, image }, content)
}

#[test]
fn a_cut_at_each_call_leaves_its_image(rt: HostRuntime) {
    let alloc = rt.alloc();
    let mut call = 1;
    for [lost, kept, torn] in &CUTS {
        let case = u64::from(call);
        holds(&rt, case, cut_leaves(&rt, alloc, call, Image::Lost, lost));
        holds(&rt, case, cut_leaves(&rt, alloc, call, Image::Kept, kept));
        holds(&rt, case, cut_leaves(&rt, alloc, call, Image::Torn, torn));
        call = call.saturating_add(1);
    }
}

// The contents after each call failed alone.
const FAILURES: [&[u8]; 8] = [
    b"qvvwrstu",
    b"qvvdrstu",
    b"qvvwrstu",
    b"avvwrstu",
    b"qvvwxyz",
    b"qvvwrstu",
    b"qvvwrstu",
    b"qbcwrstu",
];

// The disk after the script, where a call is listed as failing.
fn run_listed(rt: &impl Abort, alloc: Global, failing: u32) -> Result<MemDisk, Memory> {
    let fails = vec![in alloc; u64::from(failing)]?;
    let mut disk = MemDisk::new(alloc, b"abcd", fails)?;
    for number in 1..9u32 {
        let done = call(&mut disk, number)?;
        holds(rt, u64::from(number), done == (number != failing));
    }
    Ok(disk)
}

// Whether the disk then has this content.
fn leaves_listed(rt: &impl Abort, alloc: Global, failing: u32, content: &[u8]) -> bool {
    match run_listed(rt, alloc, failing) {
        Ok(disk) => disk.content() == content,
        Err(_) => false,
    }
}

#[test]
fn a_failure_of_each_call_has_no_effect(rt: HostRuntime) {
    let mut call = 1;
    for content in &FAILURES {
        let case = u64::from(call);
        let arm = Arm::Fail { call };
        holds(&rt, case, leaves(&rt, rt.alloc(), arm, content));
        holds(&rt, case, leaves_listed(&rt, rt.alloc(), call, content));
        call = call.saturating_add(1);
    }
}

// Cuts a disk twice. A range that was lost counts as unsynced, as far as the disk has it, until a sync. A fault that has not
// fired stays.
fn cut_twice(rt: &impl Abort, alloc: Global) -> Result<(), Memory> {
    let mut disk = MemDisk::new(alloc, b"abc", Vec::new(alloc))?;
    disk.arm(Arm::Cut {
        call: 2,
        image: Image::Lost,
    });
    let _ = write(&mut disk, 2, b"xy")?;
    let _ = sync(&mut disk)?;
    disk.revive();
    assert!(rt; disk.content() == b"abc".as_slice());
    let _ = write(&mut disk, 0, b"q")?;
    disk.arm(Arm::Cut {
        call: 1,
        image: Image::Torn,
    });
    disk.revive();
    assert!(rt; disk.content() == b"qbc".as_slice());
    assert!(rt; disk.len() == Err(DiskFailed));
    disk.revive();
    assert!(rt; disk.content() == b"\xeeb\xee".as_slice());
    Ok(())
}

#[test]
fn a_later_cut_finds_what_an_earlier_one_left(rt: HostRuntime) {
    assert!(rt; cut_twice(&rt, rt.alloc()) == Ok(()));
}

// A file of which one call fails.
#[derive(Drop)]
struct FailingFile {
    calls: u32,
    fails: u32,
}

impl FailingFile {
    fn call(&mut self) -> Result<(), DiskFailed> {
        self.calls = self.calls.saturating_add(1);
        if self.calls == self.fails {
            Err(DiskFailed)
        } else {
            Ok(())
        }
    }
}

impl OctetFile for FailingFile {
    ghost octets = { λ _. None };

    ghost durable = { λ _. None };

    fn write_at(&mut self, at: u64, bytes: &[u8]) -> Result<(), DiskFailed> {
        let _ = at;
        let _ = bytes;
        self.call()
    }

    fn sync(&mut self) -> Result<(), DiskFailed> {
        self.call()
    }
}

// Which calls succeed of a disk over a file of which this call fails: a write, a sync, and behind a revival a sync and a
// look at the length.
fn kept(alloc: Global, fails: u32) -> Result<[bool; 4], Memory> {
    let memory = MemDisk::new(alloc, b"ab", Vec::new(alloc))?;
    let mut disk = KeptDisk::new(memory, FailingFile { calls: 0, fails });
    disk.room(16)?;
    let written = disk.write_at(2, b"cd").is_ok();
    let synced = disk.sync().is_ok();
    disk.revive();
    let again = disk.sync().is_ok();
    Ok([written, synced, again, disk.len() == Ok(4)])
}

#[test]
fn a_failure_of_its_file_ends_a_disk(rt: HostRuntime) {
    assert!(rt; kept(rt.alloc(), 0) == Ok([true, true, true, true]));
    assert!(rt; kept(rt.alloc(), 1) == Ok([false, false, false, false]));
    assert!(rt; kept(rt.alloc(), 2) == Ok([true, false, false, false]));
}

#[test]
fn a_file_keeps_a_disk(rt: HostRuntime) {
    let path = "disk_model_test";
    assert!(rt; fs::write(&rt, path, b"abc".as_slice()).is_ok());
    let Ok(file) = OpenOptions::new().write(true).open(&rt, path) else {
        panic!(rt; "not opened");
    };
    let Ok(memory) = MemDisk::new(rt.alloc(), b"abc", Vec::new(rt.alloc())) else {
        panic!(rt; "no memory");
    };
    let mut disk = KeptDisk::new(memory, SystemFile::new(file));
    let Ok(()) = disk.room(10) else {
        panic!(rt; "no room");
    };
    let Ok(()) = disk.write_at(2, b"xy") else {
        panic!(rt; "not written");
    };
    let Ok(()) = disk.sync() else {
        panic!(rt; "not synced");
    };
    assert!(rt; disk.len() == Ok(4));
    let Ok(held) = fs::read(&rt, path) else {
        panic!(rt; "not read");
    };
    assert!(rt; held.as_slice() == b"abxy".as_slice());
    assert!(rt; fs::remove_file(&rt, path).is_ok());
}
