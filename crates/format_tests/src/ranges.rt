ghost use Rattle.std.specs.Prelude.{◌≤◌};

use crate::cases::{IMAGES, holds};
use disk_model::{Arm, Disk, Image, MemDisk};
use range_journal::{Journal, JournalRefusal, Refused, open, open_at};
use std::alloc::Global;
use std::process::Abort;

// The batch of one record, a handing to one application.
const BODY: [u8; 21] = [
    0, 1, 5, 0, 0, 0, 0, 0, 0, 0x80, 0, 0x80, 0, 0, 0, 0, 0, 0, 1, 0, 0,
];

// A disk with that batch: header, open gate, length, body, closed gate.
const WRITTEN: [u8; 43] = [
    0x51, 0x4b, 0x44, 0x4a, 0x52, 0x4e, 0x4c, 2, 0, 0, 0, 0, 0, 0, 0, 0, 1, 0, 0, 0, 0x15, 0, 1, 5,
    0, 0, 0, 0, 0, 0, 0x80, 0, 0x80, 0, 0, 0, 0, 0, 0, 1, 0, 0, 0,
];

// That disk with another octet in a place.
fn changed(place: usize, octet: u8) -> [u8; 43] {
    let mut octets = WRITTEN;
    octets[place.min(42)] = octet;
    octets
}

fn opened(alloc: Global, octets: &[u8]) -> Option<Journal<MemDisk>> {
    let Ok(disk) = MemDisk::new(alloc, octets, Vec::new(alloc)) else {
        return None;
    };
    open(alloc, disk).ok()
}

#[test]
fn a_batch_is_added(rt: HostRuntime) {
    let Some(journal) = opened(rt.alloc(), &[]) else {
        panic!(rt; "not opened");
    };
    assert!(rt; journal.length() == 17);
    let Ok(journal) = journal.append(&BODY) else {
        panic!(rt; "not added");
    };
    assert!(rt; journal.length() == 43);
    let disk = journal.into_disk();
    assert!(rt; disk.content() == WRITTEN.as_slice());
}

// How many batches a disk has.
fn count(alloc: Global, disk: MemDisk) -> Option<usize>
    requires { disk.allowance.used ≤ 12 }
{
    match open(alloc, disk) {
        Ok(journal) => Some(journal.batches().len()),
        Err(_) => None,
    }
}

// How many batches there are after an append that was cut at that call, with that image, where it was cut.
fn count_after_cut(alloc: Global, octets: &[u8], call: u32, image: Image) -> Option<usize> {
    let Ok(disk) = MemDisk::new(alloc, octets, Vec::new(alloc)) else {
        return None;
    };
    let Ok(mut journal) = open(alloc, disk) else {
        return None;
    };
    journal.arm(Arm::Cut { call, image });
    match journal.append(&BODY) {
        Err(Refused::Spent(disk)) => count(alloc, disk),
        _ => None,
    }
}

#[test]
fn a_cut_append_leaves_all_or_nothing(rt: HostRuntime) {
    for version in [1, 2] {
        let octets = changed(7, version);
        for call in 1..5 {
            for image in &IMAGES {
                let count = count_after_cut(rt.alloc(), &octets, call, *image);
                let is_there = call >= 3 && *image == Image::Kept;
                let batches = if is_there { 2 } else { 1 };
                holds(&rt, u64::from(call), count == Some(batches));
            }
        }
    }
}

// Opens a disk that is cut at that call, and where it is cut opens it again. The answer is whether it was cut, and how
// many batches there are.
fn opened_after_cut(
    alloc: Global,
    octets: &[u8],
    call: u32,
    image: Image,
) -> Option<(bool, usize)> {
    let Ok(mut disk) = MemDisk::new(alloc, octets, Vec::new(alloc)) else {
        return None;
    };
    disk.arm(Arm::Cut { call, image });
    match open(alloc, disk) {
        Ok(journal) => Some((false, journal.batches().len())),
        Err((JournalRefusal::Disk, disk)) => Some((true, count(alloc, disk)?)),
        Err(_) => None,
    }
}

// Whether an opening that makes so many calls is cut at each of them and no other, and has so many batches at last.
fn loses_nothing(rt: &impl Abort, alloc: Global, octets: &[u8], calls: u32, batches: usize) {
    for call in 1..11 {
        for image in &IMAGES {
            let found = opened_after_cut(alloc, octets, call, *image);
            holds(rt, u64::from(call), found == Some((call <= calls, batches)));
        }
    }
}

// An opening makes a sync, a len, a read of the header, three reads a batch and one of the last gate. A gate that isn't
// 00 there is closed and synced, and a blank disk gets its header and is synced.
#[test]
fn a_cut_opening_loses_nothing(rt: HostRuntime) {
    let alloc = rt.alloc();
    loses_nothing(&rt, alloc, &[], 5, 0);
    loses_nothing(&rt, alloc, &changed(7, 1), 7, 1);
    loses_nothing(&rt, alloc, &changed(42, 0xee), 9, 1);
}

// Why a disk with these octets isn't opened.
fn refusal(alloc: Global, octets: &[u8]) -> Option<JournalRefusal> {
    let Ok(disk) = MemDisk::new(alloc, octets, Vec::new(alloc)) else {
        return None;
    };
    match open(alloc, disk) {
        Ok(_) => None,
        Err((why, _)) => Some(why),
    }
}

// A length to which the disk is cut, an octet in a place, and where it is refused.
const FOREIGN: [(usize, usize, u8, u64); 9] = [
    (43, 3, 0, 3),
    (43, 7, 0, 7),
    (43, 7, 3, 7),
    (30, 3, 0x4a, 16),
    (20, 3, 0x4a, 16),
    (42, 3, 0x4a, 42),
    (43, 20, 0x16, 43),
    (43, 20, 0x17, 16),
    (43, 42, 1, 42),
];

#[test]
fn foreign_disks_are_refused_at_their_place(rt: HostRuntime) {
    for (length, place, octet, refused) in &FOREIGN {
        let octets = changed(*place, *octet);
        let why = refusal(rt.alloc(), &octets[..(*length).min(43)]);
        holds(
            &rt,
            *refused,
            why == Some(JournalRefusal::Foreign(*refused)),
        );
    }
}

// A new journal after a batch of so many zeros.
fn filled(alloc: Global, size: usize) -> Option<Journal<MemDisk>> {
    let octets = vec![in alloc; 0u8; size].ok()?;
    opened(alloc, &[])?.append(&octets).ok()
}

#[test]
fn a_full_journal_refuses(rt: HostRuntime) {
    let Some(journal) = filled(rt.alloc(), 33_554_378) else {
        panic!(rt; "not filled");
    };
    assert!(rt; journal.length() == 33_554_400);
    let Err(Refused::Kept(why, journal)) = journal.append(&[0; 28]) else {
        panic!(rt; "added");
    };
    let full = JournalRefusal::JournalFull {
        length: 33_554_400,
        need: 33,
    };
    assert!(rt; why == full);
    let Ok(journal) = journal.append(&[0; 27]) else {
        panic!(rt; "not added");
    };
    assert!(rt; journal.length() == 33_554_432);
}

#[test]
fn memory_is_there_beforehand(rt: HostRuntime) {
    let Some(mut journal) = opened(rt.alloc(), &[]) else {
        panic!(rt; "not opened");
    };
    assert!(rt; journal.room(21).is_ok());
    let Ok(journal) = journal.append(&BODY) else {
        panic!(rt; "not added");
    };
    assert!(rt; journal.batches().len() == 1);
}

// The disk with that batch, opened behind it.
fn opened_behind(alloc: Global) -> Option<Journal<MemDisk>> {
    let Ok(mut disk) = MemDisk::new(alloc, &WRITTEN, Vec::new(alloc)) else {
        return None;
    };
    let Ok(()) = disk.room(43) else {
        return None;
    };
    match disk.len() {
        Ok(size) if size >= 42 => open_at(alloc, disk, 42).ok(),
        _ => None,
    }
}

// Batches from a later place, behind another header.
#[test]
fn a_journal_is_opened_at_a_place(rt: HostRuntime) {
    let Some(journal) = opened_behind(rt.alloc()) else {
        panic!(rt; "not opened");
    };
    assert!(rt; journal.length() == 43);
    assert!(rt; journal.batches().is_empty());
}
