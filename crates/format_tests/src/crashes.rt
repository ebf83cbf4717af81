ghost use Rattle.std.specs.Prelude.{◌≤◌};

use crate::cases::{IMAGES, holds};
use crate::snapshots::{BODY, MOVED, WRITTEN, list, moved, octets_after, written};
use disk_model::{Arm, Disk, Image, MemDisk};
use journal_snapshot::{SnapRefused, open};
use range_journal::JournalRefusal;
use std::alloc::Global;
use std::process::Abort;

// The live start of a disk and how many batches it has.
fn start_and_count(alloc: Global, disk: MemDisk) -> Option<(u64, usize)>
    requires { disk.allowance.used ≤ 12 }
{
    match open(alloc, disk) {
        Ok(snapshots) => Some((snapshots.start(), snapshots.batches().len())),
        Err(_) => None,
    }
}

// Whether a checkpoint that is cut at that call was cut, and the live start of the disk that is then opened again, and
// how many batches it has.
fn cut_checkpoint(
    alloc: Global,
    octets: &[u8],
    call: u32,
    image: Image,
) -> Option<(bool, (u64, usize))> {
    let batches = list(alloc, 7).ok()?;
    let Ok(disk) = MemDisk::new(alloc, octets, Vec::new(alloc)) else {
        return None;
    };
    let Ok(mut snapshots) = open(alloc, disk) else {
        return None;
    };
    snapshots.arm(Arm::Cut { call, image });
    if !snapshots.fits(&batches) {
        return None;
    }
    match snapshots.checkpoint(&batches) {
        Ok(snapshots) => Some((false, (snapshots.start(), snapshots.batches().len()))),
        Err(SnapRefused::Spent(disk)) => Some((true, start_and_count(alloc, disk)?)),
        Err(SnapRefused::Kept(..)) => None,
    }
}

// The checkpoints made beforehand, the calls that one more makes, and the live start and the batches before and after it.
struct Course {
    rounds: u8,
    calls: u32,
    before: (u64, usize),
    after: (u64, usize),
}

// A checkpoint makes five calls, and two more before these where it clears a mark.
const COURSES: [Course; 5] = [
    Course {
        rounds: 0,
        calls: 5,
        before: (16, 1),
        after: (50, 2),
    },
    Course {
        rounds: 1,
        calls: 5,
        before: (50, 2),
        after: (64, 2),
    },
    Course {
        rounds: 2,
        calls: 5,
        before: (64, 2),
        after: (50, 2),
    },
    Course {
        rounds: 3,
        calls: 7,
        before: (50, 2),
        after: (64, 2),
    },
    Course {
        rounds: 4,
        calls: 7,
        before: (64, 2),
        after: (50, 2),
    },
];

// Cuts a checkpoint of a course at each call, with each image.
fn leaves_old_or_new(rt: &impl Abort, alloc: Global, first: &[u8], course: &Course) {
    let Some(octets) = octets_after(alloc, first, course.rounds) else {
        panic!(rt; "no checkpoints");
    };
    let calls = course.calls;
    for call in 1..9 {
        for image in &IMAGES {
            let found = cut_checkpoint(alloc, &octets, call, *image);
            let is_new = call > calls || (call + 1 >= calls && *image == Image::Kept);
            let wanted = if is_new { course.after } else { course.before };
            holds(rt, u64::from(call), found == Some((call <= calls, wanted)));
        }
    }
}

#[test]
fn a_cut_checkpoint_leaves_the_old_or_the_new(rt: HostRuntime) {
    for version in [1, 2] {
        let first = written(7, version);
        for course in &COURSES {
            leaves_old_or_new(&rt, rt.alloc(), &first, course);
        }
    }
}

// How many batches there are after an append that was cut at that call, with that image, where it was cut.
fn count_after_cut(alloc: Global, octets: &[u8], call: u32, image: Image) -> Option<usize> {
    let Ok(disk) = MemDisk::new(alloc, octets, Vec::new(alloc)) else {
        return None;
    };
    let Ok(mut snapshots) = open(alloc, disk) else {
        return None;
    };
    snapshots.arm(Arm::Cut { call, image });
    match snapshots.append(&BODY) {
        Err(SnapRefused::Spent(disk)) => Some(start_and_count(alloc, disk)?.1),
        _ => None,
    }
}

// Cuts an append at each call, with each image, on a disk of so many batches.
fn leaves_all_or_nothing(
    rt: &impl Abort,
    alloc: Global,
    octets: &[u8],
    before: usize,
    after: usize,
) {
    for call in 1..5 {
        for image in &IMAGES {
            let count = count_after_cut(alloc, octets, call, *image);
            let is_there = call >= 3 && *image == Image::Kept;
            let wanted = if is_there { after } else { before };
            holds(rt, u64::from(call), count == Some(wanted));
        }
    }
}

#[test]
fn a_cut_append_leaves_all_or_nothing(rt: HostRuntime) {
    let alloc = rt.alloc();
    leaves_all_or_nothing(&rt, alloc, &written(7, 1), 1, 2);
    for rounds in [1, 3] {
        let Some(octets) = octets_after(alloc, &WRITTEN, rounds) else {
            panic!(rt; "no checkpoints");
        };
        leaves_all_or_nothing(&rt, alloc, &octets, 2, 3);
    }
}

// Opens a disk that is cut at that call, and where it is cut opens it again. The answer is whether it was cut, and how
// many batches there are.
fn opened_after_cut(
    alloc: Global,
    octets: &[u8],
    call: u32,
    image: Image,
) -> Option<(bool, usize)> {
    let Ok(mut disk) = MemDisk::new(alloc, octets, Vec::new(alloc)) else {
        return None;
    };
    disk.arm(Arm::Cut { call, image });
    match open(alloc, disk) {
        Ok(snapshots) => Some((false, snapshots.batches().len())),
        Err((JournalRefusal::Disk, disk)) => Some((true, start_and_count(alloc, disk)?.1)),
        Err(_) => None,
    }
}

// Cuts an opening that makes so many calls at each of them, and after them, with each image.
fn loses_nothing(rt: &impl Abort, alloc: Global, octets: &[u8], calls: u32, batches: usize) {
    for call in 1..14 {
        for image in &IMAGES {
            let found = opened_after_cut(alloc, octets, call, *image);
            holds(rt, u64::from(call), found == Some((call <= calls, batches)));
        }
    }
}

// An opening makes a sync, a len, a read of the front, three reads a batch and one of the last gate. A gate that isn't 00
// there is closed and synced, and a blank disk gets its header and is synced.
#[test]
fn a_cut_opening_loses_nothing(rt: HostRuntime) {
    let alloc = rt.alloc();
    loses_nothing(&rt, alloc, &[], 5, 0);
    loses_nothing(&rt, alloc, &written(7, 1), 7, 1);
    loses_nothing(&rt, alloc, &written(42, 0xee), 9, 1);
    loses_nothing(&rt, alloc, &MOVED, 10, 2);
    loses_nothing(&rt, alloc, &moved(63, 0xee), 12, 2);
}
