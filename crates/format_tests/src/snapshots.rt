use disk_model::MemDisk;
use journal_snapshot::{SnapRefused, Snapshots, open};
use qkd_base::{Memory, Octets};
use range_journal::JournalRefusal;
use std::alloc::Global;

// The batch of one record, a handing to one application, in version 1.
pub const BODY: [u8; 21] = [
    0, 1, 5, 0, 0, 0, 0, 0, 0, 0x80, 0, 0x80, 0, 0, 0, 0, 0, 0, 1, 0, 0,
];

// A disk with that batch: header, open gate, length, body, closed gate.
pub const WRITTEN: [u8; 43] = [
    0x51, 0x4b, 0x44, 0x4a, 0x52, 0x4e, 0x4c, 2, 0, 0, 0, 0, 0, 0, 0, 0, 1, 0, 0, 0, 0x15, 0, 1, 5,
    0, 0, 0, 0, 0, 0, 0x80, 0, 0x80, 0, 0, 0, 0, 0, 0, 1, 0, 0, 0,
];

// That disk after a checkpoint with the batches 09 and 09 09: its start is 50, which octets 9 to 15 say.
pub const MOVED: [u8; 64] = [
    0x51, 0x4b, 0x44, 0x4a, 0x52, 0x4e, 0x4c, 2, 1, 2, 0, 0, 0, 0, 0, 50, 1, 0, 0, 0, 0x15, 0, 1,
    5, 0, 0, 0, 0, 0, 0, 0x80, 0, 0x80, 0, 0, 0, 0, 0, 0, 1, 0, 0, 0, 0, 0, 0, 0, 0, 0, 0, 1, 0, 0,
    0, 1, 9, 1, 0, 0, 0, 2, 9, 9, 0,
];

// The first of these disks with another octet in a place.
pub fn written(place: usize, octet: u8) -> [u8; 43] {
    let mut octets = WRITTEN;
    octets[place.min(42)] = octet;
    octets
}

// The second.
pub fn moved(place: usize, octet: u8) -> [u8; 64] {
    let mut octets = MOVED;
    octets[place.min(63)] = octet;
    octets
}

fn opened(alloc: Global, octets: &[u8]) -> Option<Snapshots<MemDisk>> {
    let Ok(disk) = MemDisk::new(alloc, octets, Vec::new(alloc)) else {
        return None;
    };
    open(alloc, disk).ok()
}

// The batches of a checkpoint.
pub fn list(alloc: Global, octet: u8) -> Result<Vec<Octets>, Memory> {
    let mut batches = Vec::new(alloc);
    batches.push(Octets::from_slice(alloc, &[octet])?)?;
    batches.push(Octets::from_slice(alloc, &[octet, octet])?)?;
    Ok(batches)
}

fn replaced(snapshots: Snapshots<MemDisk>, batches: &[Octets]) -> Option<Snapshots<MemDisk>> {
    if !snapshots.fits(batches) {
        return None;
    }
    snapshots.checkpoint(batches).ok()
}

#[test]
fn a_new_disk_takes_a_batch(rt: HostRuntime) {
    let Some(mut snapshots) = opened(rt.alloc(), &[]) else {
        panic!(rt; "not opened");
    };
    assert!(rt; snapshots.length() == 17);
    assert!(rt; snapshots.start() == 16);
    assert!(rt; snapshots.generation() == 0);
    assert!(rt; !snapshots.is_moved());
    assert!(rt; snapshots.version() == 2);
    assert!(rt; snapshots.room(21).is_ok());
    let Ok(snapshots) = snapshots.append(&BODY) else {
        panic!(rt; "not added");
    };
    assert!(rt; snapshots.length() == 43);
    assert!(rt; snapshots.batches().len() == 1);
    let disk = snapshots.into_disk();
    assert!(rt; disk.content() == WRITTEN.as_slice());
}

#[test]
fn a_first_checkpoint_moves_the_disk(rt: HostRuntime) {
    let alloc = rt.alloc();
    let Ok(batches) = list(alloc, 9) else {
        panic!(rt; "no batches");
    };
    let Some(snapshots) = opened(alloc, &written(7, 1)) else {
        panic!(rt; "not opened");
    };
    assert!(rt; snapshots.version() == 1);
    assert!(rt; snapshots.need(&batches) == 14);
    let Some(snapshots) = replaced(snapshots, &batches) else {
        panic!(rt; "not made");
    };
    assert!(rt; snapshots.version() == 2);
    assert!(rt; snapshots.length() == 64);
    let disk = snapshots.into_disk();
    assert!(rt; disk.content() == moved(7, 1).as_slice());
}

fn checkpointed(
    alloc: Global,
    snapshots: Snapshots<MemDisk>,
    octet: u8,
) -> Option<Snapshots<MemDisk>> {
    let batches = list(alloc, octet).ok()?;
    replaced(snapshots, &batches)
}

// A disk after so many checkpoints.
pub fn octets_after(alloc: Global, octets: &[u8], rounds: u8) -> Option<Vec<u8>> {
    let mut snapshots = opened(alloc, octets)?;
    for round in 0..rounds {
        snapshots = checkpointed(alloc, snapshots, round)?;
    }
    let disk = snapshots.into_disk();
    disk.content().to_vec(alloc).ok()
}

// The live start, the generation, the length, whether the disk was moved, and the version.
fn marks(alloc: Global, octets: &[u8]) -> Option<(u64, u64, u64, bool, u8)> {
    let snapshots = opened(alloc, octets)?;
    Some((
        snapshots.start(),
        snapshots.generation(),
        snapshots.length(),
        snapshots.is_moved(),
        snapshots.version(),
    ))
}

// The same after so many checkpoints, and after the disk is opened again.
fn marks_after(alloc: Global, rounds: u8) -> Option<(u64, u64, u64, bool, u8)> {
    let octets = octets_after(alloc, &WRITTEN, rounds)?;
    marks(alloc, &octets)
}

#[test]
fn checkpoints_take_turns(rt: HostRuntime) {
    let alloc = rt.alloc();
    assert!(rt; marks_after(alloc, 0) == Some((16, 0, 43, false, 2)));
    assert!(rt; marks_after(alloc, 1) == Some((50, 0, 64, true, 2)));
    assert!(rt; marks_after(alloc, 2) == Some((64, 1, 78, true, 2)));
    assert!(rt; marks_after(alloc, 3) == Some((50, 2, 64, true, 2)));
    assert!(rt; marks_after(alloc, 4) == Some((64, 3, 78, true, 2)));
    assert!(rt; marks_after(alloc, 5) == Some((50, 4, 64, true, 2)));
}

// The two slots after three checkpoints.
#[test]
fn slots_say_generation_version_and_start(rt: HostRuntime) {
    let Some(octets) = octets_after(rt.alloc(), &WRITTEN, 3) else {
        panic!(rt; "no checkpoints");
    };
    let slots = [
        3, 3, 0, 0, 0, 0, 0, 0, 0, 1, 2, 0, 0, 0, 0, 0, 0, 64, 0, 0, 0, 0, 0, 0, 0, 2, 2, 0, 0, 0,
        0, 0, 0, 50,
    ];
    assert!(rt; octets.len() == 78);
    assert!(rt; octets[16..50] == slots[..]);
}

// Where a disk with these octets is refused.
fn refused(alloc: Global, octets: &[u8]) -> Option<u64> {
    let Ok(disk) = MemDisk::new(alloc, octets, Vec::new(alloc)) else {
        return None;
    };
    match open(alloc, disk) {
        Err((JournalRefusal::Foreign(place), _)) => Some(place),
        _ => None,
    }
}

// Octets with others in places.
fn changed(alloc: Global, octets: &[u8], changes: &[(usize, u8)]) -> Option<Vec<u8>> {
    let mut octets = octets.to_vec(alloc).ok()?;
    for (place, octet) in changes {
        if let Some(old) = octets.get_mut(*place) {
            *old = *octet;
        }
    }
    Some(octets)
}

// Whether a disk with an octet in a place is refused at a place, for each of these.
fn are_refused(alloc: Global, octets: &[u8], cases: &[(usize, u8, u64)]) -> bool {
    for (place, octet, wanted) in cases {
        let Some(octets) = changed(alloc, octets, &[(*place, *octet)]) else {
            return false;
        };
        if refused(alloc, &octets) != Some(*wanted) {
            return false;
        }
    }
    true
}

#[test]
fn foreign_disks_are_refused_at_their_place(rt: HostRuntime) {
    let alloc = rt.alloc();
    let plain = [
        (3, 0, 3),
        (7, 3, 7),
        (20, 0x16, 43),
        (20, 0x17, 16),
        (42, 1, 42),
        (8, 1, 9),
    ];
    assert!(rt; are_refused(alloc, &WRITTEN, &plain));
    let moved = [
        (0, 0, 0),
        (9, 1, 9),
        (15, 49, 9),
        (15, 64, 9),
        (10, 1, 9),
        (54, 10, 50),
        (63, 1, 63),
    ];
    assert!(rt; are_refused(alloc, &MOVED, &moved));
}

#[test]
fn foreign_slots_are_refused_at_their_place(rt: HostRuntime) {
    let alloc = rt.alloc();
    let Some(second) = octets_after(alloc, &WRITTEN, 2) else {
        panic!(rt; "no checkpoints");
    };
    let cases = [(26, 1, 26), (33, 49, 26), (27, 1, 26)];
    assert!(rt; are_refused(alloc, &second, &cases));
    let Some(third) = octets_after(alloc, &WRITTEN, 3) else {
        panic!(rt; "no checkpoints");
    };
    assert!(rt; are_refused(alloc, &third, &[(42, 3, 42), (49, 78, 42)]));
}

// The live start and the generation of a disk with other octets in two places.
fn live(alloc: Global, octets: &[u8], changes: &[(usize, u8); 2]) -> Option<(u64, u64)> {
    let octets = changed(alloc, octets, changes)?;
    let snapshots = opened(alloc, &octets)?;
    Some((snapshots.start(), snapshots.generation()))
}

// Octets on a disk with two open slots, and the area that is live then.
const LIVE: [([(usize, u8); 2], u64, u64); 8] = [
    ([(0, 0x51), (0, 0x51)], 50, 2),
    ([(17, 0), (9, 0xff)], 64, 1),
    ([(16, 0xee), (26, 0xff)], 50, 2),
    ([(16, 0), (17, 1)], 50, 0),
    ([(25, 2), (0, 0x51)], 64, 2),
    ([(25, 3), (42, 0xff)], 64, 3),
    ([(18, 1), (0, 0x51)], 64, 0x0100_0000_0000_0001),
    ([(8, 2), (16, 9)], 16, 0),
];

#[test]
fn the_newer_open_slot_is_live(rt: HostRuntime) {
    let alloc = rt.alloc();
    let Some(octets) = octets_after(alloc, &WRITTEN, 3) else {
        panic!(rt; "no checkpoints");
    };
    for (changes, start, generation) in &LIVE {
        assert!(rt; live(alloc, &octets, changes) == Some((*start, *generation)));
    }
}

// The moved disk after a batch of so many zeros.
fn filled(alloc: Global, size: usize) -> Option<Snapshots<MemDisk>> {
    let octets = vec![in alloc; 0u8; size].ok()?;
    opened(alloc, &MOVED)?.append(&octets).ok()
}

// Whether a checkpoint of one batch of so many octets fits.
fn fits(alloc: Global, snapshots: &Snapshots<MemDisk>, size: usize) -> Option<bool> {
    let octets = vec![in alloc; 0u8; size].ok()?;
    let mut batches = Vec::new(alloc);
    batches.push(Octets::from_vec(octets)).ok()?;
    Some(snapshots.fits(&batches))
}

#[test]
fn a_full_journal_refuses(rt: HostRuntime) {
    let alloc = rt.alloc();
    let Some(snapshots) = filled(alloc, 33_554_331) else {
        panic!(rt; "not filled");
    };
    assert!(rt; snapshots.length() == 33_554_400);
    let Err(SnapRefused::Kept(why, snapshots)) = snapshots.append(&[0; 28]) else {
        panic!(rt; "added");
    };
    let full = JournalRefusal::JournalFull {
        length: 33_554_400,
        need: 33,
    };
    assert!(rt; why == full);
    assert!(rt; fits(alloc, &snapshots, 26) == Some(true));
    assert!(rt; fits(alloc, &snapshots, 27) == Some(false));
    let Ok(snapshots) = snapshots.append(&[0; 27]) else {
        panic!(rt; "not added");
    };
    assert!(rt; snapshots.length() == 33_554_432);
}
