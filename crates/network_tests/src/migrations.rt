// A journal of the first version is put into the second at a start.
use crate::octets::{FIRST, KEY, handed, new, old};
use crate::starts::{Alone, Started, start, start_over};
use disk_model::{Arm, Disk, Image, MemDisk};
use net_model::{Event, Reply};
use qkd_base::{KeyName, Memory, Octets, SaeNo};
use std::alloc::Global;

// The manager on a disk with these octets.
fn manager_over(alloc: Global, octets: &[u8]) -> Result<Option<Alone>, Memory> {
    match start_over(alloc, octets)? {
        Started::Up(manager) => Ok(Some(manager)),
        _ => Ok(None),
    }
}

// Whether that is all that is on the disk of a manager.
fn has_octets(manager: Alone, octets: &[u8]) -> bool {
    let (disk, _) = manager.crash();
    disk.content() == octets
}

// Whether these are key 1 of A and its bytes alone.
fn are_the_key(keys: &[(KeyName, Octets)]) -> bool {
    match keys {
        [(name, bytes)] => name.to_octets()[..] == KEY[1..17] && bytes.as_slice() == &KEY[26..],
        _ => false,
    }
}

// Whether a manager hands that key to the application that it is for.
fn hands_the_key(manager: &mut Alone) -> bool {
    let (Some(master), Some(slave)) = (SaeNo::new(0), SaeNo::new(1)) else {
        return false;
    };
    let event = Event::Enc {
        master,
        slave,
        number: 1,
        bits: 256,
    };
    match manager.act(&event, 1) {
        Reply::Handed { keys } => are_the_key(keys.as_slice()),
        _ => false,
    }
}

#[test]
fn an_old_journal_is_made_new(rt: HostRuntime) {
    let alloc = rt.alloc();
    let (Ok(old), Ok(new)) = (old(alloc), new(alloc)) else {
        panic!(rt; "no octets");
    };
    assert!(rt; old.len() == 2247);
    assert!(rt; new.len() == 4434);
    let Ok(Some(manager)) = manager_over(alloc, &old) else {
        panic!(rt; "not started");
    };
    assert!(rt; manager.is_up());
    assert!(rt; manager.journal_length() == 4434);
    assert!(rt; has_octets(manager, &new));
}

// What is made new is not made again.
#[test]
fn a_new_journal_stays(rt: HostRuntime) {
    let alloc = rt.alloc();
    let Ok(new) = new(alloc) else {
        panic!(rt; "no octets");
    };
    let Ok(Some(manager)) = manager_over(alloc, &new) else {
        panic!(rt; "not started");
    };
    assert!(rt; has_octets(manager, &new));
}

#[test]
fn a_manager_over_it_hands_its_key(rt: HostRuntime) {
    let alloc = rt.alloc();
    let (Ok(old), Ok(handed)) = (old(alloc), handed(alloc)) else {
        panic!(rt; "no octets");
    };
    let Ok(Some(mut manager)) = manager_over(alloc, &old) else {
        panic!(rt; "not started");
    };
    assert!(rt; hands_the_key(&mut manager));
    assert!(rt; manager.journal_length() == 4453);
    assert!(rt; has_octets(manager, &handed));
}

// A disk of the first version without a batch counts as blank.
#[test]
fn an_empty_old_journal_begins_anew(rt: HostRuntime) {
    let alloc = rt.alloc();
    let mut octets = [0; 17];
    octets[..16].copy_from_slice(&FIRST);
    let Ok(Some(manager)) = manager_over(alloc, &octets) else {
        panic!(rt; "not started");
    };
    octets[7] = 2;
    assert!(rt; manager.journal_length() == 17);
    assert!(rt; has_octets(manager, &octets));
}

// The disk of a start that is cut in that call, none where it isn't cut.
fn cut(alloc: Global, call: u32, image: Image) -> Result<Option<MemDisk>, Memory> {
    let mut disk = MemDisk::new(alloc, &old(alloc)?, Vec::new(alloc))?;
    disk.arm(Arm::Cut { call, image });
    match start(alloc, disk)? {
        Started::Stopped(disk) => Ok(Some(disk)),
        _ => Ok(None),
    }
}

fn is_cut(alloc: Global, call: u32) -> Result<bool, Memory> {
    Ok(cut(alloc, call, Image::Kept)?.is_some())
}

// Whether a start that is cut in that call is stopped, and the next one makes of the disk what it would have made, and hands the key.
fn is_made_up_for(alloc: Global, call: u32, image: Image) -> Result<bool, Memory> {
    let Some(disk) = cut(alloc, call, image)? else {
        return Ok(false);
    };
    match start(alloc, disk)? {
        Started::Up(mut manager) => {
            let is_handed = hands_the_key(&mut manager);
            Ok(is_handed && has_octets(manager, &handed(alloc)?))
        }
        _ => Ok(false),
    }
}

// Before the five calls of its checkpoint a start syncs, reads the length and the head, three parts of each batch, and the gate behind
// the last one.
const CALLS: u32 = 3 + 3 * 6 + 1 + 5;

#[test]
fn a_cut_start_is_made_up_for(rt: HostRuntime) {
    for call in 1..=CALLS {
        assert!(rt; is_made_up_for(rt.alloc(), call, Image::Lost) == Ok(true));
        assert!(rt; is_made_up_for(rt.alloc(), call, Image::Kept) == Ok(true));
        assert!(rt; is_made_up_for(rt.alloc(), call, Image::Torn) == Ok(true));
    }
    assert!(rt; is_cut(rt.alloc(), CALLS + 1) == Ok(false));
}
