// What is no journal of a manager is refused at its place.
use crate::octets::old;
use crate::starts::{Started, start_over};
use qkd_base::Memory;
use std::alloc::Global;
use std::test::Fail;

// The place at which a start refuses so many of the octets of a journal, of which one is changed.
fn refused(alloc: Global, length: usize, place: usize, octet: u8) -> Result<Option<u64>, Memory> {
    let mut octets = old(alloc)?;
    if let Some(there) = octets.get_mut(place) {
        *there = octet;
    }
    octets.truncate(length);
    match start_over(alloc, &octets)? {
        Started::Foreign(place) => Ok(Some(place)),
        _ => Ok(None),
    }
}

// The journal has 2,247 octets, and its gates are at 16, 1,053, 2,090, 2,158, 2,176, 2,200 and 2,246.
const DISKS: &[(usize, usize, u8, Option<u64>)] = &[
    // as it is
    (2247, 0, 0x51, None),
    // the header, and its version
    (2247, 0, 0x52, Some(0)),
    (2247, 6, 0x4d, Some(6)),
    (2247, 7, 0, Some(7)),
    (2247, 7, 3, Some(7)),
    // kinds of records: the first block's, the key's, and that of the key's payload
    (2247, 23, 8, Some(16)),
    (2247, 2097, 8, Some(2090)),
    (2247, 2100, 8, Some(2090)),
    // the note's length
    (2247, 2209, 35, Some(2200)),
    // a body that isn't whole, and one without a gate behind it
    (2245, 0, 0x51, Some(2200)),
    (2246, 0, 0x51, Some(2246)),
    // a body that claims an octet too many
    (2247, 2204, 42, Some(2247)),
];

#[test]
fn a_foreign_disk_is_refused_at_its_place(rt: HostRuntime) -> Result<(), Fail> {
    for (length, place, octet, wanted) in DISKS {
        let found = refused(rt.alloc(), *length, *place, *octet)?;
        assert_eq!(rt;
            (*length, *place, *octet, found),
            (*length, *place, *octet, *wanted)
        );
    }
    Ok(())
}
