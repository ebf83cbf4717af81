use pad_veil::{Sealed, SealedFrame, VeilRefusal, veiled};
use qkd_base::{Memory, Octets};
use std::alloc::Global;
use std::test::Fail;
use tag_bound::RootRefusal;

// Frames by their offsets and the lengths of their two payloads.
fn frames(alloc: Global, rows: &[(u64, usize, usize)]) -> Result<Sealed, Memory> {
    let mut frames = Sealed::new(alloc);
    for (offset, old, new) in rows {
        frames.push(SealedFrame {
            offset: *offset,
            old: Octets::from_vec(vec![in alloc; 1u8; *old]?),
            new: Octets::from_vec(vec![in alloc; 2u8; *new]?),
        })?;
    }
    Ok(frames)
}

// The bytes at 10 to 12 become 0a xor 41 xor 61, 0b xor 42 xor 62 and 0c xor 43 xor 00.
#[test]
fn one_payload_is_exchanged(rt: HostRuntime) -> Result<(), Fail> {
    let alloc = rt.alloc();
    let mut frames = Sealed::new(alloc);
    frames.push(SealedFrame {
        offset: 10,
        old: Octets::from_slice(alloc, &[0x41, 0x42, 0x43])?,
        new: Octets::from_slice(alloc, &[0x61, 0x62, 0x00])?,
    })?;
    let lane: [u8; 32] = [
        0, 1, 2, 3, 4, 5, 6, 7, 8, 9, 10, 11, 12, 13, 14, 15, 16, 17, 18, 19, 20, 21, 22, 23, 24,
        25, 26, 27, 28, 29, 30, 31,
    ];
    let answer = veiled(alloc, &lane, &frames)?;
    let wanted: [u8; 32] = [
        0, 1, 2, 3, 4, 5, 6, 7, 8, 9, 0x2a, 0x2b, 0x4f, 13, 14, 15, 16, 17, 18, 19, 20, 21, 22, 23,
        24, 25, 26, 27, 28, 29, 30, 31,
    ];
    assert_eq!(rt; answer.as_slice(), wanted.as_slice());
    Ok(())
}

// Frames on a lane of 32 bytes that just fit and lie apart, and frames that just fail to.
const FAULTS: &[(&[(u64, usize, usize)], Option<VeilRefusal>)] = &[
    (&[], None),
    (&[(8, 16, 16)], None),
    (&[(24, 0, 0), (8, 8, 8)], None),
    (&[(8, 16, 15)], Some(VeilRefusal::Unequal(0))),
    (&[(8, 1, 1), (7, 0, 1)], Some(VeilRefusal::Unequal(1))),
    (&[(7, 1, 1)], Some(VeilRefusal::Outside(0))),
    (&[(8, 17, 17)], Some(VeilRefusal::Outside(0))),
    (&[(9, 16, 16)], Some(VeilRefusal::Outside(0))),
    (&[(u64::MAX, 1, 1)], Some(VeilRefusal::Outside(0))),
    (&[(8, 2, 2), (17, 7, 7)], Some(VeilRefusal::Overlap(1))),
    (&[(17, 7, 7), (8, 2, 2)], Some(VeilRefusal::Overlap(1))),
    (
        &[(8, 0, 0), (24, 0, 0), (8, 0, 0)],
        Some(VeilRefusal::Overlap(2)),
    ),
    (
        &[(8, 16, 16), (8, 16, 16), (8, 1, 2)],
        Some(VeilRefusal::Overlap(1)),
    ),
];

#[test]
fn the_first_fault_is_refused(rt: HostRuntime) -> Result<(), Fail> {
    let alloc = rt.alloc();
    let lane = [0u8; 32];
    for (case, (rows, wanted)) in FAULTS.iter().enumerate() {
        let frames = frames(alloc, rows)?;
        let refusal = veiled(alloc, &lane, &frames).err();
        assert_eq!(rt; refusal, *wanted, "at case {case}");
    }
    Ok(())
}

const ROOTS: &[(RootRefusal, &str)] = &[
    (RootRefusal::TooLong, "a text has more than 600 octets"),
    (RootRefusal::Equal, "the texts are equal"),
    (RootRefusal::Repeated(3), "the key at place 3 is repeated"),
];

const WRITTEN: &[(VeilRefusal, &str)] = &[
    (
        VeilRefusal::Unequal(1),
        "frame 1 has payloads of two lengths",
    ),
    (VeilRefusal::Outside(2), "frame 2 lies outside of the lane"),
    (VeilRefusal::Overlap(30), "frame 30 meets an earlier one"),
    (VeilRefusal::Memory, "out of memory"),
];

#[test]
fn refusals_are_written(rt: HostRuntime) -> Result<(), Fail> {
    let alloc = rt.alloc();
    for (refusal, wanted) in WRITTEN {
        let text = format!(in alloc; "{refusal}")?;
        assert_eq!(rt; text.as_str(), *wanted);
    }
    for (refusal, wanted) in ROOTS {
        let text = format!(in alloc; "{refusal}")?;
        assert_eq!(rt; text.as_str(), *wanted);
    }
    Ok(())
}
