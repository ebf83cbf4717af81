// The table is printed by bench/vectors.py, which pads whole texts and multiplies lists of
// coefficients.
use wc_tags::{check, hash, tag};

// How many of the octets 0, 1, 2 .. are hashed, the key, and the hash.
const HASHES: &[(usize, u64, u64)] = &[
    (0, 0x0000_0000_0000_0001, 0x0000_0000_0000_0000),
    (1, 0x0000_0000_0000_0001, 0x0000_0000_0000_0001),
    (7, 0x0000_0000_0000_0001, 0x0001_0203_0405_0607),
    (8, 0x0000_0000_0000_0001, 0x0001_0203_0405_060f),
    (9, 0x0000_0000_0000_0001, 0x0801_0203_0405_060e),
    (585, 0x0000_0000_0000_0001, 0x0841_4243_4445_440e),
    (0, 0x0000_0000_0000_0002, 0x0000_0000_0000_0000),
    (1, 0x0000_0000_0000_0002, 0x0000_0000_0000_0002),
    (7, 0x0000_0000_0000_0002, 0x0004_080c_1014_180e),
    (8, 0x0000_0000_0000_0002, 0x0004_080c_1014_180c),
    (9, 0x0000_0000_0000_0002, 0x2008_1018_2028_302a),
    (585, 0x0000_0000_0000_0002, 0x8480_c7a3_f922_9b82),
    (0, 0x0123_4567_89ab_cdef, 0x0000_0000_0000_0000),
    (1, 0x0123_4567_89ab_cdef, 0x0123_4567_89ab_cdef),
    (7, 0x0123_4567_89ab_cdef, 0xc0e8_8eee_9099_a304),
    (8, 0x0123_4567_89ab_cdef, 0x0f9c_a77f_c476_1114),
    (9, 0x0123_4567_89ab_cdef, 0x55ff_8d4d_2159_4aef),
    (585, 0x0123_4567_89ab_cdef, 0x2c45_254f_7b38_023a),
];

// The header of a frame, and its masked payload.
const FRAME: [u8; 33] = [
    0x01, 0, 0, 0, 0, 0x11, 0, 0, 0, 0, 0, 0, 0, 0, 0, 0x08, 0x03, 0, 0, 0, 0, 0, 0, 0x80, 0, 0x80,
    0, 0, 0, 0, 0, 0, 0x01,
];

#[test]
fn hashes_and_tags(rt: HostRuntime) {
    let mut text = [0u8; 600];
    for i in 0..600usize {
        text[i] = (i % 256) as u8;
    }
    for (length, key, hashed) in HASHES {
        assert!(rt; *length <= 600);
        assert_eq!(rt;
            hash(*key, &text[..*length]),
            *hashed,
            "{length} octets under {key}"
        );
    }
    assert_eq!(rt; hash(2, b"\x01"), 0x0400_0000_0000_0002);
    assert_eq!(rt; hash(2, &FRAME), 0x7000_0000_0440_0942);
    assert_eq!(rt; tag(2, &FRAME, 0xff), 0x7000_0000_0440_09bd);
    assert!(rt; check(2, &FRAME, 0xff, 0x7000_0000_0440_09bd));
    for i in 0..64u32 {
        assert!(rt;
            !check(2, &FRAME, 0xff, 0x7000_0000_0440_09bd ^ (1 << i)),
            "bit {i}"
        );
    }
}
