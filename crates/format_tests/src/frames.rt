// Frames that nobody sealed: what is opened of them where their tag is right.
use hop_frames::{OpenRefusal, open};
use link_segments::Segments;
use qkd_base::{Lane, LinkNo, Way};
use std::alloc::Global;

// A frame of 17 octets of payload over lane bytes that are 0, but byte 7, which is 2: the name of a key, acknowledged.
const INVENTED: [u8; 41] = [
    1, 0, 0, 0, 0, 0x11, 0, 0, 0, 0, 0, 0, 0, 0, 0, 8, 3, 0, 0, 0, 0, 0, 0, 0x80, 0, 0x80, 0, 0, 0,
    0, 0, 0, 1, 0x70, 0, 0, 0, 4, 0x40, 9, 0x42,
];

// Frames with a right tag on the first lane, one of 17 zeros, one of an acknowledgement and an octet more.
const ZEROS: [u8; 41] = [
    1, 0, 0, 0, 0, 0x11, 0, 0, 0, 0, 0, 0, 0, 0, 0, 8, 0x3b, 0x42, 0x49, 0x50, 0x57, 0x5e, 0x65,
    0x6c, 0x73, 0x7a, 0x81, 0x88, 0x8f, 0x96, 0x9d, 0xa4, 0xab, 0xb6, 0x38, 0x72, 0x5f, 0xce, 0xb7,
    0xd7, 0xac,
];

const LONGER: [u8; 42] = [
    1, 0, 0, 0, 0, 0x12, 0, 0, 0, 0, 0, 0, 0, 0, 0, 8, 0x38, 0x42, 0x49, 0x50, 0x57, 0x5e, 0x65,
    0xec, 0x73, 0xfa, 0x81, 0x88, 0x8f, 0x96, 0x9d, 0xa4, 0xaa, 0xb2, 0x65, 0x51, 0xdc, 0xd3, 0x5d,
    0xe3, 0xb8, 0xcd,
];

fn lane() -> Lane {
    Lane {
        link: LinkNo::new(0).unwrap(),
        way: Way::Up,
    }
}

// One block, whose byte number i is 7 i + 3 modulo 256.
fn one_block(alloc: Global) -> Option<Segments> {
    let mut block = [0u8; 1024];
    for i in 0..1024u64 {
        block[i as usize] = ((7 * i + 3) % 256) as u8;
    }
    let mut held = Segments::new(alloc);
    held.take_block(0, &block).ok()?;
    Some(held)
}

// The refusal of octets on the lane.
fn refusal_of(alloc: Global, held: &Segments, frame: &[u8]) -> Option<OpenRefusal> {
    open(alloc, lane(), frame, held).err()
}

// One block of zeros, but for byte 7, which is 2.
fn plain_block(alloc: Global) -> Option<Segments> {
    let mut block = [0u8; 1024];
    block[7] = 2;
    let mut held = Segments::new(alloc);
    held.take_block(0, &block).ok()?;
    Some(held)
}

// What nobody sealed is opened only where its tag is right.
#[test]
fn invented_frames(rt: HostRuntime) {
    let alloc = rt.alloc();
    let (Some(plain), Some(held)) = (plain_block(alloc), one_block(alloc)) else {
        panic!(rt; "no block");
    };
    let mut frame = INVENTED;
    assert!(rt; open(alloc, lane(), &frame, &plain).is_ok());
    frame[40] = 0x43;
    let bad_tag = OpenRefusal::BadTag {
        given: 0x7000000004400943,
        computed: 0x7000000004400942,
    };
    assert!(rt; refusal_of(alloc, &plain, &frame) == Some(bad_tag));
    let refusal = refusal_of(alloc, &held, &ZEROS);
    assert!(rt; refusal == Some(OpenRefusal::NotAPayload(0)));
    let refusal = refusal_of(alloc, &held, &LONGER);
    assert!(rt; refusal == Some(OpenRefusal::NotAPayload(17)));
}
