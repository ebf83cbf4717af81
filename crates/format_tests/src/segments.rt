use link_segments::{NoBits, Segments, TakeRefusal};
use qkd_base::Way;
use std::test::Fail;

// Blocks 0, 1 and 2 are filled with 10, 11 and 12: up has blocks 0 and 2, down has block 1.
const PARTS: &[(Way, u64, [u8; 4])] = &[
    (Way::Up, 0, [10, 10, 10, 10]),
    (Way::Up, 1022, [10, 10, 12, 12]),
    (Way::Up, 2044, [12, 12, 12, 12]),
    (Way::Down, 1020, [11, 11, 11, 11]),
];

#[test]
fn even_blocks_are_up_and_odd_ones_down(rt: HostRuntime) -> Result<(), Fail> {
    let mut segments = Segments::new(rt.alloc());
    let mut part = [0u8; 4];
    assert_eq!(rt;
        segments.lane_bytes(Way::Up, 0, &mut part),
        Err(NoBits { have: 0 })
    );
    segments.room(2)?;
    for number in 0..3u8 {
        segments.take_block(u32::from(number), &[10 + number; 1024])?;
    }
    assert_eq!(rt;
        (segments.received(Way::Up), segments.received(Way::Down)),
        (2048, 1024)
    );
    for (way, off, wanted) in PARTS {
        segments.lane_bytes(*way, *off, &mut part)?;
        assert_eq!(rt; part, *wanted, "at {off}");
    }
    assert_eq!(rt;
        segments.lane_bytes(Way::Up, 2045, &mut part),
        Err(NoBits { have: 2048 })
    );
    assert_eq!(rt;
        segments.lane_bytes(Way::Down, u64::MAX, &mut part),
        Err(NoBits { have: 1024 })
    );
    assert_eq!(rt;
        segments.take_block(2, &[0; 1024]),
        Err(TakeRefusal::OutOfOrder(3))
    );
    assert_eq!(rt; part, [11; 4]);
    Ok(())
}

#[test]
fn a_link_has_1024_blocks(rt: HostRuntime) -> Result<(), Fail> {
    let mut segments = Segments::new(rt.alloc());
    for number in 0..1024 {
        segments.take_block(number, &[0; 1024])?;
    }
    assert_eq!(rt;
        segments.take_block(1024, &[0; 1024]),
        Err(TakeRefusal::Full)
    );
    assert_eq!(rt;
        (segments.received(Way::Up), segments.received(Way::Down)),
        (524288, 524288)
    );
    Ok(())
}
