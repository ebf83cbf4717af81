ghost use Rattle.net_model.specs.Facts.{IsWellFormed};

use crate::parts::{holds, lane, link, name};
use kme_base::{LinkEnd, Ports, order_need};
use net_model::{Order, Payload};
use qkd_base::{LinkNo, Memory, NameKind, Way};
use std::alloc::Global;

// An acknowledgement that is to be sent on a lane of link 3: it spends 17 + 8 bytes.
fn order(way: Way) -> Order
    ensures { IsWellFormed result.payload }
{
    Order {
        lane: lane(3, way),
        offset: 8,
        ack_of: Some(8),
        payload: Payload::Ack(name(1, NameKind::Key, 7)),
    }
}

// The ends of link 3, whose lane Up leaves, and of link 5, whose lane Down leaves.
fn two_ends(alloc: Global) -> Result<Ports, Memory> {
    Ports::of_lanes(alloc, &[lane(3, Way::Up), lane(5, Way::Down)])
}

// Blocks, bytes received, leased, planned and recovered end.
type Counts = (u32, u64, u64, u64, u64);

fn counts(end: &LinkEnd) -> Counts {
    (
        end.blocks(),
        end.received(),
        end.lease(),
        end.planned(),
        end.recovered(),
    )
}

fn counts_of(ports: &Ports, link: LinkNo) -> Option<Counts> {
    Some(counts(ports.get(link)?))
}

// Gives a block to the end of a link. The answer is whether there is such a link, and memory.
fn take(ports: &mut Ports, number: u8, block: u32) -> bool {
    let Some(link) = LinkNo::new(number) else {
        return false;
    };
    let Ok(()) = ports.room_block(link) else {
        return false;
    };
    ports.take_block(link, block, &[7; 1024]);
    true
}

// A link's number, the block that it is given, and the counts of links 3 and 5 then.
const BLOCKS: [(u8, u32, Counts, Counts); 8] = [
    (3, 1, (0, 0, 0, 0, 0), (0, 0, 0, 0, 0)),
    (3, 0, (1, 1024, 8, 8, 0), (0, 0, 0, 0, 0)),
    (3, 0, (1, 1024, 8, 8, 0), (0, 0, 0, 0, 0)),
    (4, 0, (1, 1024, 8, 8, 0), (0, 0, 0, 0, 0)),
    (5, 0, (1, 1024, 8, 8, 0), (1, 0, 0, 0, 0)),
    (5, 1, (1, 1024, 8, 8, 0), (2, 1024, 8, 8, 0)),
    (3, 1, (2, 1024, 8, 8, 0), (2, 1024, 8, 8, 0)),
    (3, 2, (3, 2048, 8, 8, 0), (2, 1024, 8, 8, 0)),
];

// The last two bytes of the lane that leaves link 3, of two blocks.
fn last_bytes(ports: &Ports) -> Option<[u8; 2]> {
    let end = ports.get(link(3))?;
    let mut two = [0; 2];
    end.segments()
        .lane_bytes(end.lane().way, 2046, &mut two)
        .ok()?;
    Some(two)
}

#[test]
fn blocks_are_taken_in_order(rt: HostRuntime) {
    let Ok(mut ports) = two_ends(rt.alloc()) else {
        panic!(rt; "no memory");
    };
    let mut row = 0u64;
    for (number, block, three, five) in &BLOCKS {
        holds(&rt, row, take(&mut ports, *number, *block));
        holds(&rt, row, counts_of(&ports, link(3)) == Some(*three));
        holds(&rt, row, counts_of(&ports, link(5)) == Some(*five));
        row = row.saturating_add(1);
    }
    assert!(rt; last_bytes(&ports) == Some([7, 7]));
    assert!(rt; ports.as_slice().len() == 2);
    assert!(rt; ports.get(link(4)).is_none());
}

// The counts of link 3 after its lanes are leased, the one that leaves up to an end.
fn leased(ports: &mut Ports, end: u64) -> Option<Counts> {
    ports.raise_lease(lane(3, Way::Up), end);
    ports.raise_lease(lane(3, Way::Down), 1024);
    counts_of(ports, link(3))
}

// The counts of link 3 after its lanes are planned, the one that leaves so many bytes further.
fn planned(ports: &mut Ports, bytes: u64) -> Option<Counts> {
    ports.plan(lane(3, Way::Up), bytes);
    ports.plan(lane(3, Way::Down), 1);
    counts_of(ports, link(3))
}

#[test]
fn a_lane_is_leased_planned_and_burnt(rt: HostRuntime) {
    let Ok(mut ports) = two_ends(rt.alloc()) else {
        panic!(rt; "no memory");
    };
    assert!(rt; take(&mut ports, 3, 0));
    // It isn't leased past the bytes received, and never less far.
    for (end, lease) in &[(1025, 8), (1000, 1000), (900, 1000)] {
        let found = leased(&mut ports, *end);
        holds(&rt, *end, found == Some((1, 1024, *lease, 8, 0)));
    }
    // Nor is it planned past them.
    for (bytes, end) in &[(100, 108), (917, 108), (891, 999)] {
        let found = planned(&mut ports, *bytes);
        holds(&rt, *bytes, found == Some((1, 1024, 1000, *end, 0)));
    }
    let up = order(Way::Up);
    assert!(rt; order_need(&up) == 25);
    ports.plan_orders(&[up, order(Way::Down)]);
    assert!(rt; counts_of(&ports, link(3)) == Some((1, 1024, 1000, 1024, 0)));
    ports.restart();
    assert!(rt; counts_of(&ports, link(3)) == Some((1, 1024, 1000, 1000, 1000)));
    assert!(rt; counts_of(&ports, link(5)) == Some((0, 0, 0, 0, 0)));
}
