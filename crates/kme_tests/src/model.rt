use net_model::{
    Order, Orders, Payload, Placing, Placings, Record, Records, Repeat, Repeats, ShortOf, Shorts,
};
use qkd_base::{FrameOctets, Items, KeyName, Lane, LinkNo, NameKind, NodeNo, Replica, Way};
use std::test::Fail;

fn name(kind: NameKind) -> Result<KeyName, Fail> {
    let node = NodeNo::new(0).ok_or("node")?;
    let name = KeyName::new(node, kind, 1).ok_or("name")?;
    Ok(name)
}

#[test]
fn lists_are_copied(rt: HostRuntime) -> Result<(), Fail> {
    let alloc = rt.alloc();
    let lane = Lane {
        link: LinkNo::new(3).ok_or("link")?,
        way: Way::Up,
    };
    let key = name(NameKind::Key)?;
    let mut orders: Orders = Items::new(alloc);
    orders.push(Order {
        lane,
        offset: 8,
        ack_of: Some(9),
        payload: Payload::Ack(key),
    })?;
    let orders = orders.copy()?;
    assert_eq!(rt; orders.get(0).map(|order| order.ack_of), Some(Some(9)));
    let mut repeats: Repeats = Items::new(alloc);
    repeats.push(Repeat {
        lane,
        offset: 8,
        number: Some(4),
        name: key,
        ack_of: None,
        length: 82,
        frame: FrameOctets::new(),
    })?;
    let repeats = repeats.copy()?;
    assert_eq!(rt; repeats.get(0).map(|repeat| repeat.number), Some(Some(4)));
    let mut placings: Placings = Items::new(alloc);
    placings.push(Placing {
        lane,
        offset: 8,
        name: key,
        ack_of: None,
        fresh: false,
        number: None,
        length: 82,
        frame: FrameOctets::new(),
    })?;
    let placings = placings.copy()?;
    assert_eq!(rt; placings.get(0).map(|placing| placing.fresh), Some(false));
    let mut shorts: Shorts = Items::new(alloc);
    let short = ShortOf {
        lane,
        used: 554,
        need: 471,
        received: 1024,
    };
    shorts.push(short)?;
    let shorts = shorts.copy()?;
    assert_eq!(rt; shorts.get(0).copied(), Some(short));
    let mut records: Records = Items::new(alloc);
    records.push(Record::Lease { lane, end: 4096 })?;
    records.push(Record::Acked { name: key })?;
    let records = records.copy()?;
    assert_eq!(rt; records.len(), 2);
    Ok(())
}
