// A lane of one block, and an acknowledgement that goes out on it.
ghost use Rattle.std.specs.Prelude.{◌≡◌, IfOk, Some, length};
ghost use Rattle.qkd_base.specs.declared.lane.Way.TheVariants.{Up as UpWay};
ghost use Rattle.net_model.specs.declared.payload.Payload.TheVariants.{Ack};

use lane_sender::LaneSide;
use net_model::{Order, Payload};
use qkd_base::{KeyName, Lane, LinkNo, NameKind, NodeNo, Way};
use source_devices::MemWire;
use std::alloc::Global;
use std::test::Fail;

fn lane() -> Lane
    ensures { result ≡ record { link = 0; way = UpWay } }
{
    Lane {
        link: LinkNo::new(0).unwrap(),
        way: Way::Up,
    }
}

/// An acknowledgement: a payload of 17 octets, so that its frame takes 25 bytes and has 41 octets.
pub fn order(name: KeyName) -> Order
    ensures { result ≡ record { lane = record { link = 0; way = UpWay }; offset = 0; ack_of = Some 8; payload = Ack name } }
{
    Order {
        lane: lane(),
        offset: 0,
        ack_of: Some(8),
        payload: Payload::Ack(name),
    }
}

/// The key's name.
pub fn name() -> Result<KeyName, Fail> {
    let node = NodeNo::new(1).ok_or("no node")?;
    Ok(KeyName::new(node, NameKind::Key, 1).ok_or("no name")?)
}

/// A lane of one block, of which the key alone may be claimed.
pub fn side(alloc: Global) -> Result<LaneSide<MemWire>, Fail>
    ensures { IfOk result (λ side. (side.lane ≡ record { link = 0; way = UpWay }) × (side.ledger ≡ record { used = 8; end = 8; received = 1024; burnt = 0 }) × (length side.bytes ≡ 1024)) }
{
    let wire = MemWire::new(alloc, Vec::new(alloc));
    let mut side = LaneSide::new(alloc, lane(), wire);
    side.take(&[7; 1024])?;
    Ok(side)
}
