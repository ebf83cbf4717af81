// How many bytes of a lane orders spend.
ghost use Rattle.std.specs.Prelude.{◌≡◌, ◌+◌, ◌<◌, ◌≤◌, ◌^◌, IfSome, IfNone};
ghost use Rattle.net_model.specs.Facts.{fact_len, IsWellFormed};
ghost use Rattle.kme_base.specs.Places.{order_need, lane_need};

use net_model::{Fact, Order, Payload, spelled_len};
use qkd_base::Lane;

/// The lane bytes that an order spends: one for each octet of its payload, and 8 that mask the tag.
pub fn order_need(order: &Order) -> u64
    requires { IsWellFormed order.now.payload }
    ensures { result ≡ order_need order.now }
{
    spelled_len(&order.payload) as u64 + 8
}

// The octets of a fact's route, and of its bytes.
fn own_octets(fact: &Fact) -> (u64, u64)
    ensures length { fact_len fact.now ≡ result.0 + result.1 }
    ensures bound { result.0 ≤ 49 }
{
    match fact {
        Fact::Key { route, bytes, .. } => (24 + route.as_slice().len() as u64, bytes.len() as u64),
        Fact::Chunk { route, bytes, .. } => (
            40 + route.as_slice().len() as u64,
            bytes.len() as u64,
        ),
        Fact::Stored { route, .. } => (34 + route.as_slice().len() as u64, 0),
        Fact::Open { route, .. } => (24 + route.as_slice().len() as u64, 0),
        Fact::Joined { route, .. } => (34 + route.as_slice().len() as u64, 0),
        Fact::Part { route, bytes, .. } => (40 + route.as_slice().len() as u64, bytes.len() as u64),
    }
}

// The bytes that any order spends, or `None` where the number is 2^64 or more.
fn any_need(order: &Order) -> Option<u64>
    ensures some { IfSome result (λ need. need ≡ order_need order.now) }
    ensures none { IfNone result (2 ^ 64 ≤ order_need order.now) }
{
    match &order.payload {
        Payload::Data(fact) => {
            let (head, bytes) = own_octets(fact);
            bytes.checked_add(head + 8)
        }
        Payload::Ack(_) => Some(25),
    }
}

/// How many of `bytes` bytes of a lane remain after the orders, or `None` if there are too few.
pub(crate) fn left_behind(lane: &Lane, orders: &[Order], bytes: u64) -> Option<u64>
    ensures left { IfSome result (λ left. left + lane_need lane.now orders.now ≡ bytes) }
    ensures none { IfNone result (bytes < lane_need lane.now orders.now) }
{
    let mut left = bytes;
    for order in orders {
        if order.lane == *lane {
            match any_need(order) {
                None => return None,
                Some(need) => {
                    if left < need {
                        return None;
                    }
                    left -= need;
                }
            }
        }
    }
    Some(left)
}
