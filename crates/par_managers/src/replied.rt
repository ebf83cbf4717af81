// The orders of a reply.
ghost use Rattle.std.specs.Prelude.{◌≡◌};
ghost use Rattle.par_managers.specs.Wanted.{orders_replied};

use net_model::{Order, Reply};

/// The new orders of a plan; none of any other reply.
pub fn orders(reply: &Reply) -> &[Order]
    ensures { result.now ≡ orders_replied reply.now }
{
    match reply {
        Reply::Planned { orders, .. } => orders.as_slice(),
        _ => &[],
    }
}
