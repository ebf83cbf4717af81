// What a reply wants put on lanes.
ghost use Rattle.std.specs.Prelude.{◌≡◌};
ghost use Rattle.net_model.specs.Action.{Replies};
ghost use Rattle.run_model.specs.Works.{wanted_put};
ghost use Rattle.par_lanes.specs.Wants.{wanted};

use net_model::Reply;
use par_lanes::Plan;
use run_ops::Turned;

/// What a reply wants put: the frames of a plan. A reply that is no plan wants nothing.
pub fn plan_of(turned: &Turned) -> Plan<'_>
    ensures line { result.line ≡ turned.now.place }
    ensures wanted { wanted result.repeats.now result.orders.now ≡ wanted_put (Replies turned.now.reply) }
{
    let line = turned.place;
    match &turned.reply {
        Reply::Planned {
            orders,
            repeats,
            ..
        } => Plan {
            line,
            repeats: repeats.as_slice(),
            orders: orders.as_slice(),
        },
        _ => Plan {
            line,
            repeats: &[],
            orders: &[],
        },
    }
}
