// Lines that bring arbitrary octets to a receiver.
ghost use Rattle.std.specs.Prelude.{◌≡◌, true};
ghost use Rattle.declared_site.specs.SiteOf.{site_of};
ghost use Rattle.net_model.specs.Action.{Ok as Fine, Forge};
ghost use Rattle.run_types.specs.declared.item.Item.TheVariants as items;
ghost use Rattle.run_model.specs.Script.{asks};
ghost use Rattle.run_model.specs.Outcomes.{frame_items};
ghost use Rattle.run_model.specs.Headline.{given_to};
ghost use Rattle.run_ops.specs.Fitting.{is_fit};
ghost use Rattle.run_lines.specs.Reporting.{InLines, IsBlamed, IsItemLine};
ghost use Rattle.run_lines.specs.Running.{Runs, IsReadySomewhere};

use crate::Stop;
use crate::report::write_some;
use edge_io::Sink;
use qkd_base::Lane;
use run_ops::{Acts, Tampered, forged_item};
use std::alloc::Global;

/// Brings these octets to a lane's receiver.
#[tactic(auto, using(crate::proofs::Lines::stopped_unwritten))]
pub fn forge<S: Acts, W: Sink>(
    alloc: Global,
    net: &mut S,
    number: u32,
    lane: &Lane,
    octets: &[u8],
    sink: &mut W,
) -> Result<(), Stop>
    requires fit { is_fit (site_of (S.site net.old)) (Forge lane.now octets.now Fine) ≡ true }
    requires ready { IsReadySomewhere S.stands net.old }
    ensures site { S.site net.new ≡ S.site net.old }
    ensures armed { S.armed net.new ≡ S.armed net.old }
    ensures runs { Runs S.stands S.rests S.tallied (S.site net.old).nodes net.old net.new (given_to W.taken W.pieces sink.old) (given_to W.taken W.pieces sink.new) number (asks (Forge lane.now octets.now Fine) (frame_items (items.Forged lane.now))) result }
    ensures blame { IsBlamed (W.faults sink.old) (W.faults sink.new) result }
    ensures lined { InLines W.taken W.pieces (IsItemLine (S.site net.old).nodes) sink.old sink.new result }
{
    match net.forge(*lane, octets) {
        Ok(Tampered::Came(delivery)) => {
            let item = forged_item(*lane, &delivery);
            write_some(alloc, net.declared(), number, item, sink)
        }
        Ok(Tampered::Matched) => Err(Stop::Forged(number)),
        Err(_) => Err(Stop::Memory),
    }
}
