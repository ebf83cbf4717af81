// Laws of a bench that has been used before.
ghost use Rattle.std.specs.Prelude.{List, []};
ghost use Rattle.net_model.specs.World.{Network, World, first};
ghost use Rattle.declared_site.specs.SiteOf.{IsDeclared};
ghost use Rattle.declared_site.specs.declared.site.Site.{Site as Declared};
ghost use Rattle.run_model.specs.Begin.{MayBegin};
ghost use Rattle.world_state.specs.Stands.{Stands};
ghost use Rattle.world_state.specs.declared.state.State.{State as StateValue};
ghost use Rattle.net_world.specs.Laid.{IsLaidOut};
ghost use Rattle.net_world.specs.New.{IsNew, network_on};
ghost use Rattle.net_world.specs.Kept.{IsKept, AreKeptLanes, IsLaidAgain};
ghost use Rattle.net_world.specs.declared.bench.Bench.{Bench as BenchValue};
ghost use Rattle.net_world.specs.declared.kept_lane.KeptLane.{KeptLane as KeptLaneValue};
ghost use Rattle.world_state.specs.Outside.{outside};

use disk_model::Disk;
use hop_frames::frames_of_a_network;
use source_devices::{Device, Entropy, Wire};

/// A new bench is kept, for the network of a declared site over it and the world before any start. No lane received anything there, so the
/// state that `lay_out` makes is the one that goes on with no lane's blocks.
pub fn law_new_is_kept<K: Disk + Drop, Q: Device + Drop, E: Entropy + Drop, X: Wire + Drop>()
    ensures kept { (b : BenchValue K Q E X) (site : Declared) → IsNew (outside K.Disk Q.Device E.Entropy X.Wire) b → IsDeclared site →
        IsKept (outside K.Disk Q.Device E.Entropy X.Wire) b site (network_on Q.Device E.Entropy b site) first }
    ensures lanes { (net : Network) → AreKeptLanes net first [] }
    ensures laid { (old stayed : BenchValue K Q E X) (site : Declared) (s : StateValue K Q E X) → IsLaidOut old stayed site s → IsLaidAgain old stayed site [] s }
{
    frames_of_a_network();
}

/// A state that is laid out of a kept bench, and whose lanes go on at their leased ends, stands for the world at rest.
pub fn law_kept_stands<K: Disk + Drop, Q: Device + Drop, E: Entropy + Drop, X: Wire + Drop>()
    ensures { (old stayed : BenchValue K Q E X) (site : Declared) (net : Network) (w : World) (lanes : List KeptLaneValue) (s : StateValue K Q E X) →
        IsKept (outside K.Disk Q.Device E.Entropy X.Wire) old site net w → MayBegin net w → AreKeptLanes net w lanes → IsDeclared site →
        IsLaidAgain old stayed site lanes s → Stands (outside K.Disk Q.Device E.Entropy X.Wire) s net w }
{}
