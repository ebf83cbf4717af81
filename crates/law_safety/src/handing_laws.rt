// The law of handed keys: over a whole run, replies hand each key to an application at most once, with the right
ghost use Rattle.std.specs.Prelude.{List};
ghost use Rattle.net_model.specs.World.{Network, World};
ghost use Rattle.net_model.specs.Invariant.{Conserved};
ghost use Rattle.net_model.specs.Premises.{IsNetwork};
ghost use Rattle.net_model.specs.Action.{Action};
ghost use Rattle.net_model.specs.Step.{run, IsRun};
ghost use Rattle.net_model.specs.Deliveries.{deliveries, AreTrueDeliveries};
ghost use Rattle.law_safety.specs.Truth.{AreNew};

/// Everything that the replies of a run hand out is marked, in order. Each application gets a key at most once, with
/// the bytes of the key's name. A run that begins later hands out nothing that was marked before.
pub fn law_deliveries_true()
    ensures all { (net : Network) (w : World) (actions : List Action) → IsNetwork net → Conserved net w → IsRun net w actions →
        AreTrueDeliveries (run net w actions) (deliveries net w actions) }
    ensures new { (net : Network) (w : World) (actions : List Action) → IsNetwork net → Conserved net w → IsRun net w actions →
        AreNew w (run net w actions) (deliveries net w actions) }
{}
