// Laws of delivery: a fact is at its target, and acknowledged on its whole route, exactly where nobody owes it.
ghost use Rattle.std.specs.Prelude.{◌≡◌, ℕ, List, true, Some, slice_get};
ghost use Rattle.qkd_base.specs.Name.{Name, has};
ghost use Rattle.net_model.specs.declared.fact.Fact.{Fact as FactValue};
ghost use Rattle.net_model.specs.Table.{fact_at};
ghost use Rattle.net_model.specs.World.{Network, World, Entry, first};
ghost use Rattle.net_model.specs.Premises.{IsNetwork};
ghost use Rattle.net_model.specs.Item.{DataItem};
ghost use Rattle.net_model.specs.Site.{receiver};
ghost use Rattle.net_model.specs.Needed.{view_of};
ghost use Rattle.net_model.specs.Relay.{owed};
ghost use Rattle.net_model.specs.Action.{Action};
ghost use Rattle.net_model.specs.Step.{run, IsRun};
ghost use Rattle.net_model.specs.Invariant.{Conserved};
ghost use Rattle.law_quiet.specs.Delivered.{OwedByNobody, IsDelivered};

/// A fact that nobody on its route owes is delivered.
pub fn law_delivered()
    ensures { (net : Network) (w : World) → Conserved net w → (n : Name) (f : FactValue) → fact_at w.durable.facts n ≡ Some f →
        OwedByNobody net w n f → IsDelivered w n f }
{}

/// A fact that is delivered is owed by nobody on its route.
pub fn law_delivered_is_paid()
    ensures { (net : Network) (w : World) (n : Name) (f : FactValue) → IsDelivered w n f → OwedByNobody net w n f }
{}

/// In every run, what is in flight is owed: each fact that a window holds has no acknowledgement of its lane's receiver.
pub fn law_in_flight_is_owed()
    ensures { (net : Network) (actions : List Action) (v i : ℕ) (e : Entry) (n : Name) → IsNetwork net → IsRun net first actions →
        slice_get ((run net first actions).volatile v).window i ≡ Some e → e.transmission.item ≡ DataItem n →
        has (owed (view_of net (run net first actions) v) (receiver net.site e.transmission.lane)) n ≡ true }
{}
