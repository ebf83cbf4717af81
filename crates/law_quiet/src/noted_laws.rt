// Laws of Stored notes: a target notes each key, chunk and part that comes, and its origin sees the note where nobody owes it.
ghost use Rattle.std.specs.Prelude.{◌≡◌, List, true, Some};
ghost use Rattle.qkd_base.specs.Name.{Name};
ghost use Rattle.net_model.specs.declared.fact.Fact.{Fact as FactValue};
ghost use Rattle.net_model.specs.Table.{fact_at, is_secret, is_stored_about};
ghost use Rattle.net_model.specs.World.{Network, World, first};
ghost use Rattle.net_model.specs.Premises.{IsNetwork};
ghost use Rattle.net_model.specs.Action.{Action};
ghost use Rattle.net_model.specs.Step.{step, is_enabled, run, IsRun};
ghost use Rattle.net_model.specs.Invariant.{Conserved};
ghost use Rattle.law_quiet.specs.Delivered.{OwedByNobody, IsDelivered, IsBack};
ghost use Rattle.law_quiet.specs.Noted.{IsNoted};

/// In every run, a note about each key, chunk and part that its target knows stands in the table. Each action that may
/// happen keeps this.
pub fn law_targets_note()
    ensures first { IsNoted first }
    ensures step { (net : Network) (w : World) (a : Action) → IsNetwork net → Conserved net w → IsNoted w → is_enabled net w a ≡ true → IsNoted (step net w a).0 }
    ensures run { (net : Network) (actions : List Action) → IsNetwork net → IsRun net first actions → IsNoted (run net first actions) }
{}

/// A key, chunk or part that is delivered is confirmed at its origin if nobody owes a note about it.
pub fn law_back()
    ensures { (net : Network) (w : World) (n : Name) (f : FactValue) → Conserved net w → IsNoted w → fact_at w.durable.facts n ≡ Some f → is_secret f ≡ true →
        IsDelivered w n f →
        ((m : Name) (g : FactValue) → fact_at w.durable.facts m ≡ Some g → is_stored_about n g ≡ true → OwedByNobody net w m g) → IsBack net w n f }
{}
