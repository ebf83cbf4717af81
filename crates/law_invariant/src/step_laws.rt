// Laws of the whole network: every action keeps the conserved properties, so every run does.
ghost use Rattle.std.specs.Prelude.{◌≡◌, List};
ghost use Rattle.net_model.specs.World.{Network, World, first};
ghost use Rattle.net_model.specs.Premises.{IsNetwork};
ghost use Rattle.net_model.specs.Action.{Action, Outcome};
ghost use Rattle.net_model.specs.Step.{step, IsStep, run, IsRun};
ghost use Rattle.net_model.specs.Invariant.{Conserved};

/// The world before any start has the conserved properties.
pub fn law_first_conserved()
    ensures { (net : Network) → Conserved net first }
{}

/// Each action that may happen keeps the conserved properties, whatever the outside answers: disks, entropies,
/// devices and wires.
pub fn law_step_keeps()
    ensures { (net : Network) (w : World) (a : Action) → IsNetwork net → IsStep net w a → Conserved net w → Conserved net (step net w a).0 }
{}

/// The conserved properties hold after every run that begins in a world that has them, as the world before any start has.
pub fn law_run_keeps()
    ensures { (net : Network) (w : World) (actions : List Action) → IsNetwork net → Conserved net w → IsRun net w actions → Conserved net (run net w actions) }
{}

/// A world, an action and the answers of the outside determine the new world and the outcome.
pub fn law_one_outcome()
    ensures { (net : Network) (w new other : World) (a : Action) (said other_said : Outcome) → step net w a ≡ (new, said) → step net w a ≡ (other, other_said) →
        (new ≡ other) × (said ≡ other_said) }
{}
