// Laws of what managers await: it is on its way, so in a quiet network nothing is awaited.
ghost use Rattle.std.specs.Prelude.{◌≡◌, List, true};
ghost use Rattle.net_model.specs.World.{Network, World, first};
ghost use Rattle.net_model.specs.Premises.{IsNetwork};
ghost use Rattle.net_model.specs.Action.{Action};
ghost use Rattle.net_model.specs.Step.{step, is_enabled, run, IsRun};
ghost use Rattle.net_model.specs.Invariant.{Conserved};
ghost use Rattle.law_locality.specs.Quiet.{IsQuiet};
ghost use Rattle.law_quiet.specs.Awaited.{IsAwaited};
ghost use Rattle.law_quiet.specs.Silent.{NoneAwaits};

/// In every run, each order that a manager awaits has no bytes yet, or its frame waits for the wire, or its placing waits to
/// be noted, and no two new frames are at one place. Each action that may happen keeps this. So in a quiet network no
/// manager awaits anything.
pub fn law_quiet_awaits_nothing()
    ensures first { (net : Network) → IsAwaited net first }
    ensures step { (net : Network) (w : World) (a : Action) → IsNetwork net → Conserved net w → IsAwaited net w → is_enabled net w a ≡ true → IsAwaited net (step net w a).0 }
    ensures quiet { (net : Network) (w : World) → IsAwaited net w → IsQuiet w → NoneAwaits w }
    ensures run { (net : Network) (actions : List Action) → IsNetwork net → IsRun net first actions → IsQuiet (run net first actions) → NoneAwaits (run net first actions) }
{}
