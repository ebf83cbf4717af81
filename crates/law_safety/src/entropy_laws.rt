// Laws of random octets: no octet of an entropy goes into two keys.
ghost use Rattle.std.specs.Prelude.{◌≡◌, ℕ, List};
ghost use Rattle.net_model.specs.World.{Network, World, no_doubt, first};
ghost use Rattle.net_model.specs.Invariant.{Conserved};
ghost use Rattle.net_model.specs.Premises.{IsNetwork};
ghost use Rattle.net_model.specs.Action.{Action};
ghost use Rattle.net_model.specs.Step.{run, IsRun};
ghost use Rattle.law_safety.specs.Places.{ArePlaced};

/// In every run, each key, chunk and group key consists of octets at one place of its origin's entropy. No two of
/// them share an octet. The run may begin in any world of which this holds and where no batch is in doubt, as before any
/// start.
pub fn law_octets_go_once()
    ensures first { (net : Network) → ArePlaced net first }
    ensures run { (net : Network) (w : World) (actions : List Action) → IsNetwork net → Conserved net w → ((v : ℕ) → w.in_doubt v ≡ no_doubt) → ArePlaced net w →
        IsRun net w actions → ArePlaced net (run net w actions) }
{}
