// Laws of routes: they go over links, so where all is up every route is open.
ghost use Rattle.std.specs.Prelude.{◌≡◌, List, true, Some};
ghost use Rattle.qkd_base.specs.Name.{Name};
ghost use Rattle.net_model.specs.declared.fact.Fact.{Fact as FactValue};
ghost use Rattle.net_model.specs.Table.{route_of, fact_at};
ghost use Rattle.net_model.specs.World.{Network, World, first};
ghost use Rattle.net_model.specs.Premises.{IsNetwork};
ghost use Rattle.net_model.specs.Action.{Action};
ghost use Rattle.net_model.specs.Step.{step, is_enabled, run, IsRun};
ghost use Rattle.law_quiet.specs.Chains.{IsChain, AreChained, IsAllUp};
ghost use Rattle.law_quiet.specs.Silent.{IsOpen};

/// In every run, a link joins each node of a fact's route to the next one. Each action that may happen keeps this.
pub fn law_routes_go_over_links()
    ensures first { (net : Network) → AreChained net first }
    ensures step { (net : Network) (w : World) (a : Action) → AreChained net w → is_enabled net w a ≡ true → AreChained net (step net w a).0 }
    ensures run { (net : Network) (actions : List Action) (n : Name) (f : FactValue) → IsRun net first actions →
        fact_at (run net first actions).durable.facts n ≡ Some f → IsChain net.site (route_of f) }
{}

/// Where every node and every link is up, such a route is open.
pub fn law_all_up_is_open()
    ensures { (net : Network) (w : World) (f : FactValue) → IsNetwork net → IsAllUp net w → IsChain net.site (route_of f) → IsOpen net w f }
{}
