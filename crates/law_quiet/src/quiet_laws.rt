// Laws of quiet networks: after four rounds in which all that is up is idle, what has an open route has arrived.
ghost use Rattle.std.specs.Prelude.{◌≡◌, ℕ, List, true, false, Some, length};
ghost use Rattle.qkd_base.specs.Name.{Name, has};
ghost use Rattle.net_model.specs.declared.fact.Fact.{Fact as FactValue};
ghost use Rattle.net_model.specs.Table.{fact_at, is_part_of, is_secret, origin, target, was_handed};
ghost use Rattle.net_model.specs.World.{Network, World, first};
ghost use Rattle.net_model.specs.Needed.{view_of};
ghost use Rattle.net_model.specs.Pools.{is_key_of, own_names, pool, unhanded};
ghost use Rattle.net_model.specs.Groups.{group, is_unhanded_group, unhanded_group};
ghost use Rattle.net_model.specs.Premises.{IsNetwork};
ghost use Rattle.net_model.specs.Action.{Action};
ghost use Rattle.net_model.specs.Step.{run, IsRun};
ghost use Rattle.net_model.specs.Invariant.{Conserved};
ghost use Rattle.law_locality.specs.Quiet.{IsQuiet};
ghost use Rattle.law_safety.specs.Known.{KnowsFor};
ghost use Rattle.law_quiet.specs.Delivered.{IsDelivered, IsBack};
ghost use Rattle.law_quiet.specs.Noted.{IsNoted};
ghost use Rattle.law_quiet.specs.Silent.{AreSilent, NoneAwaits, IsOpen};

/// After four silent rounds each fact whose route is open is delivered, and each such key, chunk or part is confirmed at
/// its origin. Premises: no frame waits for its wire, and no manager awaits what became of one. It is so in the first world,
/// and again after the rounds (`keeps`). In every run the first premise has the second, so `run_arrives` and `run_returns`
/// have it alone.
pub fn law_quiet_is_delivered()
    ensures keeps { (net : Network) (w after : World) (n : Name) (f : FactValue) → IsNetwork net → Conserved net w → IsQuiet w → NoneAwaits w → AreSilent 4 net w after →
        fact_at w.durable.facts n ≡ Some f → Conserved net after × IsQuiet after × NoneAwaits after × (fact_at after.durable.facts n ≡ Some f) }
    ensures first { IsQuiet first × NoneAwaits first }
    ensures arrives { (net : Network) (w after : World) (n : Name) (f : FactValue) → IsNetwork net → Conserved net w → IsQuiet w → NoneAwaits w → AreSilent 4 net w after →
        fact_at w.durable.facts n ≡ Some f → IsOpen net w f → IsDelivered after n f }
    ensures returns { (net : Network) (w after : World) (n : Name) (f : FactValue) → IsNetwork net → Conserved net w → IsQuiet w → NoneAwaits w → AreSilent 4 net w after →
        IsNoted w → fact_at w.durable.facts n ≡ Some f → is_secret f ≡ true → IsOpen net w f → IsBack net after n f }
    ensures run_arrives { (net : Network) (actions : List Action) (after : World) (n : Name) (f : FactValue) → IsNetwork net → IsRun net first actions →
        IsQuiet (run net first actions) → AreSilent 4 net (run net first actions) after →
        fact_at (run net first actions).durable.facts n ≡ Some f → IsOpen net (run net first actions) f → IsDelivered after n f }
    ensures run_returns { (net : Network) (actions : List Action) (after : World) (n : Name) (f : FactValue) → IsNetwork net → IsRun net first actions →
        IsQuiet (run net first actions) → AreSilent 4 net (run net first actions) after →
        fact_at (run net first actions).durable.facts n ≡ Some f → is_secret f ≡ true → IsOpen net (run net first actions) f → IsBack net after n f }
{}

/// A key that was confirmed, and that its master hasn't got, is in its pool, so that its master gets it (`law_enc_succeeds`).
/// A key that was delivered is known to its slave's manager, so that the slave gets it (`law_dec_succeeds`).
pub fn law_keys_are_ready()
    ensures pool { (net : Network) (w : World) (n : Name) (f : FactValue) (m t bits : ℕ) → Conserved net w → fact_at w.durable.facts n ≡ Some f →
        is_key_of m t bits (Some f) ≡ true → IsBack net w n f → was_handed w.durable.handed n m ≡ false → has (pool (view_of net w (origin f)) m t bits) n ≡ true }
    ensures known { (net : Network) (w : World) (n : Name) (f : FactValue) (m t bits : ℕ) → Conserved net w → fact_at w.durable.facts n ≡ Some f →
        is_key_of m t bits (Some f) ≡ true → IsDelivered w n f → KnowsFor w.durable.facts (w.durable.known (target f)) m t n }
{}

/// Where all keys of a pair and size are confirmed, their pool has just as many keys as the master hasn't got.
pub fn law_pools_are_full()
    ensures { (net : Network) (w : World) (m t bits : ℕ) → Conserved net w →
        ((n : Name) (f : FactValue) → fact_at w.durable.facts n ≡ Some f → is_key_of m t bits (Some f) ≡ true → IsBack net w n f) →
        length (pool (view_of net w (net.site.home m)) m t bits) ≡ unhanded (view_of net w (net.site.home m)) m t bits }
{}

/// A group key of which all parts were confirmed, and that its master hasn't got, is in its pool at the node that named it,
/// so that its master gets it (`law_enc_group_succeeds`).
pub fn law_group_keys_are_ready()
    ensures { (net : Network) (w : World) (n : Name) (m : ℕ) (slaves : List ℕ) (bits : ℕ) → Conserved net w →
        ((k : Name) (f : FactValue) → fact_at w.durable.facts k ≡ Some f → is_part_of n f ≡ true → IsBack net w k f) →
        has (own_names (view_of net w n.node)) n ≡ true → is_unhanded_group (view_of net w n.node) m slaves bits n ≡ true →
        has (group (view_of net w n.node) m slaves bits) n ≡ true }
{}

/// Where all parts are confirmed, a pool has just as many group keys as the master hasn't got.
pub fn law_group_pools_are_full()
    ensures { (net : Network) (w : World) (v m : ℕ) (slaves : List ℕ) (bits : ℕ) → Conserved net w →
        ((k : Name) (f : FactValue) → fact_at w.durable.facts k ≡ Some f → is_secret f ≡ true → IsBack net w k f) →
        length (group (view_of net w v) m slaves bits) ≡ unhanded_group (view_of net w v) m slaves bits }
{}
