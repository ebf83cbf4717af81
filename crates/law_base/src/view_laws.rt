// Laws of what a manager sees of the network and of the routes that it finds.
ghost use Rattle.std.specs.Prelude.{◌≡◌, ◌<◌, ◌≤◌, ℕ, Bool, List, true, is_some, count_by, Some};
ghost use Rattle.qkd_base.specs.Name.{Name, has};
ghost use Rattle.net_model.specs.declared.fact.Fact.{Fact as FactValue};
ghost use Rattle.net_model.specs.Table.{fact_at, has_fact};
ghost use Rattle.net_model.specs.Site.{Site};
ghost use Rattle.net_model.specs.World.{Network, World};
ghost use Rattle.net_model.specs.Needed.{view_of};
ghost use Rattle.net_model.specs.Streams.{is_chunk_of};
ghost use Rattle.net_model.specs.Knowledge.{chunks_known};
ghost use Rattle.net_model.specs.Routes.{route};
ghost use Rattle.law_base.specs.Shown.{IsShown, IsRouteBetween};

/// The fact that a manager sees under a name is in the table and known to its node. It has its own bytes, or zeros
/// for them.
pub fn law_view_is_known()
    ensures { (net : Network) (w : World) (v : ℕ) (n : Name) (g : FactValue) → fact_at (view_of net w v).facts n ≡ Some g →
        IsShown w.durable.facts (w.durable.known v) n g }
{}

/// A manager sees every fact that is in the table and known to its node.
pub fn law_known_is_seen()
    ensures { (net : Network) (w : World) (v : ℕ) (n : Name) → has_fact w.durable.facts n ≡ true → has (w.durable.known v) n ≡ true →
        has_fact (view_of net w v).facts n ≡ true }
{}

/// A manager counts just the chunks of a stream that its node knows.
pub fn law_chunks_counted()
    ensures { (net : Network) (w : World) (v : ℕ) (stream : Name) →
        count_by (is_chunk_of stream) (view_of net w v).facts ≡ chunks_known w.durable.facts (w.durable.known v) stream }
{}

/// A route that is found leads from the first node to the last, over 2 to 9 different nodes.
pub fn law_routes_differ()
    ensures { (s : Site) (up : ℕ → Bool) (a b : ℕ) (nodes : List ℕ) → s.nodes ≤ 16 → a < s.nodes → route s up a b ≡ Some nodes → IsRouteBetween a b nodes }
{}
