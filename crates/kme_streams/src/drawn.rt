// The random octets of new chunks.
ghost use Rattle.std.specs.Prelude.{◌≡◌, ◌≤◌, ◌*◌, ℕ, Bool, List, length};
ghost use Rattle.qkd_base.specs.Name.{Name};
ghost use Rattle.net_model.specs.Site.{Site};
ghost use Rattle.net_model.specs.View.{View};
ghost use Rattle.net_model.specs.Table.{fact_at};
ghost use Rattle.net_model.specs.Streams.{chunk_size, feed};
ghost use Rattle.kme_base.specs.Random.{decision_over};

/// Proof only. A feed that is decided with some octets, such as zeros, becomes the one decided with other octets if
/// these are put in their place.
pub fn law_feed_over_other_octets()
    ensures { (site : Site) (up : ℕ → Bool) (v : View) (stream : Name) (count : ℕ) (zeros random : List ℕ) → chunk_size (fact_at v.facts stream) * count ≤ length zeros
        → chunk_size (fact_at v.facts stream) * count ≤ length random → decision_over random (feed site up v stream count zeros) ≡ feed site up v stream count random }
{}
