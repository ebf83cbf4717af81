// Laws of pairs' keys and of streams: a manager's decisions on them make only records that are permitted.
ghost use Rattle.std.specs.Prelude.{◌≡◌, ◌<◌, ◌*◌, ◌/◌, ℕ, List, true};
ghost use Rattle.qkd_base.specs.Name.{Name};
ghost use Rattle.net_model.specs.World.{Network, World};
ghost use Rattle.net_model.specs.Invariant.{Conserved};
ghost use Rattle.net_model.specs.Premises.{IsNetwork};
ghost use Rattle.net_model.specs.OctetSequence.{octets_from};
ghost use Rattle.net_model.specs.Needed.{view_of};
ghost use Rattle.net_model.specs.Pools.{fill, enc, dec};
ghost use Rattle.net_model.specs.Streams.{is_size};
ghost use Rattle.law_invariant.specs.Only.{Only};

/// Filling a pool makes only permitted keys.
pub fn law_fill_only()
    ensures { (net : Network) (w : World) (v m t bits count : ℕ) → IsNetwork net → Conserved net w → v < net.site.nodes → is_size bits ≡ true →
        Only net.site w.durable (view_of net w v) (fill net.site w.link_up (view_of net w v) m t bits count (octets_from (net.entropy v).octet (w.drawn v) ((bits / 8) * count))) }
{}

/// Handing ready keys to their master marks only keys that it may have, in any world.
pub fn law_enc_only()
    ensures { (net : Network) (w : World) (v m t n bits : ℕ) → Only net.site w.durable (view_of net w v) (enc net.site (view_of net w v) m t n bits) }
{}

/// Handing keys by name to their slave marks only keys that it may have, in any world.
pub fn law_dec_only()
    ensures { (net : Network) (w : World) (v t m : ℕ) (ns : List Name) → Only net.site w.durable (view_of net w v) (dec net.site (view_of net w v) t m ns) }
{}
