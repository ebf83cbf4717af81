// Laws of a manager's replies: what they hand out is true and marked, and requests that may be answered are
ghost use Rattle.std.specs.Prelude.{◌≡◌, ◌<◌, ◌≤◌, ◌+◌, ◌*◌, ℕ, List, true, false, take, length};
ghost use Rattle.std.specs.List.{list_all};
ghost use Rattle.qkd_base.specs.Name.{Name, has};
ghost use Rattle.net_model.specs.declared.event.Event.{Event as EventValue};
ghost use Rattle.net_model.specs.declared.event.Event.TheVariants.{Enc, Dec, EncGroup};
ghost use Rattle.net_model.specs.Table.{was_handed};
ghost use Rattle.net_model.specs.World.{Network, World};
ghost use Rattle.net_model.specs.Knowledge.{AllDiffer};
ghost use Rattle.net_model.specs.Invariant.{Conserved};
ghost use Rattle.net_model.specs.Premises.{IsNetwork};
ghost use Rattle.net_model.specs.Journal.{added_len};
ghost use Rattle.net_model.specs.Pools.{pool, hand_to};
ghost use Rattle.net_model.specs.Groups.{group};
ghost use Rattle.net_model.specs.Events.{is_valid_event};
ghost use Rattle.net_model.specs.Needed.{view_of};
ghost use Rattle.net_model.specs.Action.{Ask, Environment, Ok};
ghost use Rattle.net_model.specs.Handle.{handle};
ghost use Rattle.net_model.specs.Step.{is_asked};
ghost use Rattle.net_model.specs.Deliveries.{of_step};
ghost use Rattle.law_safety.specs.Known.{KnowsFor};
ghost use Rattle.law_safety.specs.Room.{HasRoomAt};
ghost use Rattle.law_safety.specs.Truth.{IsTrueReply, IsAnswered};

/// A reply hands out what its step marks, in the same order. Each name comes with its bytes, and each application is
/// at home at the node.
pub fn law_replies_true()
    ensures { (net : Network) (w : World) (v : ℕ) (event : EventValue) (environment : Environment) → IsNetwork net → Conserved net w →
        v < net.site.nodes → is_asked event ≡ true → is_valid_event net.site v event ≡ true →
        IsTrueReply net w (handle net w v event environment).0 v (of_step net w (Ask v event environment) (handle net w v event environment).1) }
{}

/// A master of an allowed pair gets the first keys of its pool if its manager is up, the pool has enough keys and the
/// journal has room.
pub fn law_enc_succeeds()
    ensures { (net : Network) (w : World) (v m t n bits : ℕ) → Conserved net w → w.up v ≡ true → net.site.allowed m t ≡ true → net.site.home m ≡ v →
        n ≤ length (pool (view_of net w v) m t bits) → HasRoomAt w v (hand_to m (take n (pool (view_of net w v) m t bits))) →
        IsAnswered w.durable.facts m (take n (pool (view_of net w v) m t bits)) (handle net w v (Enc m t n bits) Ok).1 }
{}

/// A slave gets the keys that it names if its manager knows each of them, no name is given twice and none of the keys
/// was handed to it before.
pub fn law_dec_succeeds()
    ensures { (net : Network) (w : World) (v t m : ℕ) (ns : List Name) → IsNetwork net → Conserved net w → w.up v ≡ true →
        net.site.allowed m t ≡ true → net.site.home t ≡ v → AllDiffer ns →
        ((n : Name) → has ns n ≡ true → KnowsFor w.durable.facts (w.durable.known v) m t n) →
        ((n : Name) → has ns n ≡ true → was_handed w.durable.handed n t ≡ false) → HasRoomAt w v (hand_to t ns) →
        IsAnswered w.durable.facts t ns (handle net w v (Dec t m ns) Ok).1 }
{}

/// A master gets the first group keys of its pool if its manager is up, the slaves are allowed, the pool has enough
/// keys and the journal has room.
pub fn law_enc_group_succeeds()
    ensures { (net : Network) (w : World) (v m : ℕ) (slaves : List ℕ) (n bits : ℕ) → Conserved net w → w.up v ≡ true →
        net.site.home m ≡ v → list_all (λ t. net.site.allowed m t) slaves ≡ true → 0 < length slaves → n ≤ length (group (view_of net w v) m slaves bits) →
        HasRoomAt w v (hand_to m (take n (group (view_of net w v) m slaves bits))) →
        IsAnswered w.durable.facts m (take n (group (view_of net w v) m slaves bits)) (handle net w v (EncGroup m slaves n bits) Ok).1 }
{}

/// Handing out n keys adds at most 7 + 19 n octets to a journal, whatever the journal's version.
pub fn law_handings_fit()
    ensures { (version sae : ℕ) (ns : List Name) → added_len version (hand_to sae ns) ≤ 7 + 19 * length ns }
{}
