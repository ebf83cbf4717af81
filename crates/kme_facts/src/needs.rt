// Which bytes a node needs: those of a fact that it owes to the next node, or that its application here hasn't got.
ghost use Rattle.std.specs.Prelude.{◌≡◌, true, false, slice_get, IfSome};
ghost use Rattle.qkd_base.specs.Name.{has};
ghost use Rattle.std.specs.List.{list_any};
ghost use Rattle.net_model.specs.Table.{fact_at, name_of, parts_of, part_of, sae_at, stream_end, was_handed, without_bytes};
ghost use Rattle.net_model.specs.Needed.{has_it, end_needs, is_needed};
ghost use Rattle.relay_core.specs.Knowledge.{is_owed_by};
ghost use Rattle.end_store.specs.Pooled.{ends_view};
ghost use Rattle.kme_facts.specs.Needs.{is_needed_here, is_for, needs_at, has_bytes_at};

use end_store::EndStore;
use net_model::Fact;
use qkd_base::{KeyName, SaeNo};
use relay_core::{Known, fact_name, fact_route};

// Whether a next node still has to acknowledge a fact.
fn is_owed(known: &Known, fact: &Fact) -> bool
    ensures { result ≡ is_owed_by known.now.me known.now.acked fact.now }
{
    fact_route(fact).next_after(known.me()).is_some() && !known.is_acknowledged(fact_name(fact))
}

// Whether a next node still has to acknowledge the fact at a place. It needs no search for the fact's name.
fn is_owed_at(known: &Known, place: usize) -> bool
    ensures { IfSome (slice_get known.now.facts place) (λ f. result ≡ is_owed_by known.now.me known.now.acked f) }
{
    match known.at(place) {
        None => false,
        Some(fact) => match fact_route(fact).next_after(known.me()) {
            None => false,
            Some(to) => known.next_owed(to, place) == Some(place),
        },
    }
}

// Whether a next node still has to acknowledge some part of this group key.
fn has_owed_part(known: &Known, key: KeyName) -> bool
    ensures { result ≡ list_any (is_owed_by known.now.me known.now.acked) (parts_of known.now.facts key) }
{
    let mut from = 0;
    while from < known.len() {
        match known.next_part(key, from) {
            None => return false,
            Some(place) => {
                if is_owed_at(known, place) {
                    return true;
                }
                from = place + 1;
            }
        }
    }
    false
}

/// Whether an application has got the key or chunk of a name.
pub fn has_it(ends: &EndStore, name: KeyName, sae: Option<SaeNo>) -> bool
    ensures { result ≡ has_it (ends_view ends.now) name sae }
{
    match sae {
        None => false,
        Some(sae) => ends.was_handed(name, sae),
    }
}

// The application at the first node of a stream, or at its last one.
fn stream_sae(known: &Known, at_first: bool, stream: KeyName) -> Option<SaeNo>
    ensures { result ≡ stream_end at_first (fact_at known.now.facts stream) }
{
    match known.fact(stream) {
        Some(Fact::Open { source, peer, .. }) => {
            if at_first { Some(*source) } else { Some(*peer) }
        }
        _ => None,
    }
}

/// The application at the first node of a key, chunk or part, or at its last one.
pub fn sae_at(known: &Known, at_first: bool, fact: &Fact) -> Option<SaeNo>
    ensures { result ≡ sae_at known.now.facts at_first fact.now }
{
    match fact {
        Fact::Key { master, slave, .. } => {
            if at_first {
                Some(*master)
            } else {
                Some(*slave)
            }
        }
        Fact::Chunk { stream, .. } => stream_sae(known, at_first, *stream),
        Fact::Part { master, slave, .. } => {
            if at_first {
                Some(*master)
            } else {
                Some(*slave)
            }
        }
        _ => None,
    }
}

// Whether the origin of a fact that isn't owed needs it.
fn origin_needs(ends: &EndStore, fact: &Fact) -> bool
    ensures { result ≡ end_needs (ends_view ends.now) true fact.now (part_of fact.now) }
{
    match fact {
        Fact::Part { key, master, .. } => {
            !ends.was_handed(*key, *master) || has_owed_part(ends.known(), *key)
        }
        _ => !has_it(ends, fact_name(fact), sae_at(ends.known(), true, fact)),
    }
}

// Whether the target of a fact that isn't owed needs it.
fn target_needs(ends: &EndStore, fact: &Fact) -> bool
    ensures { result ≡ end_needs (ends_view ends.now) false fact.now (part_of fact.now) }
{
    match fact {
        Fact::Part { key, slave, .. } => !ends.was_handed(*key, *slave),
        _ => !has_it(ends, fact_name(fact), sae_at(ends.known(), false, fact)),
    }
}

// Whether this node needs a fact that isn't owed. It does only if it is an end of the fact's route.
fn end_needs(ends: &EndStore, fact: &Fact) -> bool
    ensures { result ≡ is_needed_here (ends_view ends.now) fact.now }
{
    let route = fact_route(fact);
    if route.first() == ends.known().me() {
        origin_needs(ends, fact)
    } else if route.last() == ends.known().me() {
        target_needs(ends, fact)
    } else {
        false
    }
}

/// Whether this node needs a fact.
#[tactic(auto, unfolding(net_model::specs::Needed::is_needed))]
pub fn needs(ends: &EndStore, fact: &Fact) -> bool
    ensures { result ≡ is_needed (ends_view ends.now) fact.now }
{
    is_owed(ends.known(), fact) || end_needs(ends, fact)
}

/// Whether this node needs the fact at a place.
pub fn needs_at(ends: &EndStore, place: usize) -> bool
    ensures { result ≡ needs_at (ends_view ends.now) (slice_get ends.now.known.facts place) }
{
    let known = ends.known();
    match known.at(place) {
        None => false,
        Some(fact) => is_owed_at(known, place) || end_needs(ends, fact),
    }
}

/// Whether this node needs the fact at a place, which has been acknowledged.
pub fn needs_told_at(ends: &EndStore, place: usize) -> bool
    requires { IfSome (slice_get ends.now.known.facts place) (λ f. has ends.now.known.acked (name_of f) ≡ true) }
    ensures { result ≡ needs_at (ends_view ends.now) (slice_get ends.now.known.facts place) }
{
    match ends.known().at(place) {
        None => false,
        Some(fact) => end_needs(ends, fact),
    }
}

// Whether this node is the end of a fact's route at which this application gets the key or chunk.
fn is_for(known: &Known, fact: &Fact, sae: SaeNo) -> bool
    ensures { result ≡ is_for known.now.me known.now.facts sae fact.now }
{
    let route = fact_route(fact);
    match fact {
        Fact::Part { .. } => false,
        _ => {
            if route.first() == known.me() {
                sae_at(known, true, fact) == Some(sae)
            } else {
                route.last() == known.me() && sae_at(known, false, fact) == Some(sae)
            }
        }
    }
}

/// Whether this node needs the fact at a place, after this application has got its key or chunk.
pub fn needs_given_at(ends: &EndStore, place: usize, sae: SaeNo) -> bool
    requires { IfSome (slice_get ends.now.known.facts place) (λ f. was_handed ends.now.handed (name_of f) sae ≡ true) }
    ensures { result ≡ needs_at (ends_view ends.now) (slice_get ends.now.known.facts place) }
{
    let known = ends.known();
    match known.at(place) {
        None => false,
        Some(fact) => {
            is_owed_at(known, place) || !is_for(known, fact, sae) && end_needs(ends, fact)
        }
    }
}

/// Whether the fact at a place is of a kind that has bytes.
pub fn has_bytes_at(known: &Known, place: usize) -> bool
    ensures kind { result ≡ has_bytes_at (slice_get known.now.facts place) }
    ensures zeros { result ≡ false → IfSome (slice_get known.now.facts place) (λ f. without_bytes f ≡ f) }
{
    match known.at(place) {
        Some(Fact::Key { .. }) => true,
        Some(Fact::Chunk { .. }) => true,
        Some(Fact::Part { .. }) => true,
        _ => false,
    }
}
