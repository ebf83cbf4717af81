// How bytes that are no longer needed are cleared, that is, overwritten with zeros. It looks only at the facts that a
// new fact, an acknowledgement or a handed-out key concerns.
ghost use Rattle.std.specs.Prelude.{◌≡◌, ◌≤◌, ◌<◌, ℕ, true, length, slice_get, Some, IfSome};
ghost use Rattle.std.specs.Option.{option_copied};
ghost use Rattle.net_model.specs.Needed.{masked};
ghost use Rattle.net_model.specs.Table.{name_of, was_handed};
ghost use Rattle.qkd_base.specs.Name.{Name, has};
ghost use Rattle.relay_core.specs.declared.group.Group.TheVariants.{Named, PartsOf};
ghost use Rattle.kme_facts.specs.Needs.{kept_view, needs_at};
ghost use Rattle.kme_facts.specs.Settled.{IsSettled, AreSettled, LetsGo, opened_by, key_of, IsLearnedSettled, IsToldSettled, IsGivenSettled, WasMasked};

use crate::needs::{has_bytes_at, needs_at, needs_given_at, needs_told_at};
use net_model::Fact;
use qkd_base::{KeyName, SaeNo};
use relay_core::Group;
use stream_core::Streams;

// Clears the bytes of the fact at a place, unless they are needed.
fn let_go_unless(streams: &mut Streams, place: usize, needed: bool)
    requires { needed ≡ needs_at (kept_view streams.old) (slice_get streams.old.ends.known.facts place) }
    ensures lets { LetsGo streams.old streams.new }
    ensures settled { IsSettled streams.new place }
{
    if !needed {
        streams.forget(place);
    }
}

// Clears the bytes of the fact at a place, if they aren't needed.
fn let_go_at(streams: &mut Streams, place: usize)
    ensures lets { LetsGo streams.old streams.new }
    ensures settled { IsSettled streams.new place }
{
    if has_bytes_at(streams.ends().known(), place) {
        let needed = needs_at(streams.ends(), place);
        let_go_unless(streams, place, needed);
    }
}

// Clears the unneeded bytes of each fact of a group.
fn let_go_group(streams: &mut Streams, group: &Group)
    ensures lets { LetsGo streams.old streams.new }
    ensures settled { AreSettled streams.new group.now }
{
    let mut from = 0;
    while from < streams.ends().known().len() {
        match streams.ends().known().next(group, from) {
            None => return,
            Some(place) => {
                let_go_at(streams, place);
                from = place + 1;
            }
        }
    }
}

// The stream that the fact at a place opens.
fn opened_at(streams: &Streams, place: usize) -> Option<KeyName>
    ensures { result ≡ opened_by (slice_get streams.now.ends.known.facts place) }
{
    match streams.ends().known().at(place) {
        Some(Fact::Open { stream, .. }) => Some(*stream),
        _ => None,
    }
}

// After the fact at a place was learned, clears the unneeded bytes of all facts that it concerns.
fn let_go_learned(streams: &mut Streams, place: usize)
    ensures lets { LetsGo streams.old streams.new }
    ensures settled { IsLearnedSettled streams.new place }
{
    let_go_at(streams, place);
    match opened_at(streams, place) {
        None => {}
        Some(stream) => let_go_group(streams, &Group::ChunksOf(stream)),
    }
}

// The group key of the part at a place.
fn key_at(streams: &Streams, place: usize) -> Option<KeyName>
    ensures { result ≡ key_of (slice_get streams.now.ends.known.facts place) }
{
    match streams.ends().known().at(place) {
        Some(Fact::Part { key, .. }) => Some(*key),
        _ => None,
    }
}

// Clears the unneeded bytes of the acknowledged fact at a place, and of all parts of its group key if it is a part.
fn let_go_acked(streams: &mut Streams, place: usize)
    requires { IfSome (slice_get streams.old.ends.known.facts place) (λ f. has streams.old.ends.known.acked (name_of f) ≡ true) }
    ensures lets { LetsGo streams.old streams.new }
    ensures there { IsSettled streams.new place }
    ensures parts { (key : Name) → key_of (slice_get streams.old.ends.known.facts place) ≡ Some key → AreSettled streams.new (PartsOf key) }
{
    match key_at(streams, place) {
        None => {
            let needed = needs_told_at(streams.ends(), place);
            let_go_unless(streams, place, needed);
        }
        Some(key) => let_go_group(streams, &Group::PartsOf(key)),
    }
}

// After the fact of this name was acknowledged, clears the unneeded bytes of all facts that this concerns.
fn let_go_told(streams: &mut Streams, name: KeyName)
    requires { has streams.old.ends.known.acked name ≡ true }
    ensures lets { LetsGo streams.old streams.new }
    ensures settled { IsToldSettled streams.new name }
{
    // The contract of `len` also says that all names differ.
    let _holds = streams.ends().known().len();
    match streams.ends().known().next(&Group::Named(name), 0) {
        None => {}
        Some(place) => let_go_acked(streams, place),
    }
}

// Clears the unneeded bytes of the fact of a name that an application has got.
fn let_go_named(streams: &mut Streams, name: KeyName, sae: SaeNo)
    requires { was_handed streams.old.ends.handed name sae ≡ true }
    ensures lets { LetsGo streams.old streams.new }
    ensures settled { AreSettled streams.new (Named name) }
{
    // The contract of `len` also says that all names differ.
    let _holds = streams.ends().known().len();
    match streams.ends().known().next(&Group::Named(name), 0) {
        None => {}
        Some(place) => {
            let needed = needs_given_at(streams.ends(), place, sae);
            let_go_unless(streams, place, needed);
        }
    }
}

// Clears the unneeded bytes of the key, chunk or group key of a name that an application has got.
fn let_go_given(streams: &mut Streams, name: KeyName, sae: SaeNo)
    requires { was_handed streams.old.ends.handed name sae ≡ true }
    ensures lets { LetsGo streams.old streams.new }
    ensures settled { IsGivenSettled streams.new name }
{
    let_go_named(streams, name, sae);
    let_go_group(streams, &Group::PartsOf(name));
}

// After the acknowledgement at a place was recorded, clears the unneeded bytes of all facts that it concerns.
fn let_go_told_at(streams: &mut Streams, place: usize)
    ensures lets { LetsGo streams.old streams.new }
    ensures settled { IfSome (slice_get streams.old.ends.known.acked place) (IsToldSettled streams.new) }
{
    match streams.ends().known().acked().get(place).copied() {
        None => {}
        Some(name) => let_go_told(streams, name),
    }
}

// The pair of a key and an application at a place.
fn handing_in(pairs: &[(KeyName, SaeNo)], place: usize) -> Option<&(KeyName, SaeNo)>
    ensures { option_copied result ≡ slice_get pairs.now place }
{
    pairs.get(place)
}

// After the pair at a place was recorded, clears the unneeded bytes of all facts that it concerns.
fn let_go_given_at(streams: &mut Streams, place: usize)
    ensures lets { LetsGo streams.old streams.new }
    ensures settled { IfSome (slice_get streams.old.ends.handed place) (λ h. IsGivenSettled streams.new h.0) }
{
    match handing_in(streams.ends().handed(), place).copied() {
        None => {}
        Some(pair) => let_go_given(streams, pair.0, pair.1),
    }
}

// After the facts from a place on were learned, clears the unneeded bytes of all facts that they concern.
fn let_go_all_learned(streams: &mut Streams, from: usize)
    ensures lets { LetsGo streams.old streams.new }
    ensures settled { (p : ℕ) → from ≤ p → p < length streams.new.ends.known.facts → IsLearnedSettled streams.new p }
{
    for place in from..streams.ends().known().len() {
        let_go_learned(streams, place);
    }
}

// After the acknowledgements from a place on were recorded, clears the unneeded bytes of all facts that they concern.
fn let_go_all_told(streams: &mut Streams, from: usize)
    ensures lets { LetsGo streams.old streams.new }
    ensures settled { (p : ℕ) → from ≤ p → IfSome (slice_get streams.new.ends.known.acked p) (IsToldSettled streams.new) }
{
    for place in from..streams.ends().known().acked().len() {
        let_go_told_at(streams, place);
    }
}

// After the pairs from a place on were recorded, clears the unneeded bytes of all facts that they concern.
fn let_go_all_given(streams: &mut Streams, from: usize)
    ensures lets { LetsGo streams.old streams.new }
    ensures settled { (p : ℕ) → from ≤ p → IfSome (slice_get streams.new.ends.handed p) (λ h. IsGivenSettled streams.new h.0) }
{
    for place in from..streams.ends().handed().len() {
        let_go_given_at(streams, place);
    }
}

/// Clears all bytes that are no longer needed. In the earlier state, with only the first `facts` facts, `acked`
/// acknowledgements and `handed` pairs of a key and an application, the unneeded bytes must have been cleared
/// already.
pub fn let_go(streams: &mut Streams, facts: usize, acked: usize, handed: usize)
    requires { WasMasked streams.old facts acked handed }
    ensures view { kept_view streams.new ≡ masked (kept_view streams.old) }
    ensures spare { (streams.new.ends.known.facts_spare ≡ streams.old.ends.known.facts_spare) × (streams.new.ends.known.acked_spare ≡ streams.old.ends.known.acked_spare)
        × (streams.new.ends.handed_spare ≡ streams.old.ends.handed_spare) × (streams.new.closed_spare ≡ streams.old.closed_spare) }
{
    // The contract of `len` also says that all names differ.
    let _holds = streams.ends().known().len();
    let_go_all_learned(streams, facts);
    let_go_all_told(streams, acked);
    let_go_all_given(streams, handed);
}
