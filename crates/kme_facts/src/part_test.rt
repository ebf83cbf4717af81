// Tests of the parts of a group key.
ghost use Rattle.std.specs.Prelude.{◌≡◌, ◌+◌, ◌&&◌, IfSome, IfNone, slice_get};
ghost use Rattle.net_model.specs.Table.{is_part_of, part_of};
ghost use Rattle.net_model.specs.Show.{slave_has};
ghost use Rattle.relay_core.specs.Firsts.{IsFirstFrom, IsNoneFrom};
ghost use Rattle.end_store.specs.Pooled.{ends_view};
ghost use Rattle.kme_facts.specs.Parts.{passes};

use crate::needs::needs;
use end_store::EndStore;
use net_model::Fact;
use qkd_base::KeyName;
use relay_core::{fact_name, fact_route};

/// A test of a part of a group key.
#[derive(Clone, Copy)]
pub enum PartTest {
    /// The part isn't confirmed: its origin doesn't know that it has reached its target.
    Unconfirmed,
    /// This node is the part's target.
    Here,
    /// This node is the part's target, and its slave hasn't got the key.
    Lacking,
    /// This node is the part's target, and its bytes are needed.
    NeededHere,
}

// Whether the slave of a part has got the key.
fn slave_has(ends: &EndStore, fact: &Fact) -> bool
    ensures { result ≡ slave_has (ends_view ends.now) (part_of fact.now) }
{
    match fact {
        Fact::Part { key, slave, .. } => ends.was_handed(*key, *slave),
        _ => false,
    }
}

// Whether a part passes a test.
fn passes(ends: &EndStore, test: PartTest, fact: &Fact) -> bool
    ensures { result ≡ passes (ends_view ends.now) test fact.now }
{
    let here = fact_route(fact).last() == ends.known().me();
    match test {
        PartTest::Unconfirmed => !ends.known().is_confirmed(fact_name(fact)),
        PartTest::Here => here,
        PartTest::Lacking => here && !slave_has(ends, fact),
        PartTest::NeededHere => here && needs(ends, fact),
    }
}

// Whether the part at a place passes a test.
fn passes_at(ends: &EndStore, test: PartTest, place: usize) -> bool
    ensures { IfSome (slice_get ends.now.known.facts place) (λ f. result ≡ passes (ends_view ends.now) test f) }
{
    match ends.known().at(place) {
        None => false,
        Some(fact) => passes(ends, test, fact),
    }
}

/// The place of the first part of a group key that passes a test.
pub fn first_part(ends: &EndStore, key: KeyName, test: PartTest) -> Option<usize>
    ensures first { IfSome result (λ place. IsFirstFrom (λ f. is_part_of key f && passes (ends_view ends.now) test f) ends.now.known.facts 0 place) }
    ensures none { IfNone result (IsNoneFrom (λ f. is_part_of key f && passes (ends_view ends.now) test f) ends.now.known.facts 0) }
{
    let mut from = 0;
    while from < ends.known().len() {
        match ends.known().next_part(key, from) {
            None => return None,
            Some(place) => {
                if passes_at(ends, test, place) {
                    return Some(place);
                }
                from = place + 1;
            }
        }
    }
    None
}
