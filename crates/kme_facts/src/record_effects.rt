// How records change the state. A record that doesn't fit changes nothing.
ghost use Rattle.std.specs.Prelude.{◌≡◌, ◌+◌, ◌&&◌, ℕ, length, slice_get, IfSome};
ghost use Rattle.std.specs.List.{list_any};
ghost use Rattle.net_model.specs.declared.record.Record.TheVariants.{Learned, Handed, Closed};
ghost use Rattle.qkd_base.specs.Name.{name_eq};
ghost use Rattle.net_model.specs.Table.{name_of, is_part_of};
ghost use Rattle.net_model.specs.Fold.{is_handed_by, view_record, view_records};
ghost use Rattle.kme_facts.specs.Needs.{kept_view};
ghost use Rattle.kme_facts.specs.Taken.{is_end_at, may_give, may_close, HasRoom};

use net_model::{Fact, Record, Records};
use qkd_base::{KeyName, NodeNo, SaeNo};
use relay_core::{Known, fact_route};
use stream_core::Streams;

// Whether this node is the first or last node of a fact's route.
fn is_end_at(me: NodeNo, fact: &Fact) -> bool
    ensures { result ≡ is_end_at me fact.now }
{
    let route = fact_route(fact);
    route.first() == me || route.last() == me
}

// Whether a fact lets an application get the key of this name.
fn is_handed_by(fact: &Fact, of: KeyName, sae: SaeNo) -> bool
    ensures { result ≡ is_handed_by of sae fact.now }
{
    match fact {
        Fact::Key {
            name,
            master,
            slave,
            ..
        } => *name == of && (*master == sae || *slave == sae),
        Fact::Chunk { name, .. } => *name == of,
        Fact::Part {
            key,
            master,
            slave,
            ..
        } => *key == of && (*master == sae || *slave == sae),
        _ => false,
    }
}

// Whether a fact lets an application get the key of this name at this node.
fn may_give_by(known: &Known, fact: &Fact, name: KeyName, sae: SaeNo) -> bool
    ensures { result ≡ may_give known.now.me name sae fact.now }
{
    is_end_at(known.me(), fact) && is_handed_by(fact, name, sae)
}

// Whether the fact at a place lets an application get the key of this name at this node.
fn may_give_at(known: &Known, place: usize, name: KeyName, sae: SaeNo) -> bool
    ensures { IfSome (slice_get known.now.facts place) (λ f. result ≡ may_give known.now.me name sae f) }
{
    match known.at(place) {
        None => false,
        Some(fact) => may_give_by(known, fact, name, sae),
    }
}

// Whether the fact of this name lets an application get the key at this node.
fn gives_named(known: &Known, name: KeyName, sae: SaeNo) -> bool
    ensures { result ≡ list_any (λ f. name_eq (name_of f) name && may_give known.now.me name sae f) known.now.facts }
{
    // The contract of `len` also says that all names differ.
    let _holds = known.len();
    match known.fact(name) {
        None => false,
        Some(fact) => may_give_by(known, fact, name, sae),
    }
}

// Whether a part of the group key of this name lets an application get the key at this node.
fn gives_part(known: &Known, name: KeyName, sae: SaeNo) -> bool
    ensures { result ≡ list_any (λ f. is_part_of name f && may_give known.now.me name sae f) known.now.facts }
{
    let mut from = 0;
    while from < known.len() {
        match known.next_part(name, from) {
            None => return false,
            Some(place) => {
                if may_give_at(known, place, name, sae) {
                    return true;
                }
                from = place + 1;
            }
        }
    }
    false
}

// Whether an application may get the key of this name at this node.
fn may_give(known: &Known, name: KeyName, sae: SaeNo) -> bool
    ensures { result ≡ list_any (may_give known.now.me name sae) known.now.facts }
{
    gives_named(known, name, sae) || gives_part(known, name, sae)
}

// Whether a fact opens the stream of this name, with an end at this node.
fn may_close_by(known: &Known, fact: &Fact, of: KeyName) -> bool
    ensures { result ≡ may_close known.now.me of fact.now }
{
    match fact {
        Fact::Open { stream, .. } => is_end_at(known.me(), fact) && *stream == of,
        _ => false,
    }
}

// Whether a stream has an end at this node.
fn may_close(known: &Known, stream: KeyName) -> bool
    ensures { result ≡ list_any (may_close known.now.me stream) known.now.facts }
{
    // The contract of `len` also says that all names differ.
    let _holds = known.len();
    match known.fact(stream) {
        None => false,
        Some(fact) => may_close_by(known, fact, stream),
    }
}

// Applies the record that a fact was learned.
fn learn(streams: &mut Streams, fact: Fact)
    requires room { HasRoom streams.old 1 }
    ensures view { kept_view streams.new ≡ view_record (Learned fact) (kept_view streams.old) }
    ensures left { (n : ℕ) → HasRoom streams.old (n + 1) → HasRoom streams.new n }
{
    let _new = streams.learn(fact);
}

// Applies the record that an application has got the key of a name.
fn hand(streams: &mut Streams, name: KeyName, sae: SaeNo)
    requires room { HasRoom streams.old 1 }
    ensures view { kept_view streams.new ≡ view_record (Handed name sae) (kept_view streams.old) }
    ensures left { (n : ℕ) → HasRoom streams.old (n + 1) → HasRoom streams.new n }
{
    if may_give(streams.ends().known(), name, sae) {
        streams.mark(name, sae);
    }
}

// Applies the record that an application has closed its end of a stream.
fn close(streams: &mut Streams, stream: KeyName, sae: SaeNo)
    requires room { HasRoom streams.old 1 }
    ensures view { kept_view streams.new ≡ view_record (Closed stream sae) (kept_view streams.old) }
    ensures left { (n : ℕ) → HasRoom streams.old (n + 1) → HasRoom streams.new n }
{
    if may_close(streams.ends().known(), stream) {
        streams.close(stream, sae);
    }
}

// Applies one record.
fn take(streams: &mut Streams, change: Record)
    requires room { HasRoom streams.old 1 }
    ensures view { kept_view streams.new ≡ view_record change (kept_view streams.old) }
    ensures left { (n : ℕ) → HasRoom streams.old (n + 1) → HasRoom streams.new n }
{
    match change {
        Record::Learned { fact } => learn(streams, fact),
        Record::Bare { fact } => learn(streams, fact),
        Record::Acked { name } => streams.acknowledge(name),
        Record::Handed { name, sae } => hand(streams, name, sae),
        Record::Closed { stream, sae } => close(streams, stream, sae),
        Record::Block { .. } => {}
        Record::Lease { .. } => {}
    }
}

/// Applies records in order. Records of blocks and leases change nothing here.
pub fn take_all(streams: &mut Streams, records: Records)
    requires room { HasRoom streams.old (length records) }
    ensures view { kept_view streams.new ≡ view_records records (kept_view streams.old) }
    ensures left { (n : ℕ) → HasRoom streams.old (n + length records) → HasRoom streams.new n }
{
    for change in records.into_vec() {
        take(streams, change);
    }
}
