// Functions that update the tallies of streams when a fact is learned or a chunk is handed out.
ghost use Rattle.std.specs.Prelude.{◌≡◌, ◌+◌, ◌<◌, ◌^◌, cond, length, slice_get, true, Some};
ghost use Rattle.net_model.specs.Table.{fact_at};
ghost use Rattle.net_model.specs.Streams.{is_chunk_of};
ghost use Rattle.net_model.specs.Fold.{marked};
ghost use Rattle.stream_core.specs.Tallied.{IsTally, AreTallies, all_but_last, last_of_facts, chunk_stream, source_of, was_given};

use crate::tallies::{Tallies, Tally};
use end_store::EndStore;
use net_model::Fact;
use qkd_base::{KeyName, SaeNo};
use relay_core::{Known, fact_name};

// 1 if true, 0 if false.
fn one_if(yes: bool) -> u64
    ensures { result ≡ cond yes 1 0 }
{
    if yes { 1 } else { 0 }
}

// Whether an application has got the key or chunk at a place.
fn was_given(ends: &EndStore, place: usize, sae: SaeNo) -> bool
    ensures { result ≡ was_given ends.now.handed sae (slice_get ends.now.known.facts place) }
{
    match ends.known().at(place) {
        None => false,
        Some(fact) => ends.was_handed(fact_name(fact), sae),
    }
}

// The stream of the chunk that has this name.
fn chunk_stream(known: &Known, name: KeyName) -> Option<KeyName>
    ensures { result ≡ chunk_stream (fact_at known.now.facts name) }
{
    match known.fact(name) {
        Some(Fact::Chunk { stream, .. }) => Some(*stream),
        _ => None,
    }
}

// The source of a stream, if the stream is known.
fn source_of(known: &Known, stream: KeyName) -> Option<SaeNo>
    ensures { result ≡ source_of (fact_at known.now.facts stream) }
{
    match known.fact(stream) {
        Some(Fact::Open { source, .. }) => Some(*source),
        _ => None,
    }
}

/// The tally of a stream for this source. It counts the chunks one by one.
pub fn count_chunks(ends: &EndStore, stream: KeyName, source: SaeNo) -> Tally
    ensures source { result.source ≡ source }
    ensures tally { IsTally ends.now.known.facts ends.now.handed stream result }
{
    let known = ends.known();
    let mut chunks = 0;
    let mut given = 0;
    let mut from = 0;
    while from < known.len() {
        match known.next_chunk(stream, from) {
            None => {
                return Tally {
                    source,
                    chunks,
                    given,
                };
            }
            Some(place) => {
                chunks += 1;
                given += one_if(was_given(ends, place, source));
                from = place + 1;
            }
        }
    }
    Tally {
        source,
        chunks,
        given,
    }
}

// Updates the tally of a stream for its chunk that was learned last.
fn tally_chunk(tallies: &mut Tallies, ends: &EndStore, fact: &Fact, stream: KeyName)
    requires last { last_of_facts ends.now.known.facts ≡ Some fact.now }
    requires chunk { is_chunk_of stream fact.now ≡ true }
    requires tallies { AreTallies (all_but_last ends.now.known.facts) ends.now.handed tallies.old }
    ensures { AreTallies ends.now.known.facts ends.now.handed tallies.new }
{
    match tallies.find(stream) {
        Some(tally) => {
            // The contract of `len` also bounds the number of facts.
            let _holds = ends.known().len();
            let given = ends.was_handed(fact_name(fact), tally.source);
            tallies.put(
                stream,
                Tally {
                    source: tally.source,
                    chunks: tally.chunks + 1,
                    given: tally.given + one_if(given),
                },
            );
        }
        None => match source_of(ends.known(), stream) {
            None => {}
            Some(source) => tallies.put(stream, count_chunks(ends, stream, source)),
        },
    }
}

// Updates the tallies for this fact, which was learned last.
fn tally_fact(tallies: &mut Tallies, ends: &EndStore, fact: &Fact)
    requires last { last_of_facts ends.now.known.facts ≡ Some fact.now }
    requires tallies { AreTallies (all_but_last ends.now.known.facts) ends.now.handed tallies.old }
    ensures { AreTallies ends.now.known.facts ends.now.handed tallies.new }
{
    match fact {
        Fact::Chunk { stream, .. } => tally_chunk(tallies, ends, fact, *stream),
        Fact::Open { stream, source, .. } => {
            tallies.put(*stream, count_chunks(ends, *stream, *source));
        }
        _ => {}
    }
}

/// Updates the tallies for the fact that was learned last.
pub fn tally_last(tallies: &mut Tallies, ends: &EndStore)
    requires some { 0 < length ends.now.known.facts }
    requires tallies { AreTallies (all_but_last ends.now.known.facts) ends.now.handed tallies.old }
    ensures { AreTallies ends.now.known.facts ends.now.handed tallies.new }
{
    let known = ends.known();
    match known.at(known.len() - 1) {
        None => {}
        Some(fact) => tally_fact(tallies, ends, fact),
    }
}

/// Updates the tallies for a pair of a name and an application that is about to be recorded. A tally changes only if
/// the pair is new and hands a chunk to its source.
pub fn tally_handing(tallies: &mut Tallies, ends: &EndStore, name: KeyName, sae: SaeNo)
    requires { AreTallies ends.now.known.facts ends.now.handed tallies.old }
    ensures { AreTallies ends.now.known.facts (marked ends.now.handed name sae) tallies.new }
{
    if tallies.is_empty() {
        return;
    }
    // The contract of `len` also says that all names differ.
    let _holds = ends.known().len();
    match chunk_stream(ends.known(), name) {
        None => {}
        Some(stream) => match tallies.find(stream) {
            None => {}
            Some(tally) => {
                if tally.source == sae && !ends.was_handed(name, sae) {
                    tallies.put(
                        stream,
                        Tally {
                            source: tally.source,
                            chunks: tally.chunks,
                            given: tally.given + 1,
                        },
                    );
                }
            }
        },
    }
}
