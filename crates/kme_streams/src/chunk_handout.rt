// Handing chunks to the ends of a stream, and closing ends.
ghost use Rattle.std.specs.Prelude.{◌≡◌, ◌&&◌, not, ◌∷◌, [], IfOk, None, Some};
ghost use Rattle.net_model.specs.declared.record.Record.TheVariants.{Handed};
ghost use Rattle.net_model.specs.declared.reply.Reply.TheVariants.{Stream};
ghost use Rattle.net_model.specs.Table.{bytes_of, name_of, was_handed};
ghost use Rattle.net_model.specs.Decision.{makes, is_confirmed};
ghost use Rattle.net_model.specs.View.{View};
ghost use Rattle.net_model.specs.Streams.{gives_chunk, get_chunk, close_stream};
ghost use Rattle.declared_site.specs.SiteOf.{site_of};
ghost use Rattle.stream_core.specs.Kept.{Sees};
ghost use Rattle.kme_streams.specs.Prompt.{IsPromptStep};
ghost use Rattle.kme_streams.specs.Calls.{gets, is_early};

use crate::ends::{end_status, stream_here};
use crate::stream_steps::{answer, make};
use declared_site::Site;
use kme_base::Step;
use net_model::{Fact, Record, Reply};
use qkd_base::{KeyName, Memory, Octets, SaeNo};
use relay_core::fact_name;
use std::alloc::Global;
use stream_core::{Opened, Streams};

// A copy of a fact's bytes.
fn copied_bytes(alloc: Global, fact: &Fact) -> Result<Octets, Memory>
    ensures { IfOk result (λ bytes. bytes ≡ bytes_of fact.now) }
{
    match fact {
        Fact::Key { bytes, .. } => Octets::from_slice(alloc, bytes.as_slice()),
        Fact::Chunk { bytes, .. } => Octets::from_slice(alloc, bytes.as_slice()),
        Fact::Part { bytes, .. } => Octets::from_slice(alloc, bytes.as_slice()),
        _ => Ok(Octets::new(alloc)),
    }
}

// The step that hands a chunk to its caller.
fn hand(alloc: Global, caller: SaeNo, index: u32, fact: &Fact) -> Result<Step, Reply>
    ensures { (v : View) → IsPromptStep v (makes v (Handed (name_of fact.now) caller ∷ []) (Stream 0 None index (bytes_of fact.now))) result }
{
    match copied_bytes(alloc, fact) {
        Err(_) => Err(Reply::Memory),
        Ok(bytes) => make(
            alloc,
            Record::Handed {
                name: fact_name(fact),
                sae: caller,
            },
            Reply::Stream {
                status: 0,
                stream: None,
                index,
                bytes,
            },
        ),
    }
}

// Whether an application has got a chunk.
fn has_got(kept: &Streams, sae: SaeNo, fact: &Fact) -> bool
    ensures { (v : View) → Sees v kept.now → result ≡ was_handed v.handed (name_of fact.now) sae }
{
    kept.ends().was_handed(fact_name(fact), sae)
}

// Whether this node knows that a chunk has reached the peer's home.
fn is_confirmed(kept: &Streams, fact: &Fact) -> bool
    ensures { (v : View) → Sees v kept.now → result ≡ is_confirmed v (name_of fact.now) }
{
    kept.ends().known().is_confirmed(fact_name(fact))
}

// Whether the source must wait for a chunk, since this node doesn't know that the chunk has reached the peer's home.
fn is_held_back(kept: &Streams, at_source: bool, fact: &Fact) -> bool
    ensures { (v : View) → Sees v kept.now → result ≡ (at_source && not (is_confirmed v (name_of fact.now))) }
{
    let is_unconfirmed = !is_confirmed(kept, fact);
    at_source && is_unconfirmed
}

// Whether the caller is the source and this node doesn't know yet that the peer has joined.
fn is_early(kept: &Streams, caller: SaeNo, opened: &Opened) -> bool
    ensures { (v : View) → Sees v kept.now → result ≡ is_early v caller opened.now }
{
    let is_unjoined = !kept.has_joined(opened.stream);
    caller == opened.source && is_unjoined
}

// Hands a chunk that is known at this node. The caller mustn't have got it, and the source gets it only once it is
// known to have reached the peer's home.
fn give(
    alloc: Global,
    kept: &Streams,
    caller: SaeNo,
    index: u32,
    at_source: bool,
    fact: &Fact,
) -> Result<Step, Reply>
    ensures { (v : View) → Sees v kept.now → IsPromptStep v (gives_chunk v caller index at_source (Some fact.now)) result }
{
    if has_got(kept, caller, fact) {
        return answer(alloc, 10);
    }
    if is_held_back(kept, at_source, fact) {
        return answer(alloc, 2);
    }
    hand(alloc, caller, index, fact)
}

// Hands a chunk to a caller that has its end at this node.
fn get_at(
    alloc: Global,
    kept: &Streams,
    caller: SaeNo,
    index: u32,
    opened: &Opened,
) -> Result<Step, Reply>
    ensures { (v : View) → Sees v kept.now → IsPromptStep v (gets v caller index opened.now) result }
{
    if is_early(kept, caller, opened) {
        return answer(alloc, 3);
    }
    let at_source = caller == opened.source;
    match kept.chunk(opened.stream, index) {
        None => answer(alloc, 2),
        Some(fact) => give(alloc, kept, caller, index, at_source, fact),
    }
}

/// Hands out the chunk at an index of a stream (ETSI GS QKD 004, GET_KEY). The first status that applies is answered:
/// - 9: this node has no open end of such a stream, or the peer is at home here and hasn't joined;
/// - 8: the caller is neither the source nor the peer, or isn't at home here;
/// - 3: the caller is the source, and this node doesn't know yet that the peer has joined;
/// - 2: the chunk isn't known here;
/// - 10: the caller has got the chunk;
/// - 2: the caller is the source, and the chunk isn't known to have reached the peer's home;
/// - 0: the chunk is handed out, with its bytes.
pub fn get_chunk(
    alloc: Global,
    site: &Site,
    kept: &Streams,
    caller: SaeNo,
    stream: KeyName,
    index: u32,
) -> Result<Step, Reply>
    ensures { (v : View) → Sees v kept.now → IsPromptStep v (get_chunk (site_of site.now) v caller stream index) result }
{
    match stream_here(site, kept, stream) {
        None => answer(alloc, 9),
        Some(opened) => match end_status(site, kept, caller, &opened) {
            Some(status) => answer(alloc, status),
            None => get_at(alloc, kept, caller, index, &opened),
        },
    }
}

/// Closes the caller's end of a stream (ETSI GS QKD 004, CLOSE). The other end isn't told. Statuses: 9 and 8 as in
/// `get_chunk`, 0 if the end is closed.
pub fn close_stream(
    alloc: Global,
    site: &Site,
    kept: &Streams,
    caller: SaeNo,
    stream: KeyName,
) -> Result<Step, Reply>
    ensures { (v : View) → Sees v kept.now → IsPromptStep v (close_stream (site_of site.now) v caller stream) result }
{
    match stream_here(site, kept, stream) {
        None => answer(alloc, 9),
        Some(opened) => match end_status(site, kept, caller, &opened) {
            Some(status) => answer(alloc, status),
            None => make(
                alloc,
                Record::Closed {
                    stream: opened.stream,
                    sae: caller,
                },
                Reply::Stream {
                    status: 0,
                    stream: None,
                    index: 0,
                    bytes: Octets::new(alloc),
                },
            ),
        },
    }
}
