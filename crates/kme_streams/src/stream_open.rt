// Opening and joining streams.
ghost use Rattle.std.specs.Prelude.{◌≡◌, ◌*◌, ◌==◌, ℕ, Bool, Some};
ghost use Rattle.net_model.specs.View.{View};
ghost use Rattle.net_model.specs.Streams.{is_size, opened, open_stream, joins, join_stream};
ghost use Rattle.declared_site.specs.SiteOf.{IsDeclared, site_of};
ghost use Rattle.stream_core.specs.Kept.{Sees};
ghost use Rattle.kme_base.specs.Up.{AreUp};
ghost use Rattle.kme_streams.specs.Prompt.{IsPromptStep};
ghost use Rattle.kme_streams.specs.Calls.{opening, is_joined_peer, takes_part, may_join};

use crate::ends::{is_home, stream_here};
use crate::stream_steps::{answer, fresh_name, make, me};
use declared_site::Site;
use kme_base::{Step, home, is_entitled, route_between};
use net_model::{Fact, Record, Reply};
use qkd_base::{KeyName, NameKind, Octets, Route, SaeNo};
use std::alloc::Global;
use stream_core::{Opened, Streams};

// Whether chunks may have this size: 64 to 4,096 bits, in steps of 8.
fn is_size(bits: u16) -> bool
    ensures { result ≡ is_size bits }
{
    64 <= bits && bits <= 4096 && bits % 8 == 0
}

// The step that opens a stream with a route.
fn opened(
    alloc: Global,
    kept: &Streams,
    source: SaeNo,
    peer: SaeNo,
    bits: u16,
    route: Route,
) -> Result<Step, Reply>
    ensures { (v : View) → Sees v kept.now → IsPromptStep v (opened v source peer bits (Some route)) result }
{
    match fresh_name(kept, NameKind::Stream, 0) {
        None => Err(Reply::Memory),
        Some(stream) => make(
            alloc,
            Record::Learned {
                fact: Fact::Open {
                    stream,
                    source,
                    peer,
                    length: bits / 8,
                    route,
                },
            },
            Reply::Stream {
                status: 1,
                stream: Some(stream),
                index: 0,
                bytes: Octets::new(alloc),
            },
        ),
    }
}

/// Opens a stream at its source (ETSI GS QKD 004, OPEN_CONNECT). The stream gets a new name and a route that uses only
/// links that are up. Bit l of `up` says that link l is up. The first status that applies is answered:
/// - 8: the pair isn't allowed, or the source isn't at home here;
/// - 7: the size of the chunks isn't one of 64 to 4,096 bits in steps of 8;
/// - 4: no route leads to the peer's home;
/// - 1: the stream is opened, and its peer hasn't joined yet.
pub fn open_stream(
    alloc: Global,
    site: &Site,
    kept: &Streams,
    up: u32,
    source: SaeNo,
    peer: SaeNo,
    bits: u16,
) -> Result<Step, Reply>
    requires { IsDeclared site.now }
    ensures { (v : View) (is_up : ℕ → Bool) → Sees v kept.now → AreUp up is_up → IsPromptStep v (open_stream (site_of site.now) is_up v source peer bits) result }
{
    if !is_entitled(site, me(kept), source, source, peer) {
        return answer(alloc, 8);
    }
    if !is_size(bits) {
        return answer(alloc, 7);
    }
    match route_between(site, up, me(kept), home(site, peer)) {
        None => answer(alloc, 4),
        Some(route) => opened(alloc, kept, source, peer, bits, route),
    }
}

// Whether the caller is the peer and has joined.
fn is_joined_peer(kept: &Streams, caller: SaeNo, opened: &Opened) -> bool
    ensures { (v : View) → Sees v kept.now → result ≡ is_joined_peer v caller opened.now }
{
    let has_joined = kept.has_joined(opened.stream);
    caller == opened.peer && has_joined
}

// Whether the caller is the source, or is the peer and has joined.
fn takes_part(kept: &Streams, caller: SaeNo, opened: &Opened) -> bool
    ensures { (v : View) → Sees v kept.now → result ≡ takes_part v caller opened.now }
{
    caller == opened.source || is_joined_peer(kept, caller, opened)
}

// Whether the chunks of a stream have this size in bits.
fn has_bits(opened: &Opened, bits: u16) -> bool
    ensures { result ≡ (8 * opened.now.octets == bits) }
{
    8 * opened.octets as u32 == bits as u32
}

// Whether the caller is the peer, names the source, and is at home at this node.
fn may_join(site: &Site, kept: &Streams, caller: SaeNo, other: SaeNo, opened: &Opened) -> bool
    ensures { (v : View) → Sees v kept.now → result ≡ may_join (site_of site.now) v caller other opened.now }
{
    let named = caller == opened.peer && other == opened.source;
    named && is_home(site, kept, opened.peer)
}

// Joins a stream that is open at this node.
fn joins(
    alloc: Global,
    site: &Site,
    kept: &Streams,
    caller: SaeNo,
    other: SaeNo,
    bits: u16,
    opened: &Opened,
) -> Result<Step, Reply>
    ensures { (v : View) → Sees v kept.now → IsPromptStep v (joins (site_of site.now) v caller other bits (Some (opening opened.now))) result }
{
    if takes_part(kept, caller, opened) {
        return answer(alloc, 5);
    }
    if !may_join(site, kept, caller, other, opened) {
        return answer(alloc, 8);
    }
    if !has_bits(opened, bits) {
        return answer(alloc, 7);
    }
    match fresh_name(kept, NameKind::Note, 0) {
        None => Err(Reply::Memory),
        Some(note) => make(
            alloc,
            Record::Learned {
                fact: Fact::Joined {
                    note,
                    about: opened.stream,
                    route: opened.route.reversed(),
                },
            },
            Reply::Stream {
                status: 0,
                stream: Some(opened.stream),
                index: 0,
                bytes: Octets::new(alloc),
            },
        ),
    }
}

/// Joins a stream at its peer (ETSI GS QKD 004, OPEN_CONNECT). A note that tells the source goes back along the
/// stream's route. The first status that applies is answered:
/// - 9: this node has no open end of such a stream;
/// - 5: the caller is its source, or has joined it;
/// - 8: the caller isn't its peer, names another source, or isn't at home here;
/// - 7: its chunks have another size;
/// - 0: the stream is joined.
pub fn join_stream(
    alloc: Global,
    site: &Site,
    kept: &Streams,
    caller: SaeNo,
    other: SaeNo,
    stream: KeyName,
    bits: u16,
) -> Result<Step, Reply>
    ensures { (v : View) → Sees v kept.now → IsPromptStep v (join_stream (site_of site.now) v caller other stream bits) result }
{
    match stream_here(site, kept, stream) {
        None => answer(alloc, 9),
        Some(opened) => joins(alloc, site, kept, caller, other, bits, &opened),
    }
}
