// Making new chunks of a stream.
ghost use Rattle.std.specs.Prelude.{◌≡◌, ◌+◌, ◌<◌, ◌≤◌, ◌^◌, ℕ, Bool, nat_lt, [], IfOk, IfSome, take, Some};
ghost use Rattle.qkd_base.specs.declared.key_name.NameKind.TheVariants.{Key as KeyKind};
ghost use Rattle.net_model.specs.declared.fact.Fact.TheVariants.{Chunk};
ghost use Rattle.net_model.specs.declared.record.Record.TheVariants.{Learned};
ghost use Rattle.net_model.specs.View.{View};
ghost use Rattle.net_model.specs.Decision.{fresh_name};
ghost use Rattle.net_model.specs.Streams.{new_chunks, fed, fed_stream, feed};
ghost use Rattle.declared_site.specs.SiteOf.{IsDeclared, site_of};
ghost use Rattle.stream_core.specs.Kept.{Sees};
ghost use Rattle.kme_base.specs.Up.{AreUp};
ghost use Rattle.kme_base.specs.Steps.{IsStep};
ghost use Rattle.kme_streams.specs.Calls.{opening};

use crate::stream_steps::{fresh_name, me};
use declared_site::Site;
use kme_base::{Change, Step, home, route_between};
use kme_keys::{first_octets, octets_behind};
use net_model::{Fact, Record, Records, Reply};
use qkd_base::{Items, KeyName, Memory, NameKind, Octets, Route};
use std::alloc::Global;
use stream_core::{Opened, Streams};

// What all new chunks of a stream have in common, and the index of the first one.
#[derive(Clone, Copy, Debug)]
struct Series {
    stream: KeyName,
    route: Route,
    octets: u16,
    next: u32,
}

// The record of a new chunk, made of the first octets.
fn new_chunk(
    alloc: Global,
    kept: &Streams,
    series: &Series,
    random: &[u8],
    more: u16,
) -> Result<Record, Memory>
    requires { series.now.next + more < 2 ^ 32 }
    ensures { IfOk result (λ entry. (v : View) → Sees v kept.now →
        entry ≡ Learned (Chunk (fresh_name v KeyKind more) series.now.stream (series.now.next + more) series.now.route (take series.now.octets random.now))) }
{
    match fresh_name(kept, NameKind::Key, more) {
        None => Err(Memory),
        Some(name) => {
            let bytes = Octets::from_slice(alloc, first_octets(random, series.octets as usize))?;
            Ok(Record::Learned {
                fact: Fact::Chunk {
                    name,
                    stream: series.stream,
                    index: series.next + more as u32,
                    route: series.route,
                    bytes,
                },
            })
        }
    }
}

// The records of `count` new chunks, each made of the next octets.
fn new_chunks(
    alloc: Global,
    kept: &Streams,
    series: &Series,
    count: u16,
    random: &[u8],
) -> Result<Records, Memory>
    requires { series.now.next + count < 2 ^ 32 }
    ensures { IfOk result (λ batch. (v : View) → Sees v kept.now →
        batch ≡ new_chunks v series.now.stream series.now.route series.now.octets series.now.next random.now 0 count) }
{
    let mut batch = Items::new(alloc);
    let mut left = random;
    for more in 0..count {
        let entry = new_chunk(alloc, kept, series, left, more)?;
        batch.push(entry)?;
        left = octets_behind(left, series.octets as usize);
    }
    Ok(batch)
}

// Whether more than 4,096 chunks would wait for the source.
fn is_full(waiting: u64, count: u16) -> bool
    ensures { result ≡ nat_lt 4096 (waiting + count) }
{
    4096 < waiting || 4096 < waiting + count as u64
}

// The index of the first of `count` new chunks. `None` if the indexes don't suffice for all.
fn first_index(next: u64, count: u16) -> Option<u32>
    ensures { IfSome result (λ first. (first ≡ next) × (first + count < 2 ^ 32)) }
{
    if next <= u32::MAX as u64 - count as u64 {
        Some(next as u32)
    } else {
        None
    }
}

// The step that makes `count` chunks of a stream on a route, unless too many would wait for its source.
fn fed(
    alloc: Global,
    kept: &Streams,
    opened: &Opened,
    route: Route,
    count: u16,
    random: &[u8],
) -> Result<Step, Reply>
    ensures { (v : View) → Sees v kept.now → IsStep v [] (fed v opened.now.stream opened.now.source opened.now.octets count random.now (Some route)) result }
{
    let place = kept.feed_place(opened.stream, opened.source);
    if is_full(place.waiting, count) {
        return Err(Reply::PoolFull);
    }
    let Some(next) = first_index(place.next, count) else {
        return Err(Reply::Memory);
    };
    let Some(first) = fresh_name(kept, NameKind::Key, 0) else {
        return Err(Reply::Memory);
    };
    let series = Series {
        stream: opened.stream,
        route,
        octets: opened.octets,
        next,
    };
    match new_chunks(alloc, kept, &series, count, random) {
        Err(_) => Err(Reply::Memory),
        Ok(batch) => Ok(Step {
            batch,
            reply: Reply::MadeKeys { count, first },
            change: Change::Same,
        }),
    }
}

// Feeds a stream that is known at this node.
fn feed_open(
    alloc: Global,
    site: &Site,
    kept: &Streams,
    up: u32,
    opened: &Opened,
    count: u16,
    random: &[u8],
) -> Result<Step, Reply>
    requires { IsDeclared site.now }
    ensures { (v : View) (is_up : ℕ → Bool) → Sees v kept.now → AreUp up is_up → IsStep v [] (fed_stream (site_of site.now) is_up v count random.now (Some (opening opened.now))) result }
{
    if !kept.has_end(home(site, opened.source), opened.stream, opened.source) {
        return Err(Reply::UnknownStream);
    }
    match route_between(site, up, me(kept), home(site, opened.peer)) {
        None => Err(Reply::NoRoute),
        Some(route) => fed(alloc, kept, opened, route, count, random),
    }
}

/// Makes chunks of a stream from the next random octets, with the next indexes. Their route uses only links that are
/// up. Bit l of `up` says that link l is up. Refusals: `UnknownStream` if this node has no such stream with its
/// source's end, or if that end is closed; `NoRoute` if no route leads to the peer's home; `PoolFull` if more than
/// 4,096 chunks would wait for the source.
pub fn feed(
    alloc: Global,
    site: &Site,
    kept: &Streams,
    up: u32,
    stream: KeyName,
    count: u16,
    random: &[u8],
) -> Result<Step, Reply>
    requires { IsDeclared site.now }
    ensures { (v : View) (is_up : ℕ → Bool) → Sees v kept.now → AreUp up is_up → IsStep v [] (feed (site_of site.now) is_up v stream count random.now) result }
{
    match kept.opened(stream) {
        None => Err(Reply::UnknownStream),
        Some(opened) => feed_open(alloc, site, kept, up, &opened, count, random),
    }
}
