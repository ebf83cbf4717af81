// All rows of a report, each read from its first word and the text behind it.
ghost use Rattle.std.specs.Prelude.{◌≡◌, ◌∷◌};
ghost use Rattle.report_grammar.specs.Words.{words_in};
ghost use Rattle.report_grammar.specs.Gives.{Gives};
ghost use Rattle.report_grammar.specs.Rows.{on_lane_at, lane_row_at, is_of_lane, start_row_at, plain_at, item_at};

use crate::LineRefusal;
use crate::fields::{lane, long};
use crate::frame_rows::{
    bits, flipped, forged, idle, ledger, link_set, passed, sent, short, tick, unsent,
};
use crate::key_rows::{closed, connected, got, http, keys, made, ready, show};
use crate::refusals::refusal;
use crate::words::{one, word};
use qkd_base::{Lane, Texts};
use run_types::{Item, StartResult};
use std::alloc::Global;

#[tactic(auto, unfolding(crate::specs::Rows::on_lane_at))]
fn on_lane(lane: Lane, word: &[u8], rest: &[u8]) -> Option<Item>
    ensures { result ≡ on_lane_at lane word.now (words_in rest.now) }
{
    if word == b"short".as_slice() {
        short(lane, rest)
    } else if word == b"sent".as_slice() {
        sent(lane, rest)
    } else if word == b"unsent".as_slice() {
        unsent(lane, rest)
    } else if word == b"pass".as_slice() {
        passed(lane, rest)
    } else if word == b"flip".as_slice() {
        flipped(lane, rest)
    } else if word == b"forge".as_slice() {
        forged(lane, rest)
    } else {
        ledger(lane, rest)
    }
}

// The rows of a lane: `WORD LINK WAY ..`
#[tactic(auto, unfolding(crate::specs::Rows::lane_row_at))]
fn lane_row(first: &[u8], rest: &[u8]) -> Option<Item>
    ensures { result ≡ lane_row_at first.now (words_in rest.now) }
{
    let (link_word, rest) = word(rest)?;
    let (way_word, rest) = word(rest)?;
    let lane = lane(link_word, way_word)?;
    on_lane(lane, first, rest)
}

// Whether a row that begins with this word is about a lane.
fn is_of_lane(word: &[u8]) -> bool
    ensures { result ≡ is_of_lane word.now }
{
    word == b"short".as_slice()
        || word == b"sent".as_slice()
        || word == b"unsent".as_slice()
        || word == b"pass".as_slice()
        || word == b"flip".as_slice()
        || word == b"forge".as_slice()
        || word == b"ledger".as_slice()
}

// The result of a start, or else a refusal that is the whole text.
#[tactic(auto, unfolding(crate::specs::Rows::start_row_at))]
fn start_row(first: &[u8], rest: &[u8], text: &[u8]) -> Option<Item>
    ensures { result ≡ start_row_at first.now (words_in rest.now) (words_in text.now) }
{
    if first == b"started".as_slice() {
        Some(Item::Start(StartResult::Started))
    } else if first == b"up".as_slice() {
        Some(Item::Start(StartResult::WasUp))
    } else if first == b"foreign".as_slice() {
        let place_word = one(rest)?;
        let place = long(place_word)?;
        Some(Item::Start(StartResult::Foreign { place }))
    } else {
        let refusal = refusal(text)?;
        Some(Item::Refused(refusal))
    }
}

// An item that owns no octets.
#[tactic(auto, unfolding(crate::specs::Rows::plain_at))]
fn plain(nodes: &Texts, first: &[u8], rest: &[u8], text: &[u8]) -> Option<Item>
    ensures { result ≡ plain_at nodes.now first.now (words_in rest.now) (words_in text.now) }
{
    if is_of_lane(first) {
        lane_row(first, rest)
    } else if first == b"bits".as_slice() {
        bits(rest)
    } else if first == b"made".as_slice() {
        made(rest)
    } else if first == b"tick".as_slice() {
        tick(nodes, rest)
    } else if first == b"idle".as_slice() {
        idle(nodes, rest)
    } else if first == b"link".as_slice() {
        link_set(rest)
    } else if first == b"status".as_slice() {
        ready(rest)
    } else if first == b"OPEN_CONNECT".as_slice() {
        connected(rest)
    } else if first == b"CLOSE".as_slice() {
        closed(rest)
    } else if first == b"crashed".as_slice() {
        Some(Item::Crashed)
    } else if first == b"armed".as_slice() {
        Some(Item::Armed)
    } else {
        start_row(first, rest, text)
    }
}

// The item, or the error that no row has this text.
fn given(item: Option<Item>) -> Result<Item, LineRefusal>
    ensures { Gives item result }
{
    match item {
        Some(item) => Ok(item),
        None => Err(LineRefusal::NotALine),
    }
}

/// The item that a text is read as. Errors: no row has this text, or memory runs out.
#[tactic(auto, unfolding(crate::specs::Rows::item_at))]
pub fn item(alloc: Global, nodes: &Texts, text: &[u8]) -> Result<Item, LineRefusal>
    ensures { Gives (item_at nodes.now (words_in text.now)) result }
{
    let (first, rest) = word(text).ok_or(LineRefusal::NotALine)?;
    if first == b"keys".as_slice() {
        keys(alloc, rest)
    } else if first == b"http".as_slice() {
        http(alloc, nodes, rest)
    } else if first == b"GET_KEY".as_slice() {
        got(alloc, rest)
    } else if first == b"show".as_slice() {
        show(alloc, nodes, rest)
    } else {
        given(plain(nodes, first, rest, text))
    }
}
