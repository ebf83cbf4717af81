// The rows of keys, and of requests of applications and operators. Each call reads the text behind the words that its
// caller has read.
ghost use Rattle.std.specs.Prelude.{◌≡◌, []};
ghost use Rattle.report_grammar.specs.Words.{words_in};
ghost use Rattle.report_grammar.specs.Gives.{Gives};
ghost use Rattle.report_grammar.specs.Rows.{made_at, keys_after, keys_at, ready_at, http_at, stream_at, connected_at, chunk_of, chunk_at, got_at, closed_at, held_bytes, shown_at, show_at};
ghost use Rattle.run_types.specs.Words.{words};

use crate::LineRefusal;
use crate::fields::{byte, bytes, name, node, octets, short, state};
use crate::refusals::refusal;
use crate::words::{behind, is_over, one, two, word};
use net_model::Held;
use qkd_base::{KeyName, Keys, NodeNo, Octets, Texts};
use run_types::{Chunk, Item, StreamAnswer};
use scenario_text::words::number;
use std::alloc::Global;

/// `made COUNT FIRSTNAME`
#[tactic(auto, unfolding(crate::specs::Rows::made_at))]
pub fn made(rest: &[u8]) -> Option<Item>
    ensures { result ≡ made_at (words_in rest.now) }
{
    let (count_word, name_word) = two(rest)?;
    let count = short(count_word)?;
    let first = name(name_word)?;
    Some(Item::Made { count, first })
}

// `NAME HEX NAME HEX ..`
fn key_list(alloc: Global, rest: &[u8]) -> Result<Keys, LineRefusal>
    ensures { Gives (keys_after [] (words_in rest.now)) result }
{
    let mut keys = Keys::new(alloc);
    let mut left = rest;
    while let Some((name_word, behind_name)) = word(left) {
        let (hex, others) = word(behind_name).ok_or(LineRefusal::NotALine)?;
        let name = name(name_word).ok_or(LineRefusal::NotALine)?;
        let octets = octets(alloc, hex)?;
        keys.push((name, octets))?;
        left = others;
    }
    Ok(keys)
}

/// `keys NAME HEX NAME HEX ..`
#[tactic(auto, unfolding(crate::specs::Rows::keys_at))]
pub fn keys(alloc: Global, rest: &[u8]) -> Result<Item, LineRefusal>
    ensures { Gives (keys_at (words_in rest.now)) result }
{
    let keys = key_list(alloc, rest)?;
    Ok(Item::Keys(keys))
}

/// `status READY`
#[tactic(auto, unfolding(crate::specs::Rows::ready_at))]
pub fn ready(rest: &[u8]) -> Option<Item>
    ensures { result ≡ ready_at (words_in rest.now) }
{
    let count_word = one(rest)?;
    let count = number(count_word)?;
    Some(Item::Ready { count })
}

// The text behind its leading space. An empty text stays empty.
fn body(rest: &[u8]) -> &[u8]
    ensures { result.now ≡ words (words_in rest.now) }
{
    if rest.is_empty() {
        rest
    } else {
        behind(rest, 1)
    }
}

/// `http NAME STATUS BODY`
#[tactic(auto, unfolding(crate::specs::Rows::http_at))]
pub fn http(alloc: Global, nodes: &Texts, rest: &[u8]) -> Result<Item, LineRefusal>
    ensures { Gives (http_at nodes.now (words_in rest.now)) result }
{
    let (node_word, rest) = word(rest).ok_or(LineRefusal::NotALine)?;
    let (status_word, rest) = word(rest).ok_or(LineRefusal::NotALine)?;
    let node = node(nodes, node_word).ok_or(LineRefusal::NotALine)?;
    let status = short(status_word).ok_or(LineRefusal::NotALine)?;
    match Octets::from_slice(alloc, body(rest)) {
        Ok(body) => Ok(Item::Http { node, status, body }),
        Err(_) => Err(LineRefusal::Memory),
    }
}

fn stream(rest: &[u8]) -> Option<Option<KeyName>>
    ensures { result ≡ stream_at (words_in rest.now) }
{
    if is_over(rest) {
        Some(None)
    } else {
        let name_word = one(rest)?;
        let name = name(name_word)?;
        Some(Some(name))
    }
}

/// `OPEN_CONNECT STATUS` or `OPEN_CONNECT STATUS STREAM`
#[tactic(auto, unfolding(crate::specs::Rows::connected_at))]
pub fn connected(rest: &[u8]) -> Option<Item>
    ensures { result ≡ connected_at (words_in rest.now) }
{
    let (status_word, rest) = word(rest)?;
    let status = byte(status_word)?;
    let stream = stream(rest)?;
    Some(Item::Stream(StreamAnswer::OpenConnect { status, stream }))
}

#[tactic(auto, unfolding(crate::specs::Rows::chunk_of))]
fn chunk(alloc: Global, rest: &[u8]) -> Result<Chunk, LineRefusal>
    ensures { Gives (chunk_of (words_in rest.now)) result }
{
    let (index_word, hex) = two(rest).ok_or(LineRefusal::NotALine)?;
    let index = number(index_word).ok_or(LineRefusal::NotALine)?;
    let bytes = octets(alloc, hex)?;
    Ok(Chunk { index, bytes })
}

fn handed_chunk(alloc: Global, rest: &[u8]) -> Result<Option<Chunk>, LineRefusal>
    ensures { Gives (chunk_at (words_in rest.now)) result }
{
    if is_over(rest) {
        return Ok(None);
    }
    let chunk = chunk(alloc, rest)?;
    Ok(Some(chunk))
}

/// `GET_KEY STATUS` or `GET_KEY STATUS INDEX HEX`
#[tactic(auto, unfolding(crate::specs::Rows::got_at))]
pub fn got(alloc: Global, rest: &[u8]) -> Result<Item, LineRefusal>
    ensures { Gives (got_at (words_in rest.now)) result }
{
    let (status_word, rest) = word(rest).ok_or(LineRefusal::NotALine)?;
    let status = byte(status_word).ok_or(LineRefusal::NotALine)?;
    let chunk = handed_chunk(alloc, rest)?;
    Ok(Item::Stream(StreamAnswer::GetKey { status, chunk }))
}

/// `CLOSE STATUS`
#[tactic(auto, unfolding(crate::specs::Rows::closed_at))]
pub fn closed(rest: &[u8]) -> Option<Item>
    ensures { result ≡ closed_at (words_in rest.now) }
{
    let status_word = one(rest)?;
    let status = byte(status_word)?;
    Some(Item::Stream(StreamAnswer::Close { status }))
}

// The octets of a key in a given state. A key that is absent has none.
fn held_octets(alloc: Global, held: Held, rest: &[u8]) -> Result<Octets, LineRefusal>
    ensures { Gives (held_bytes held (words_in rest.now)) result }
{
    match held {
        Held::Absent => Ok(Octets::new(alloc)),
        Held::Given | Held::Ready | Held::Made | Held::Kept | Held::Relayed => match one(rest) {
            Some(word) => bytes(alloc, word),
            None => Err(LineRefusal::NotALine),
        },
    }
}

// What a node shows of a key, or why it doesn't.
#[tactic(auto, unfolding(crate::specs::Rows::shown_at))]
fn shown(alloc: Global, node: NodeNo, name: KeyName, text: &[u8]) -> Result<Item, LineRefusal>
    ensures { Gives (shown_at node name (words_in text.now)) result }
{
    let (first, rest) = word(text).ok_or(LineRefusal::NotALine)?;
    match state(first) {
        Some(held) => {
            let bytes = held_octets(alloc, held, rest)?;
            Ok(Item::Shown {
                node,
                name,
                held,
                bytes,
            })
        }
        None => match refusal(text) {
            Some(refusal) => Ok(Item::NotShown {
                node,
                name,
                refusal,
            }),
            None => Err(LineRefusal::NotALine),
        },
    }
}

/// `show NAME KEY absent`, `show NAME KEY STATE HEX` or `show NAME KEY REFUSAL`
#[tactic(auto, unfolding(crate::specs::Rows::show_at))]
pub fn show(alloc: Global, nodes: &Texts, rest: &[u8]) -> Result<Item, LineRefusal>
    ensures { Gives (show_at nodes.now (words_in rest.now)) result }
{
    let (node_word, rest) = word(rest).ok_or(LineRefusal::NotALine)?;
    let (name_word, rest) = word(rest).ok_or(LineRefusal::NotALine)?;
    let node = node(nodes, node_word).ok_or(LineRefusal::NotALine)?;
    let name = name(name_word).ok_or(LineRefusal::NotALine)?;
    shown(alloc, node, name, rest)
}
