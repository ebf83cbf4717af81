// What the items of keys, requests and streams tell.
ghost use Rattle.std.specs.Prelude.{◌≡◌, ◌∷◌, [], map, IfOk, OnOk};
ghost use lib.Chars.{codes};
ghost use Rattle.run_types.specs.Words.{state_text};
ghost use Rattle.serde_json.specs.View.{view};
ghost use Rattle.report_json.specs.Words.{says, counts, refusal_fields};
ghost use Rattle.report_json.specs.Members.{members_in};
ghost use Rattle.report_json.specs.Objects.{put_all, is_a, at_node, of_name, stream_fields, chunk_fields, answer_fields, key_object, keys_field, shown_fields, body_field};

use crate::object::Object;
use crate::refusal::refusal;
use crate::words::state_text;
use net_model::Held;
use qkd_base::{KeyName, Keys, Memory, NodeNo, Octets, Texts};
use run_types::{Chunk, Refusal, StreamAnswer};
use serde_json::Value;
use std::alloc::Global;
use std::str::from_utf8;

/// Keys or chunks were made: their count, and the name of the first one.
pub(crate) fn made(object: &mut Object, count: u16, first: KeyName) -> Result<(), Memory>
    ensures { OnOk result (members_in object.new ≡ put_all (members_in object.old) (is_a (codes "made") ∷ counts (codes "count") count ∷ of_name first ∷ [])) }
{
    object.is_a("made")?;
    object.counts("count", u64::from(count))?;
    object.of_name(first)
}

// A key with its bytes.
fn key_object(alloc: Global, key: &(KeyName, Octets)) -> Result<Value, Memory>
    ensures { IfOk result (λ value. view value ≡ key_object key.now) }
{
    let mut object = Object::new(alloc);
    object.of_name(key.0)?;
    object.has_bytes(key.1.as_slice())?;
    Ok(object.into_value())
}

// Keys with their bytes, in order.
fn key_objects(alloc: Global, keys: &[(KeyName, Octets)]) -> Result<Vec<Value>, Memory>
    ensures { IfOk result (λ values. map view values.items ≡ map key_object keys.now) }
{
    let mut values = Vec::with_capacity(alloc, keys.len())?;
    for key in keys {
        values.push(key_object(alloc, key)?)?;
    }
    Ok(values)
}

/// Keys were handed out, with their bytes.
pub(crate) fn keys(object: &mut Object, handed: &Keys) -> Result<(), Memory>
    ensures { OnOk result (members_in object.new ≡ put_all (members_in object.old) (is_a (codes "keys") ∷ keys_field handed.now ∷ [])) }
{
    object.is_a("keys")?;
    let values = key_objects(object.alloc, handed.as_slice())?;
    object.has("keys", Value::Array(values))
}

/// The number of keys that are ready.
pub(crate) fn ready(object: &mut Object, count: u32) -> Result<(), Memory>
    ensures { OnOk result (members_in object.new ≡ put_all (members_in object.old) (is_a (codes "status") ∷ counts (codes "count") count ∷ [])) }
{
    object.is_a("status")?;
    object.counts("count", u64::from(count))
}

// The body of a response: a text, or else octets.
fn body(object: &mut Object, body: &[u8]) -> Result<(), Memory>
    ensures { OnOk result (members_in object.new ≡ put_all (members_in object.old) (body_field body.now ∷ [])) }
{
    match from_utf8(body) {
        Ok(text) => object.says("body", text),
        Err(_) => object.spells("octets", body),
    }
}

/// A request was answered with a status and a body.
pub(crate) fn http(
    object: &mut Object,
    nodes: &Texts,
    node: NodeNo,
    status: u16,
    octets: &[u8],
) -> Result<(), Memory>
    ensures { OnOk result (members_in object.new ≡ put_all (members_in object.old) (is_a (codes "http") ∷ at_node nodes.now node ∷ counts (codes "status") status ∷ body_field octets.now ∷ [])) }
{
    object.is_a("http")?;
    object.at_node(nodes, node)?;
    object.counts("status", u64::from(status))?;
    body(object, octets)
}

// The word and the status of a call on streams.
fn answered(object: &mut Object, word: &str, status: u8) -> Result<(), Memory>
    ensures { OnOk result (members_in object.new ≡ put_all (members_in object.old) (is_a word.now ∷ counts (codes "status") status ∷ [])) }
{
    object.is_a(word)?;
    object.counts("status", u64::from(status))
}

// The name of the stream, if there is one.
fn stream(object: &mut Object, stream: Option<KeyName>) -> Result<(), Memory>
    ensures { OnOk result (members_in object.new ≡ put_all (members_in object.old) (stream_fields stream)) }
{
    match stream {
        Some(name) => object.of_name(name),
        None => Ok(()),
    }
}

// The chunk that is handed out, if there is one.
fn chunk(object: &mut Object, chunk: &Option<Chunk>) -> Result<(), Memory>
    ensures { OnOk result (members_in object.new ≡ put_all (members_in object.old) (chunk_fields chunk.now)) }
{
    match chunk {
        Some(chunk) => {
            object.counts("index", u64::from(chunk.index))?;
            object.has_bytes(chunk.bytes.as_slice())
        }
        None => Ok(()),
    }
}

/// A call on streams was answered.
pub(crate) fn answer(object: &mut Object, told: &StreamAnswer) -> Result<(), Memory>
    ensures { OnOk result (members_in object.new ≡ put_all (members_in object.old) (answer_fields told.now)) }
{
    match told {
        StreamAnswer::OpenConnect {
            status,
            stream: opened,
        } => {
            answered(object, "OPEN_CONNECT", *status)?;
            stream(object, *opened)
        }
        StreamAnswer::GetKey {
            status,
            chunk: handed,
        } => {
            answered(object, "GET_KEY", *status)?;
            chunk(object, handed)
        }
        StreamAnswer::Close { status } => answered(object, "CLOSE", *status),
    }
}

// A key, as a node is asked to show it.
fn asked(object: &mut Object, nodes: &Texts, node: NodeNo, name: KeyName) -> Result<(), Memory>
    ensures { OnOk result (members_in object.new ≡ put_all (members_in object.old) (is_a (codes "show") ∷ at_node nodes.now node ∷ of_name name ∷ [])) }
{
    object.is_a("show")?;
    object.at_node(nodes, node)?;
    object.of_name(name)
}

// The bytes of a key, where the node knows the key.
fn shown_bytes(object: &mut Object, held: Held, bytes: &[u8]) -> Result<(), Memory>
    ensures { OnOk result (members_in object.new ≡ put_all (members_in object.old) (shown_fields held bytes.now)) }
{
    match held {
        Held::Absent => Ok(()),
        Held::Given | Held::Ready | Held::Made | Held::Kept | Held::Relayed => {
            object.has_bytes(bytes)
        }
    }
}

/// What a node shows of a key: its state there, and its bytes.
pub(crate) fn shown(
    object: &mut Object,
    nodes: &Texts,
    node: NodeNo,
    name: KeyName,
    held: Held,
    bytes: &[u8],
) -> Result<(), Memory>
    ensures { OnOk result (members_in object.new ≡ put_all (members_in object.old) (is_a (codes "show") ∷ at_node nodes.now node ∷ of_name name ∷ says (codes "state") (state_text held) ∷ shown_fields held bytes.now)) }
{
    asked(object, nodes, node, name)?;
    object.says("state", state_text(held))?;
    shown_bytes(object, held, bytes)
}

/// A node refused to show a key.
pub(crate) fn not_shown(
    object: &mut Object,
    nodes: &Texts,
    node: NodeNo,
    name: KeyName,
    why: Refusal,
) -> Result<(), Memory>
    ensures { OnOk result (members_in object.new ≡ put_all (members_in object.old) (is_a (codes "show") ∷ at_node nodes.now node ∷ of_name name ∷ refusal_fields why)) }
{
    asked(object, nodes, node, name)?;
    refusal(object, why)
}
