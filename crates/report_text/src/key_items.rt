// How the items about keys and about requests of applications and operators are written. Each call adds an item's words.
ghost use Rattle.std.specs.Prelude.{◌≡◌, ◌++◌, ◌∷◌, [], OnOk};
ghost use Rattle.std.specs.List.{flat_map};
ghost use Rattle.std.specs.Fmt.{decimal};
ghost use Rattle.hex.specs.Hex.{encode_lower};
ghost use lib.Chars.{codes};
ghost use Rattle.run_types.specs.Words.{words, name_text, node_text};
ghost use Rattle.run_types.specs.Texts.{refusal_text, key_words, shown_words};

use crate::refusal::refusal;
use crate::words::{bytes, hexadecimal, name, node, number, state, word};
use net_model::Held;
use qkd_base::{KeyName, Keys, Memory, NodeNo, Octets, Texts};
use run_types::Refusal;
use std::alloc::Global;

/// Keys or chunks were made: their count, and the name of the first one.
pub fn made(line: &mut Octets, count: u16, first: KeyName) -> Result<(), Memory>
    ensures { OnOk result (line.new ≡ line.old ++ 32 ∷ words (codes "made" ∷ decimal count ∷ name_text first ∷ [])) }
{
    word(line, b"made")?;
    number(line, u64::from(count))?;
    name(line, first)
}

// Adds a key and its bytes.
fn key(alloc: Global, line: &mut Octets, of: KeyName, octets: &[u8]) -> Result<(), Memory>
    ensures { OnOk result (line.new ≡ line.old ++ 32 ∷ name_text of ++ 32 ∷ encode_lower octets.now) }
{
    name(line, of)?;
    hexadecimal(alloc, line, octets)
}

/// Keys were handed out, with their bytes.
pub fn keys(alloc: Global, line: &mut Octets, keys: &Keys) -> Result<(), Memory>
    ensures { OnOk result (line.new ≡ line.old ++ 32 ∷ words (codes "keys" ∷ flat_map key_words keys.now)) }
{
    word(line, b"keys")?;
    for (of, octets) in keys.as_slice() {
        key(alloc, line, *of, octets.as_slice())?;
    }
    Ok(())
}

/// The number of keys that are ready.
pub fn ready(line: &mut Octets, count: u32) -> Result<(), Memory>
    ensures { OnOk result (line.new ≡ line.old ++ 32 ∷ words (codes "status" ∷ decimal count ∷ [])) }
{
    word(line, b"status")?;
    number(line, u64::from(count))
}

/// A node's manager answered an HTTP request with a status and a body.
pub fn http(
    line: &mut Octets,
    nodes: &Texts,
    of: NodeNo,
    status: u16,
    body: &[u8],
) -> Result<(), Memory>
    ensures { OnOk result (line.new ≡ line.old ++ 32 ∷ words (codes "http" ∷ node_text nodes.now of ∷ decimal status ∷ body.now ∷ [])) }
{
    word(line, b"http")?;
    node(line, nodes, of)?;
    number(line, u64::from(status))?;
    word(line, body)
}

// Adds a key's state at a node, and its bytes where the node knows the key.
fn standing(alloc: Global, line: &mut Octets, held: Held, octets: &[u8]) -> Result<(), Memory>
    ensures { OnOk result (line.new ≡ line.old ++ 32 ∷ words (shown_words held octets.now)) }
{
    state(line, held)?;
    match held {
        Held::Absent => Ok(()),
        Held::Given | Held::Ready | Held::Made | Held::Kept | Held::Relayed => {
            bytes(alloc, line, octets)
        }
    }
}

/// What a node shows of a key: its state there, and its bytes.
pub fn shown(
    alloc: Global,
    line: &mut Octets,
    nodes: &Texts,
    of: NodeNo,
    key: KeyName,
    held: Held,
    octets: &[u8],
) -> Result<(), Memory>
    ensures { OnOk result (line.new ≡ line.old ++ 32 ∷ words (codes "show" ∷ node_text nodes.now of ∷ name_text key ∷ shown_words held octets.now)) }
{
    word(line, b"show")?;
    node(line, nodes, of)?;
    name(line, key)?;
    standing(alloc, line, held, octets)
}

/// A node refused to show a key.
pub fn not_shown(
    alloc: Global,
    line: &mut Octets,
    nodes: &Texts,
    of: NodeNo,
    key: KeyName,
    why: Refusal,
) -> Result<(), Memory>
    ensures { OnOk result (line.new ≡ line.old ++ 32 ∷ words (codes "show" ∷ node_text nodes.now of ∷ name_text key ∷ refusal_text why ∷ [])) }
{
    word(line, b"show")?;
    node(line, nodes, of)?;
    name(line, key)?;
    refusal(alloc, line, why)
}
