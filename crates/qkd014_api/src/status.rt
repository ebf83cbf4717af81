// The status of a pool: the keys that are ready for a master and a slave.
ghost use Rattle.std.specs.Prelude.{◌≡◌, ◌++◌, IfOk, OnOk};
ghost use Rattle.std.specs.String.{string_bytes};
ghost use Rattle.qkd014_api.specs.Texts.{quoted_text, master_label, slave_label, source_label, count_label, target_label, status_body};

use itoa::Buffer;
use qkd_base::{Memory, Octets};
use serde_json::Value;
use std::alloc::Global;

// The memory for a body: 219 octets of labels and a number, and four quoted names of at most 64 octets.
const STATUS_ROOM: usize = 483;

/// What a status tells: the master and the slave with their nodes, and how many keys of 256 bits are ready.
#[derive(Drop)]
pub(crate) struct Pool<'a> {
    pub master: &'a str,
    pub slave: &'a str,
    pub source: &'a str,
    pub target: &'a str,
    pub count: u32,
}

/// Encodes a status (ETSI GS QKD 014 V1.1.1, Status).
pub(crate) fn status_body(alloc: Global, pool: &Pool) -> Result<Octets, Memory>
    ensures { IfOk result (λ body. body ≡ status_body pool.now.master.now pool.now.slave.now pool.now.source.now pool.now.target.now pool.now.count) }
{
    let mut digits = Buffer::new();
    let mut body = Octets::from_vec(Vec::with_capacity(alloc, STATUS_ROOM)?);
    body.extend(master_label())?;
    body.extend(quoted(alloc, pool.master)?.as_bytes())?;
    body.extend(slave_label())?;
    body.extend(quoted(alloc, pool.slave)?.as_bytes())?;
    body.extend(source_label())?;
    body.extend(quoted(alloc, pool.source)?.as_bytes())?;
    body.extend(count_label())?;
    body.extend(digits.format(pool.count).as_bytes())?;
    body.extend(target_label())?;
    body.extend(quoted(alloc, pool.target)?.as_bytes())?;
    body.extend(b"}")?;
    Ok(body)
}

// A text as a JSON string (RFC 8259, section 7).
#[tactic(auto, unfolding(crate::specs::Texts::quoted_text))]
fn quoted(alloc: Global, text: &str) -> Result<String, Memory>
    ensures { IfOk result (λ json. string_bytes json ≡ quoted_text text.now) }
{
    let value = Value::String(String::from_str(alloc, text)?);
    let json = value.to_string(alloc)?;
    Ok(json)
}

// The label before each part of a status.

#[tactic(auto, unfolding(crate::specs::Texts::master_label))]
fn master_label() -> &'static [u8]
    ensures { result.now ≡ master_label }
{
    b"{\"key_size\":256,\"master_SAE_ID\":"
}

#[tactic(auto, unfolding(crate::specs::Texts::slave_label))]
fn slave_label() -> &'static [u8]
    ensures { result.now ≡ slave_label }
{
    b",\"max_SAE_ID_count\":4,\"max_key_count\":4096,\"max_key_per_request\":128,\"max_key_size\":4096,\"min_key_size\":64,\"slave_SAE_ID\":"
}

#[tactic(auto, unfolding(crate::specs::Texts::source_label))]
fn source_label() -> &'static [u8]
    ensures { result.now ≡ source_label }
{
    b",\"source_KME_ID\":"
}

#[tactic(auto, unfolding(crate::specs::Texts::count_label))]
fn count_label() -> &'static [u8]
    ensures { result.now ≡ count_label }
{
    b",\"stored_key_count\":"
}

#[tactic(auto, unfolding(crate::specs::Texts::target_label))]
fn target_label() -> &'static [u8]
    ensures { result.now ≡ target_label }
{
    b",\"target_KME_ID\":"
}
