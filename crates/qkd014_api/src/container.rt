// Encoding key containers.
ghost use Rattle.std.specs.Prelude.{◌≡◌, ◌≤◌, ◌+◌, ◌*◌, ◌++◌, IfOk, length, false, true, vec_len, vec_capacity};
ghost use Rattle.std.specs.List.{list_all};
ghost use Rattle.uuid.specs.Text.{lower, hyphenated_text};
ghost use Rattle.base64.specs.GeneralPurpose.{encode_of};
ghost use Rattle.base64.specs.Engines.{standard};
ghost use Rattle.qkd_base.specs.Name.{octets_of};
ghost use Rattle.qkd014_api.specs.Texts.{comma_text, keys_body, key_text, keys_text};
ghost use Rattle.qkd014_api.specs.Ready.{is_short};

use base64::engine::general_purpose::STANDARD;
use key_uuid::to_uuid;
use qkd_base::{KeyName, Keys, Memory, Octets};
use std::alloc::Global;
use uuid::Uuid;

/// The octets of a container around its keys.
pub(crate) const BODY_FRAME: usize = 11;

/// The most octets of a key: 684 of its base64, 36 of its name, and 23 of punctuation and labels.
pub(crate) const KEY_ROOM: usize = 743;

/// Encodes the keys that are handed out (ETSI GS QKD 014 V1.1.1, Key container). Longer keys than can be asked for have no
/// memory.
pub(crate) fn keys_body(alloc: Global, keys: &Keys) -> Result<Octets, Memory>
    ensures { IfOk result (λ body. body ≡ keys_body keys.now) }
{
    if !are_short(keys.as_slice()) {
        return Err(Memory);
    }
    let room = keys.len().checked_mul(KEY_ROOM).ok_or(Memory)?;
    let room = room.checked_add(BODY_FRAME).ok_or(Memory)?;
    let mut body = Vec::with_capacity(alloc, room)?;
    put_keys_body(keys.as_slice(), &mut body);
    Ok(Octets::from_vec(body))
}

/// Whether no key is longer than can be asked for.
pub(crate) fn are_short(keys: &[(KeyName, Octets)]) -> bool
    ensures { result ≡ list_all is_short keys.now }
{
    keys.iter().all(|key| key.1.len() <= 512)
}

/// Encodes keys into memory that was taken before.
#[tactic(auto, unfolding(crate::specs::Texts::keys_body))]
pub(crate) fn put_keys_body(keys: &[(KeyName, Octets)], body: &mut Vec<u8>)
    requires empty { vec_len body.old ≡ 0 }
    requires short { list_all is_short keys.now ≡ true }
    requires room { 743 * length keys.now + 11 ≤ vec_capacity body.old }
    ensures body { body.new.items ≡ keys_body keys.now }
    ensures len { vec_len body.new ≤ 743 * length keys.now + 11 }
{
    put(b"{\"keys\":[", body);
    put_keys(keys, body);
    put(b"]}", body);
}

/// Appends octets into memory that was taken before.
pub(crate) fn put(octets: &[u8], text: &mut Vec<u8>)
    requires room { vec_len text.old + length octets.now ≤ vec_capacity text.old }
    ensures items { text.new.items ≡ text.old.items ++ octets.now }
    ensures len { vec_len text.new ≡ vec_len text.old + length octets.now }
    ensures capacity { vec_capacity text.old ≤ vec_capacity text.new }
{
    text.extend_from_slice(octets).unwrap();
}

// Appends all keys in order.
fn put_keys(keys: &[(KeyName, Octets)], body: &mut Vec<u8>)
    requires short { list_all is_short keys.now ≡ true }
    requires room { vec_len body.old + 743 * length keys.now ≤ vec_capacity body.old }
    ensures items { body.new.items ≡ body.old.items ++ keys_text false keys.now }
    ensures len { vec_len body.new ≤ vec_len body.old + 743 * length keys.now }
    ensures capacity { vec_capacity body.old ≤ vec_capacity body.new }
{
    for (place, key) in keys.iter().enumerate() {
        put_key(place > 0, key.0, key.1.as_slice(), body);
    }
}

// Appends one key, and before it a comma unless it is the first.
#[tactic(auto, unfolding(crate::specs::Texts::key_text))]
fn put_key(later: bool, name: KeyName, bytes: &[u8], body: &mut Vec<u8>)
    requires short { length bytes.now ≤ 512 }
    requires room { vec_len body.old + 743 ≤ vec_capacity body.old }
    ensures items { body.new.items ≡ body.old.items ++ (comma_text later ++ key_text name bytes.now) }
    ensures len { vec_len body.new ≤ vec_len body.old + 743 }
    ensures capacity { vec_capacity body.old ≤ vec_capacity body.new }
{
    put_comma(later, body);
    put(b"{\"key\":\"", body);
    put_encoded(bytes, body);
    put(b"\",\"key_ID\":\"", body);
    put_name(name, body);
    put(b"\"}", body);
}

// Appends what stands before a key: a comma, or nothing before the first one.
fn put_comma(later: bool, body: &mut Vec<u8>)
    requires room { vec_len body.old + 1 ≤ vec_capacity body.old }
    ensures items { body.new.items ≡ body.old.items ++ comma_text later }
    ensures len { vec_len body.new ≤ vec_len body.old + 1 }
    ensures capacity { vec_capacity body.old ≤ vec_capacity body.new }
{
    if later {
        put(b",", body);
    }
}

// Appends bytes in base64 (RFC 4648, section 4).
fn put_encoded(bytes: &[u8], body: &mut Vec<u8>)
    requires short { length bytes.now ≤ 512 }
    requires room { vec_len body.old + 684 ≤ vec_capacity body.old }
    ensures items { body.new.items ≡ body.old.items ++ encode_of standard bytes.now }
    ensures len { vec_len body.new ≤ vec_len body.old + 684 }
    ensures capacity { vec_capacity body.old ≤ vec_capacity body.new }
{
    let mut buffer = [0; 684];
    let Ok(size) = STANDARD.encode_slice(bytes, &mut buffer) else {
        unreachable!();
    };
    put(&buffer[..size], body);
}

// Appends a name as the text of its UUID.
fn put_name(name: KeyName, body: &mut Vec<u8>)
    requires room { vec_len body.old + 36 ≤ vec_capacity body.old }
    ensures items { body.new.items ≡ body.old.items ++ hyphenated_text lower (octets_of name) }
    ensures len { vec_len body.new ≤ vec_len body.old + 36 }
    ensures capacity { vec_capacity body.old ≤ vec_capacity body.new }
{
    let mut buffer = Uuid::encode_buffer();
    let uuid = to_uuid(name);
    let form = uuid.hyphenated();
    let text = form.encode_lower(&mut buffer);
    put(text.as_bytes(), body);
}
