// The parameters in a request's body.
ghost use Rattle.std.specs.Prelude.{◌≡◌, ok_or};
ghost use Rattle.serde_json.specs.Find.{as_array};
ghost use Rattle.serde_json.specs.View.{view, items_view};
ghost use Rattle.qkd014_api.specs.Bodies.{IsObject, IsCause, number_in, size_in, has_none, is_blank, another, chosen, slaves_in, named, another_name, names_on, key_ids_in, name_told};
ghost use Rattle.qkd014_api.specs.declared.fault.CallFault.TheVariants as faults;
ghost use Rattle.qkd014_api.specs.Gives.{Gives};

use crate::fault::CallFault;
use crate::query::{key_number, key_size};
use key_uuid::from_uuid;
use qkd_base::{KeyName, NameKind, Names, NodeNo, SaeNo, Saes};
use sae_entitlements::Entitlements;
use serde_json::error::Category;
use serde_json::{Error, Value};
use std::alloc::Global;
use uuid::Uuid;

/// Parses a body that must be a JSON object.
pub(crate) fn object(alloc: Global, body: &[u8]) -> Result<Value, CallFault>
    ensures { IsObject body.now result }
{
    match Value::from_slice(alloc, body) {
        Ok(value) => {
            if value.is_object() {
                Ok(value)
            } else {
                Err(CallFault::BadBody)
            }
        }
        Err(error) => Err(unreadable(&error)),
    }
}

// Why a body was refused: it is no JSON, or memory ran out.
fn unreadable(error: &Error) -> CallFault
    ensures { IsCause error.now result }
{
    match error.classify() {
        Category::Memory => CallFault::Memory,
        Category::Io | Category::Syntax | Category::Data | Category::Eof => CallFault::BadBody,
    }
}

/// The number of keys that an object asks for: 1 to 128. Without the member it is 1.
pub(crate) fn number(object: &Value) -> Option<u16>
    ensures { result ≡ number_in (view object.now) }
{
    match object.get("number") {
        None => Some(1),
        Some(number) => key_number(number.as_u64()?),
    }
}

/// The size in bits that an object asks for: 64 to 4,096 in steps of 8. Without the member it is 256.
pub(crate) fn size(object: &Value) -> Option<u16>
    ensures { result ≡ size_in (view object.now) }
{
    match object.get("size") {
        None => Some(256),
        Some(size) => key_size(size.as_u64()?),
    }
}

/// Whether the object asks for no mandatory extension: the member is absent or an empty array.
pub(crate) fn asks_no_extension(object: &Value) -> bool
    ensures { result ≡ is_blank (view object.now) }
{
    match object.get("extension_mandatory") {
        None => true,
        Some(extensions) => is_empty(extensions),
    }
}

// Whether a value is an empty array.
fn is_empty(value: &Value) -> bool
    ensures { result ≡ has_none (as_array (view value.now)) }
{
    match value.as_array() {
        Some(items) => items.as_slice().is_empty(),
        None => false,
    }
}

/// The first slave, followed by the slaves that an object asks for in addition, at most 4.
pub(crate) fn slaves(
    alloc: Global,
    entitlements: &Entitlements,
    object: &Value,
    first: SaeNo,
) -> Result<Saes, CallFault>
    ensures { Gives (slaves_in entitlements.now first (view object.now)) result }
{
    let mut slaves = Saes::new(alloc);
    slaves.push(first)?;
    let Some(given) = object.get("additional_slave_SAE_IDs") else {
        return Ok(slaves);
    };
    let items = given.as_array().ok_or(CallFault::SlavesRefused)?;
    choose(entitlements, slaves, items.as_slice())
}

// The given slaves, followed by those of an array.
fn choose(entitlements: &Entitlements, first: Saes, items: &[Value]) -> Result<Saes, CallFault>
    ensures { Gives (ok_or (chosen entitlements.now first (items_view items.now)) faults.SlavesRefused) result }
{
    let mut slaves = first;
    for item in items {
        match another(entitlements, slaves.as_slice(), item) {
            Some(slave) => slaves.push(slave)?,
            None => return Err(CallFault::SlavesRefused),
        }
    }
    Ok(slaves)
}

// Reads one more slave.
fn another(entitlements: &Entitlements, slaves: &[SaeNo], item: &Value) -> Option<SaeNo>
    ensures { result ≡ another entitlements.now slaves.now (view item.now) }
{
    let id = item.as_str()?;
    let slave = entitlements.find(id)?;
    if slaves.len() > 4 || slaves.contains(&slave) {
        None
    } else {
        Some(slave)
    }
}

/// The 1 to 128 key names that an object asks for.
pub(crate) fn key_ids(alloc: Global, object: &Value) -> Result<Names, CallFault>
    ensures { Gives (key_ids_in (view object.now)) result }
{
    let names = Names::new(alloc);
    let given = object.get("key_IDs").ok_or(CallFault::BadKeyIds)?;
    let items = given.as_array().ok_or(CallFault::BadKeyIds)?;
    let names = listed(names, items.as_slice())?;
    if names.is_empty() {
        return Err(CallFault::BadKeyIds);
    }
    Ok(names)
}

// The given names, followed by those of an array.
fn listed(first: Names, items: &[Value]) -> Result<Names, CallFault>
    ensures { Gives (ok_or (names_on first (items_view items.now)) faults.BadKeyIds) result }
{
    let mut names = first;
    for item in items {
        match another_name(names.as_slice(), item) {
            Some(name) => names.push(name)?,
            None => return Err(CallFault::BadKeyIds),
        }
    }
    Ok(names)
}

// Reads one more name.
fn another_name(names: &[KeyName], item: &Value) -> Option<KeyName>
    ensures { result ≡ another_name names.now (view item.now) }
{
    let name = key_id(item)?;
    if names.len() < 128 { Some(name) } else { None }
}

// The name in one object of the array.
fn key_id(item: &Value) -> Option<KeyName>
    ensures { result ≡ named (view item.now) }
{
    let text = item.get("key_ID")?.as_str()?;
    name(text)
}

/// The key name that the text of a UUID spells. A UUID that spells no key name gives the first note of node 0, which is no
/// key's name.
pub(crate) fn name(text: &str) -> Option<KeyName>
    ensures { result ≡ name_told text.now }
{
    match Uuid::parse_str(text) {
        Ok(uuid) => match from_uuid(uuid) {
            Some(name) => Some(name),
            None => KeyName::new(NodeNo::new(0)?, NameKind::Note, 1),
        },
        Err(_) => None,
    }
}
