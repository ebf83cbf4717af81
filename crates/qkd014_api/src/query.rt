// The parameters in a query.
ghost use Rattle.std.specs.Prelude.{◌≡◌, IfOk, length};
ghost use Rattle.std.specs.Cow.{cow_str_bytes};
ghost use Rattle.std.specs.Str.{bytes_eq};
ghost use Rattle.std.specs.String.{string_bytes};
ghost use Rattle.qkd014_api.specs.Queries.{values_in, text_of, one_of, number_given, size_given};
ghost use Rattle.qkd014_api.specs.Numbers.{number_at, size_at};

use form_urlencoded::{decode, raw_pairs};
use http_front::decimal;
use qkd_base::{Memory, Text};
use std::alloc::Global;

/// How often a parameter stands in a query, and its value if it stands there once.
#[derive(Debug, Drop)]
pub(crate) enum Given {
    Absent,
    Once(Text),
    Often,
}

/// Looks for a parameter in a query.
pub(crate) fn parameter(alloc: Global, query: &[u8], name: &str) -> Result<Given, Memory>
    ensures { IfOk result (λ g. g ≡ one_of (values_in name.now query.now)) }
{
    let mut found = Given::Absent;
    let mut pairs = raw_pairs(query);
    while let Some((key, value)) = pairs.next() {
        if stands_for(alloc, key, name)? {
            found = match found {
                Given::Absent => Given::Once(text(alloc, value)?),
                Given::Once(_) | Given::Often => Given::Often,
            };
        }
    }
    Ok(found)
}

// Whether encoded octets stand for a text.
#[tactic(auto, unfolding(crate::specs::Queries::text_of))]
fn stands_for(alloc: Global, octets: &[u8], text: &str) -> Result<bool, Memory>
    ensures { IfOk result (λ same. same ≡ bytes_eq (text_of octets.now) text.now) }
{
    let decoded = decode(alloc, octets)?;
    Ok(decoded.as_str() == text)
}

// Decodes octets to a text.
#[tactic(auto, unfolding(crate::specs::Queries::text_of))]
fn text(alloc: Global, octets: &[u8]) -> Result<Text, Memory>
    ensures { IfOk result (λ t. t ≡ text_of octets.now) }
{
    let decoded = decode(alloc, octets)?;
    let string = String::from_str(alloc, &decoded)?;
    Ok(Text::from_string(string))
}

/// The number of keys that a query asks for: 1 to 128. Without the parameter it is 1.
pub(crate) fn number(given: &Given) -> Option<u16>
    ensures { result ≡ number_given given.now }
{
    match given {
        Given::Absent => Some(1),
        Given::Once(text) => key_number(decimal(text.as_str().as_bytes())?),
        Given::Often => None,
    }
}

/// The size in bits that a query asks for: 64 to 4,096 in steps of 8. Without the parameter it is 256.
pub(crate) fn size(given: &Given) -> Option<u16>
    ensures { result ≡ size_given given.now }
{
    match given {
        Given::Absent => Some(256),
        Given::Once(text) => key_size(decimal(text.as_str().as_bytes())?),
        Given::Often => None,
    }
}

/// Accepts a number of keys from 1 to 128.
pub(crate) fn key_number(number: u64) -> Option<u16>
    ensures { result ≡ number_at number }
{
    if 1 <= number && number <= 128 {
        Some(number as u16)
    } else {
        None
    }
}

/// Accepts a size in bits from 64 to 4,096 in steps of 8.
pub(crate) fn key_size(size: u64) -> Option<u16>
    ensures { result ≡ size_at size }
{
    if 64 <= size && size <= 4096 && size % 8 == 0 {
        Some(size as u16)
    } else {
        None
    }
}
