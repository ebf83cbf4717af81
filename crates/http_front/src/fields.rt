// Header fields by name, and decimal numbers in their values.
ghost use Rattle.std.specs.Prelude.{◌≡◌, ◌≤◌, length, slice_get, if◌then◌else◌, Some, None};
ghost use Rattle.std.specs.Option.{option_copied};
ghost use Rattle.std.specs.Str.{str_eq_ignore_ascii_case};
ghost use Rattle.http_front.specs.Fields.{values_of, only_of, has_value, decimal_of, digits_of};

use qkd_base::Octets;

// Whether two texts are equal up to ASCII case.
fn is_same(text: &[u8], other: &[u8]) -> bool
    ensures { result ≡ str_eq_ignore_ascii_case text.now other.now }
{
    text.eq_ignore_ascii_case(other)
}

// How many fields have this name, up to ASCII case.
pub(crate) fn count_named(fields: &[(Octets, Octets)], name: &[u8]) -> usize
    ensures { result ≡ length (values_of name.now fields.now) }
{
    let mut count = 0;
    for (field, _) in fields {
        if is_same(field.as_slice(), name) {
            count += 1;
        }
    }
    count
}

// The value of the first field of this name.
fn first_named<'a>(fields: &'a [(Octets, Octets)], name: &[u8]) -> Option<&'a [u8]>
    ensures { option_copied result ≡ slice_get (values_of name.now fields.now) 0 }
{
    for (field, value) in fields {
        if is_same(field.as_slice(), name) {
            return Some(value.as_slice());
        }
    }
    None
}

/// The value of the field of this name, if exactly one field has it. Names are compared without regard to ASCII case (RFC 9110,
/// section 5.1).
pub fn only_value<'a>(fields: &'a [(Octets, Octets)], name: &[u8]) -> Option<&'a [u8]>
    ensures { option_copied result ≡ only_of (values_of name.now fields.now) }
{
    if count_named(fields, name) == 1 {
        first_named(fields, name)
    } else {
        None
    }
}

// Whether some field of this name has this value. Name and value are compared without regard to ASCII case.
pub(crate) fn has_value(fields: &[(Octets, Octets)], name: &[u8], value: &[u8]) -> bool
    ensures { result ≡ has_value name.now value.now fields.now }
{
    fields.iter().any(|f| { is_same(f.0.as_slice(), name) && is_same(f.1.as_slice(), value) })
}

/// The number that 1 to 10 decimal digits spell, or `None`. Leading zeros are accepted.
#[tactic(auto, unfolding(crate::specs::Fields::decimal_of))]
pub fn decimal(octets: &[u8]) -> Option<u64>
    ensures { result ≡ decimal_of octets.now }
{
    if octets.is_empty() || octets.len() > 10 {
        return None;
    }
    digits(octets)
}

// The number that at most 10 digits spell.
fn digits(octets: &[u8]) -> Option<u64>
    requires { length octets.now ≤ 10 }
    ensures { result ≡ digits_of octets.now }
{
    let mut value = 0u64;
    for b in octets {
        if !b.is_ascii_digit() {
            return None;
        }
        value = 10 * value + u64::from(*b - b'0');
    }
    Some(value)
}
