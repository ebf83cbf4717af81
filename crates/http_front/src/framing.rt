// The length of a request's body, and whether the connection closes.
ghost use Rattle.std.specs.Prelude.{◌≡◌, codes};
ghost use Rattle.std.specs.Str.{bytes_eq};
ghost use Rattle.http_front.specs.Front.{framing_of, length_of_none, closes};

use crate::FrontRefusal;
use crate::fields::{count_named, decimal, has_value, only_value};
use qkd_base::Octets;

/// The most octets that a body may have.
pub const BODY_LIMIT: u64 = 65536;

/// How many octets the body after a head has (RFC 9112, section 6).
pub fn framing(method: &[u8], fields: &[(Octets, Octets)]) -> Result<usize, FrontRefusal>
    ensures { result ≡ framing_of method.now fields.now }
{
    if count_named(fields, b"transfer-encoding") > 0 {
        return Err(FrontRefusal::Chunked);
    }
    let Some(value) = only_value(fields, b"content-length") else {
        return unsized_body(method, count_named(fields, b"content-length"));
    };
    match decimal(value) {
        None => Err(FrontRefusal::BadLength),
        Some(length) if length <= BODY_LIMIT => Ok(length as usize),
        Some(_) => Err(FrontRefusal::BodyTooLong),
    }
}

// The length of the body where no field or several fields Content-Length are there: 0, or a refusal.
fn unsized_body(method: &[u8], count: usize) -> Result<usize, FrontRefusal>
    ensures { result ≡ length_of_none (bytes_eq method.now (codes "POST")) count }
{
    if count > 0 {
        Err(FrontRefusal::BadLength)
    } else if method == b"POST".as_slice() {
        Err(FrontRefusal::NoLength)
    } else {
        Ok(0)
    }
}

/// Whether the connection closes after the response (RFC 9112, section 9.3).
pub fn closes(minor: u8, fields: &[(Octets, Octets)]) -> bool
    ensures { result ≡ closes minor fields.now }
{
    minor == 0 || has_value(fields, b"connection", b"close")
}
