// Encoding responses.
ghost use Rattle.std.specs.Prelude.{◌≡◌, ◌++◌, [], IfOk, OnOk, IsTrue};
ghost use Rattle.std.specs.Fmt.{decimal};
ghost use Rattle.http_front.specs.Response.{has_reason, reason_text, status_text, response_text, connection_text};

use itoa::Buffer;
use qkd_base::{Memory, Octets};
use std::alloc::Global;

// The most octets before a body: 34 of the status line, 76 of the fields, and the 20 digits of a length.
const HEAD_ROOM: usize = 130;

/// A response: its status, a JSON text as its body, and whether the connection closes after it.
#[derive(Debug, Drop)]
pub struct HttpResponse {
    pub status: u16,
    pub body: Octets,
    pub close: bool,
}

/// Encodes a response (RFC 9112, section 4). The status must be one that this server sends.
pub fn response_bytes(alloc: Global, response: &HttpResponse) -> Result<Octets, Memory>
    requires { IsTrue (has_reason response.now.status) }
    ensures { IfOk result (λ octets. octets ≡ response_text response.now) }
{
    let room = response.body.len().saturating_add(HEAD_ROOM);
    let mut octets = Octets::from_vec(Vec::with_capacity(alloc, room)?);
    status_line(response.status, &mut octets)?;
    octets.extend(b"Content-Type: application/json\r\nContent-Length: ")?;
    number(response.body.len() as u64, &mut octets)?;
    octets.extend(b"\r\nConnection: ")?;
    octets.extend(connection(response.close).as_bytes())?;
    octets.extend(b"\r\n\r\n")?;
    octets.extend(response.body.as_slice())?;
    Ok(octets)
}

// Writes the status line.
#[tactic(auto, unfolding(crate::specs::Response::status_text))]
fn status_line(status: u16, octets: &mut Octets) -> Result<(), Memory>
    requires { octets.old ≡ [] }
    ensures { OnOk result (octets.new ≡ status_text status) }
{
    octets.extend(b"HTTP/1.1 ")?;
    number(u64::from(status), octets)?;
    octets.extend(b" ")?;
    octets.extend(reason(status).as_bytes())?;
    octets.extend(b"\r\n")?;
    Ok(())
}

// Appends a number in decimal digits.
fn number(value: u64, octets: &mut Octets) -> Result<(), Memory>
    ensures { OnOk result (octets.new ≡ octets.old ++ decimal value) }
{
    let mut digits = Buffer::new();
    octets.extend(digits.format(value).as_bytes())
}

// The value of the field Connection.
fn connection(close: bool) -> &'static str
    ensures { result.now ≡ connection_text close }
{
    if close { "close" } else { "keep-alive" }
}

// The reason phrase of a status (RFC 9110, section 15).
fn reason(status: u16) -> &'static str
    ensures { result.now ≡ reason_text status }
{
    match status {
        200 => "OK",
        400 => "Bad Request",
        401 => "Unauthorized",
        500 => "Internal Server Error",
        _ => "Service Unavailable",
    }
}
