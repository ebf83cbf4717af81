// Responses that carry an error message.
ghost use Rattle.std.specs.Prelude.{◌≡◌, ◌++◌, IfOk, codes};
ghost use Rattle.std.specs.Option.{option_map};
ghost use Rattle.std.specs.Fmt.{decimal};
ghost use Rattle.qkd014_api.specs.Texts.{error_response};
ghost use Rattle.qkd014_api.specs.Fronts.{front_message, IsFrontResponse};

use http_front::{FrontRefusal, HttpResponse};
use itoa::Buffer;
use qkd_base::{Memory, Octets};
use std::alloc::Global;

// The most octets of an error's body: 14 around the message, and 33 of the longest message.
const ERROR_ROOM: usize = 47;

/// The response to octets that begin no request, after which the connection closes. For a refusal without a response it returns
/// `Memory`, so that the connection ends.
pub fn front_response(alloc: Global, refusal: &FrontRefusal) -> Result<HttpResponse, Memory>
    ensures { IfOk result (IsFrontResponse (front_message refusal.now)) }
{
    match message(refusal) {
        Some(text) => error(alloc, 400, text, true),
        None => Err(Memory),
    }
}

// The message for a refusal, if there is one.
fn message(refusal: &FrontRefusal) -> Option<&'static str>
    ensures { option_map (λ text. text.now) result ≡ front_message refusal.now }
{
    match refusal {
        FrontRefusal::BadHead | FrontRefusal::TooManyHeaders => Some("bad request head"),
        FrontRefusal::HeadTooLong => Some("head too long"),
        FrontRefusal::Chunked => Some("transfer encoding refused"),
        FrontRefusal::NoLength => Some("length missing"),
        FrontRefusal::BadLength => Some("bad length"),
        FrontRefusal::BodyTooLong => Some("body too long"),
        FrontRefusal::EndOfInput => Some("input ended"),
        FrontRefusal::NoRequest | FrontRefusal::ReadFault | FrontRefusal::Memory => None,
    }
}

/// A response with an error message.
#[tactic(auto, unfolding(crate::specs::Texts::message_body))]
pub(crate) fn error(
    alloc: Global,
    status: u16,
    text: &str,
    close: bool,
) -> Result<HttpResponse, Memory>
    ensures { IfOk result (λ response. response ≡ error_response status text.now close) }
{
    let mut body = begun(alloc)?;
    body.extend(text.as_bytes())?;
    ended(body, status, close)
}

/// A response with an error message that contains a number.
#[tactic(auto, unfolding(crate::specs::Texts::message_body))]
pub(crate) fn numbered_error(
    alloc: Global,
    status: u16,
    front: &str,
    number: u32,
    back: &str,
    close: bool,
) -> Result<HttpResponse, Memory>
    ensures { IfOk result (λ response. response ≡ error_response status (front.now ++ decimal number ++ back.now) close) }
{
    let mut digits = Buffer::new();
    let mut body = begun(alloc)?;
    body.extend(front.as_bytes())?;
    body.extend(digits.format(number).as_bytes())?;
    body.extend(back.as_bytes())?;
    ended(body, status, close)
}

// The beginning of an error's body, up to its message.
fn begun(alloc: Global) -> Result<Octets, Memory>
    ensures { IfOk result (λ body. body ≡ codes "{\"message\":\"") }
{
    let mut body = Octets::from_vec(Vec::with_capacity(alloc, ERROR_ROOM)?);
    body.extend(b"{\"message\":\"")?;
    Ok(body)
}

// Ends an error's body after its message, and makes the response.
fn ended(body: Octets, status: u16, close: bool) -> Result<HttpResponse, Memory>
    ensures { IfOk result (λ response. response ≡ record { status = status; body = body ++ codes "\"}"; close = close }) }
{
    let mut body = body;
    body.extend(b"\"}")?;
    Ok(HttpResponse {
        status,
        body,
        close,
    })
}
