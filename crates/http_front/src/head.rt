// Parsing the head of a request.
ghost use Rattle.std.specs.Prelude.{◌≡◌, ◌≤◌, length, map, All, IfOk, count_by, ◌==◌};
ghost use Rattle.httparse.specs.Spans.{IsWithin, IsHeaderWithin, header_bytes, span_bytes};
ghost use Rattle.http_front.specs.Lines.{after_blank, lines, ends_line, begins_field_33};
ghost use Rattle.http_front.specs.Reading.{IsLook};

use crate::FrontRefusal;
use httparse::spans::{EMPTY_HEADER_SPAN, HeaderSpan, RequestSpans, parse_request};
use httparse::{Error, Status};
use qkd_base::{Fields, Memory, Octets};
use std::alloc::Global;

/// The most octets that a head may have.
pub const HEAD_LIMIT: usize = 8192;

/// The parts of a head, and its length in octets.
#[derive(Drop)]
pub struct Head {
    pub method: Octets,
    pub target: Octets,
    pub minor: u8,
    pub fields: Fields,
    pub len: usize,
}

/// Parses the head at the front of a text. `None` means that the head isn't complete yet.
pub fn head_of(alloc: Global, text: &[u8]) -> Result<Option<Head>, FrontRefusal>
    requires { length text.now ≤ 8193 }
    ensures { IsLook text.now result }
{
    let mut headers = [EMPTY_HEADER_SPAN; 32];
    match parse_request(text, &mut headers) {
        Ok(Status::Complete(spans)) => {
            if spans.len > HEAD_LIMIT {
                return Ok(None);
            }
            let head = parts(alloc, text, &spans, &headers[..spans.headers])?;
            Ok(Some(head))
        }
        Ok(Status::Partial) => {
            if begins_field_33(text) {
                return Err(FrontRefusal::TooManyHeaders);
            }
            Ok(None)
        }
        Err(Error::TooManyHeaders) => Err(FrontRefusal::TooManyHeaders),
        Err(_) => Err(FrontRefusal::BadHead),
    }
}

// Copies the parts that the spans cover.
fn parts(
    alloc: Global,
    text: &[u8],
    spans: &RequestSpans,
    headers: &[HeaderSpan],
) -> Result<Head, Memory>
    requires method { IsWithin (length text.now) spans.now.method }
    requires path { IsWithin (length text.now) spans.now.path }
    requires headers { All (IsHeaderWithin (length text.now)) headers.now }
    ensures { IfOk result (λ head. head ≡ record {
      method = span_bytes text.now spans.now.method;
      target = span_bytes text.now spans.now.path;
      minor = spans.now.version;
      fields = map (header_bytes text.now) headers.now;
      len = spans.now.len;
    }) }
{
    let method = Octets::from_slice(alloc, spans.method.of(text))?;
    let target = Octets::from_slice(alloc, spans.path.of(text))?;
    let fields = fields(alloc, text, headers)?;
    Ok(Head {
        method,
        target,
        minor: spans.version,
        fields,
        len: spans.len,
    })
}

// Copies the fields that the spans cover.
fn fields(alloc: Global, text: &[u8], headers: &[HeaderSpan]) -> Result<Fields, Memory>
    requires { All (IsHeaderWithin (length text.now)) headers.now }
    ensures { IfOk result (λ fs. fs ≡ map (header_bytes text.now) headers.now) }
{
    let mut fields = Fields::from_vec(Vec::with_capacity(alloc, headers.len())?);
    for header in headers {
        let name = Octets::from_slice(alloc, header.name.of(text))?;
        let value = Octets::from_slice(alloc, header.value.of(text))?;
        fields.push((name, value))?;
    }
    Ok(fields)
}

// The text without the line ends at its front.
fn after_blank(text: &[u8]) -> &[u8]
    ensures { result.now ≡ after_blank text.now }
{
    for (i, b) in text.iter().enumerate() {
        if *b != b'\r' && *b != b'\n' {
            return &text[i..];
        }
    }
    &[]
}

// How many lines end in a text.
fn lines(text: &[u8]) -> usize
    ensures { result ≡ lines text.now }
{
    text.iter().filter(|b| **b == b'\n').count()
}

// Whether a text ends right after a line end, or after a line end and a CR.
fn ends_line(text: &[u8]) -> bool
    requires { 2 ≤ length text.now }
    ensures { result ≡ ends_line text.now }
{
    let last = text[text.len() - 1];
    last == b'\n' || (last == b'\r' && text[text.len() - 2] == b'\n')
}

// Whether a part of a head has more than a request line and 32 fields.
fn begins_field_33(text: &[u8]) -> bool
    ensures { result ≡ begins_field_33 text.now }
{
    let count = lines(after_blank(text));
    count > 33 || (count == 33 && !ends_line(text))
}
