// Reading the octets of a whole connection.
ghost use Rattle.std.specs.Prelude.{◌≡◌, ◌↔◌, Bool, true, take};
ghost use Rattle.std.specs.List.{list_all};
ghost use Rattle.httparse.specs.Grammar.{EndsInTarget, is_uri_byte};
ghost use Rattle.run_http.specs.Reading.{MayBeRead, cut_short};
ghost use Rattle.run_http.specs.LineEnds.{begins_lf, behind_line_ends, opens_target};

use edge_io::MemSource;
use http_front::{FrontRefusal, HttpRequest, read_request};
use httparse::{is_method_token, is_uri_token};
use qkd_base::Octets;
use std::alloc::Global;

// A head has at most `HEAD_LIMIT` octets. The first `FRONT` octets show whether it ends within this limit.
const HEAD_LIMIT: usize = 8192;

const FRONT: usize = 8193;

/// The request that the octets of a connection begin with, or why they begin with none.
pub(crate) fn request_in(alloc: Global, octets: Octets) -> Result<HttpRequest, FrontRefusal>
    ensures { MayBeRead octets result }
{
    if ends_in_target(front(octets.as_slice())) {
        return Err(cut_short(octets.as_slice()));
    }
    let mut kept = octets;
    let mut source = MemSource::new(Vec::new(alloc), Vec::new(alloc));
    read_request(alloc, &mut source, &mut kept)
}

// The first 8,193 octets: enough to see whether a head ends within its limit.
fn front(octets: &[u8]) -> &[u8]
    ensures { result.now ≡ take 8193 octets.now }
{
    &octets[..octets.len().min(FRONT)]
}

// Why octets that end inside a target are no request.
fn cut_short(octets: &[u8]) -> FrontRefusal
    ensures { result ≡ cut_short octets.now }
{
    if octets.len() > HEAD_LIMIT {
        FrontRefusal::HeadTooLong
    } else {
        FrontRefusal::EndOfInput
    }
}

// Whether a text ends inside a target.
fn ends_in_target(text: &[u8]) -> bool
    ensures { result ≡ true ↔ EndsInTarget text.now }
{
    opens_target(behind_line_ends(text))
}

// The text without the line ends that it begins with.
fn behind_line_ends(text: &[u8]) -> &[u8]
    ensures { result.now ≡ behind_line_ends text.now }
{
    for (i, b) in text.iter().enumerate() {
        let ends = *b == b'\n' || (*b == b'\r' && begins_lf(&text[i + 1..]));
        if !ends {
            return &text[i..];
        }
    }
    &[]
}

// Whether a text begins with LF.
fn begins_lf(text: &[u8]) -> bool
    ensures { result ≡ begins_lf text.now }
{
    match text.first() {
        Some(b) => *b == b'\n',
        None => false,
    }
}

// Whether a line is a method and a space, followed only by octets of a target.
fn opens_target(line: &[u8]) -> bool
    ensures { result ≡ opens_target Bool.false line.now }
{
    for (i, b) in line.iter().enumerate() {
        if !is_method_token(*b) {
            return i > 0 && *b == b' ' && is_target(&line[i + 1..]);
        }
    }
    false
}

// Whether each octet may stand in a target.
fn is_target(text: &[u8]) -> bool
    ensures { result ≡ list_all is_uri_byte text.now }
{
    text.iter().all(|b| is_uri_token(*b))
}
