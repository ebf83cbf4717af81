use qkd_base::Memory;
use std::alloc::AllocError;
use std::error::Error;
use std::fmt;

/// Why no request was read. The cases are tried in this order, except that the last two may come at any time.
#[derive(Clone, Copy, Debug, PartialEq, Eq)]
pub enum FrontRefusal {
    /// The input ended before its first octet.
    NoRequest,
    /// No request's head can begin with these octets (RFC 9112, sections 2 to 5).
    BadHead,
    /// No head with at most 32 fields can begin with these octets.
    TooManyHeaders,
    /// No head ends within the first 8,192 octets.
    HeadTooLong,
    /// The request has a field Transfer-Encoding (RFC 9112, section 6.1).
    Chunked,
    /// A POST has no field Content-Length (RFC 9112, section 6.3).
    NoLength,
    /// The request has several fields Content-Length, or the value isn't 1 to 10 digits.
    BadLength,
    /// The body would have more than 65,536 octets.
    BodyTooLong,
    /// The input ended within a request.
    EndOfInput,
    /// The source failed.
    ReadFault,
    /// Out of memory.
    Memory,
}

impl From<Memory> for FrontRefusal {
    ghost use Rattle.http_front.specs.declared.refusal.FrontRefusal.TheVariants as refusals;
    ghost use Rattle.std.specs.Prelude.{◌≡◌};

    ghost from_gives = { λ _ e. e ≡ refusals.Memory };

    fn from(_: Memory) -> Self {
        FrontRefusal::Memory
    }
}

impl From<AllocError> for FrontRefusal {
    ghost use Rattle.http_front.specs.declared.refusal.FrontRefusal.TheVariants as refusals;
    ghost use Rattle.std.specs.Prelude.{◌≡◌};

    ghost from_gives = { λ _ e. e ≡ refusals.Memory };

    fn from(_: AllocError) -> Self {
        FrontRefusal::Memory
    }
}

impl fmt::Display for FrontRefusal {
    ghost use Rattle.std.specs.Prelude.{Some};
    ghost use Rattle.http_front.specs.Sayings.{said_of};

    ghost output = { λ r. Some (said_of r) };

    fn fmt<W: fmt::Write>(&self, f: &mut fmt::Formatter<W>) -> fmt::Result {
        match self {
            FrontRefusal::NoRequest => write!(f, "no request"),
            FrontRefusal::BadHead => write!(f, "bad request head"),
            FrontRefusal::TooManyHeaders => write!(f, "more than 32 header fields"),
            FrontRefusal::HeadTooLong => write!(f, "head too long"),
            FrontRefusal::Chunked => write!(f, "transfer encoding refused"),
            FrontRefusal::NoLength => write!(f, "length missing"),
            FrontRefusal::BadLength => write!(f, "bad length"),
            FrontRefusal::BodyTooLong => write!(f, "body too long"),
            FrontRefusal::EndOfInput => write!(f, "input ended"),
            FrontRefusal::ReadFault => write!(f, "read fault"),
            FrontRefusal::Memory => write!(f, "out of memory"),
        }
    }
}

impl Error for FrontRefusal {}
