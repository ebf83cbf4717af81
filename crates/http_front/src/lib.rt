//! The HTTP/1.1 front of a server (RFC 9112): it reads requests from a byte source, one after another, and encodes responses.
#![tactic(auto)]

mod fields;
mod framing;
mod head;
mod refusal;
mod request;
mod request_reader;
mod response;

pub use fields::{decimal, only_value};
pub use refusal::FrontRefusal;
pub use request::HttpRequest;
pub use request_reader::read_request;
pub use response::{HttpResponse, response_bytes};
