use qkd_base::{Fields, Octets};

/// A request as it was sent (RFC 9112, section 2.1). Values of fields have no white space at their ends.
#[derive(Debug, Drop)]
pub struct HttpRequest {
    pub method: Octets,
    pub target: Octets,
    pub fields: Fields,
    pub body: Octets,
    /// Whether the connection closes after the response: the version is 1.0, or a field Connection says `close`.
    pub close: bool,
}
