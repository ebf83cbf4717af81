// Responses as octets.
use super::note;
use http_front::{HttpResponse, response_bytes};
use qkd_base::{Memory, Octets};
use std::alloc::Global;

// A response with an empty object.
fn text(alloc: Global, status: u16, close: bool) -> Result<String, Memory> {
    let body = Octets::from_slice(alloc, b"{}")?;
    let response = HttpResponse {
        status,
        body,
        close,
    };
    let octets = match status {
        200 | 400 | 401 | 500 | 503 => response_bytes(alloc, &response)?,
        _ => Octets::new(alloc),
    };
    let text = String::from_utf8_lossy(alloc, octets.as_slice())?;
    Ok(text)
}

// Whether a connection closes, and what its field says then.
const CLOSES: &[(bool, &str)] = &[(false, "keep-alive"), (true, "close")];

// Statuses with their reasons.
const REASONS: &[(u16, &str)] = &[
    (200, "OK"),
    (400, "Bad Request"),
    (401, "Unauthorized"),
    (500, "Internal Server Error"),
    (503, "Service Unavailable"),
];

/// Notes the responses that are spelled otherwise.
pub(super) fn compare(alloc: Global, wrong: &mut String) -> Result<(), Memory> {
    for (status, reason) in REASONS {
        for (close, connection) in CLOSES {
            let want = format!(in alloc;
                "HTTP/1.1 {status} {reason}\r\nContent-Type: application/json\r\nContent-Length: 2\r\nConnection: {connection}\r\n\r\n{{}}"
            )?;
            let found = text(alloc, *status, *close)?;
            note(want.as_str(), found.as_str(), want.as_str(), wrong)?;
        }
    }
    Ok(())
}
