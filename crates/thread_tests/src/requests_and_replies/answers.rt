// What is answered, as one line.
use http_front::HttpResponse;
use qkd_base::Memory;
use std::alloc::Global;

/// Notes what was found where it is not what is wanted.
pub(super) fn note(case: &str, found: &str, want: &str, wrong: &mut String) -> Result<(), Memory> {
    if found != want {
        wrong.push_str(case)?;
        wrong.push_str(": ")?;
        wrong.push_str(found)?;
        wrong.push('\n')?;
    }
    Ok(())
}

/// A status, a body, and whether the connection closes.
pub(super) fn response_text(alloc: Global, response: &HttpResponse) -> Result<String, Memory> {
    let body = String::from_utf8_lossy(alloc, response.body.as_slice())?;
    let close = if response.close { " close" } else { "" };
    let text = format!(in alloc; "{} {body}{close}", response.status)?;
    Ok(text)
}
