// Rule 16, as to texts: the bodies of responses.
ghost use Rattle.std.specs.Prelude.{◌≡◌};
ghost use Rattle.std.specs.List.{list_all};
ghost use Rattle.item_audit.specs.Responses.{is_framed, between, is_digit, has_number, is_of_head, is_of_request, is_told_of_key, is_again, is_of_key, is_of_manager, is_told_with, is_told_between, is_message, is_answer, is_response};

// Whether a text begins and ends so.
fn is_framed(head: &[u8], tail: &[u8], text: &[u8]) -> bool
    ensures { result ≡ is_framed head.now tail.now text.now }
{
    head.len() + tail.len() <= text.len()
        && &text[..head.len()] == head
        && &text[text.len() - tail.len()..] == tail
}

fn is_digit(octet: u8) -> bool
    ensures { result ≡ is_digit octet }
{
    48 <= octet && octet <= 57
}

// Whether all octets of a text are digits.
fn are_digits(text: &[u8]) -> bool
    ensures { result ≡ list_all is_digit text.now }
{
    text.iter().all(|octet| is_digit(*octet))
}

// Whether a text is a number in such a frame.
fn has_number(head: &[u8], tail: &[u8], text: &[u8]) -> bool
    ensures { result ≡ has_number head.now tail.now text.now }
{
    is_framed(head, tail, text)
        && head.len() + tail.len() < text.len()
        && are_digits(&text[head.len()..text.len() - tail.len()])
}

// Whether a message says that the request can't be read.
fn is_of_head(text: &[u8]) -> bool
    ensures { result ≡ is_of_head text.now }
{
    text == b"bad request head".as_slice()
        || text == b"head too long".as_slice()
        || text == b"transfer encoding refused".as_slice()
        || text == b"length missing".as_slice()
        || text == b"bad length".as_slice()
        || text == b"body too long".as_slice()
        || text == b"input ended".as_slice()
}

// Whether a message says that the request asks for something that there isn't.
fn is_of_request(text: &[u8]) -> bool
    ensures { result ≡ is_of_request text.now }
{
    text == b"unknown resource".as_slice()
        || text == b"bad body".as_slice()
        || text == b"bad number".as_slice()
        || text == b"bad size".as_slice()
        || text == b"additional_slave_SAE_IDs refused".as_slice()
        || text == b"extension_mandatory refused".as_slice()
        || text == b"bad key_ID".as_slice()
        || text == b"bad key_IDs".as_slice()
}

// Whether a message says such a thing of a key.
fn is_told_of_key(tail: &[u8], text: &[u8]) -> bool
    ensures { result ≡ is_told_of_key tail.now text.now }
{
    has_number(b"key ".as_slice(), tail, text)
}

// Whether a message says that a key was asked for, or handed out, before.
fn is_again(text: &[u8]) -> bool
    ensures { result ≡ is_again text.now }
{
    is_told_of_key(b" is repeated".as_slice(), text)
        || is_told_of_key(b" was handed already".as_slice(), text)
}

// Whether a message says that a key isn't there to be had.
fn is_of_key(text: &[u8]) -> bool
    ensures { result ≡ is_of_key text.now }
{
    is_told_of_key(b" is unknown".as_slice(), text) || is_again(text)
}

// Whether a message tells how the manager is, or how many keys.
fn is_of_manager(text: &[u8]) -> bool
    ensures { result ≡ is_of_manager text.now }
{
    text == b"manager down".as_slice()
        || text == b"manager stopped".as_slice()
        || text == b"journal full".as_slice()
        || has_number(b"".as_slice(), b" keys ready".as_slice(), text)
}

// Whether a status comes with such a message.
fn is_told_with(status: u16, text: &[u8]) -> bool
    ensures { result ≡ is_told_with status text.now }
{
    if status == 400 {
        is_of_head(text) || is_of_request(text) || is_of_key(text)
    } else if status == 401 {
        text == b"X-SAE-ID missing".as_slice() || text == b"not allowed".as_slice()
    } else if status == 500 {
        text == b"out of memory".as_slice()
    } else if status == 503 {
        is_of_manager(text)
    } else {
        false
    }
}

// Whether what stands between such a head and tail is a message that comes with the status.
fn is_told_between(status: u16, head: &[u8], tail: &[u8], body: &[u8]) -> bool
    ensures { result ≡ is_told_between status head.now tail.now body.now }
{
    is_framed(head, tail, body) && is_told_with(status, &body[head.len()..body.len() - tail.len()])
}

// Whether a body is a message that comes with the status.
fn is_message(status: u16, body: &[u8]) -> bool
    ensures { result ≡ is_message status body.now }
{
    is_told_between(
        status,
        b"{\"message\":\"".as_slice(),
        b"\"}".as_slice(),
        body,
    )
}

// Whether a body may hold keys, or the numbers of a pair's keys.
fn is_answer(body: &[u8]) -> bool
    ensures { result ≡ is_answer body.now }
{
    is_framed(
        b"{\"keys\":[{\"key\":\"".as_slice(),
        b"\"}]}".as_slice(),
        body,
    ) || is_framed(
        b"{\"key_size\":256,\"master_SAE_ID\":\"".as_slice(),
        b"\"}".as_slice(),
        body,
    )
}

/// Whether a response of this status may have the body.
pub fn is_response(status: u16, body: &[u8]) -> bool
    ensures { result ≡ is_response status body.now }
{
    if status == 200 {
        is_answer(body)
    } else {
        is_message(status, body)
    }
}
