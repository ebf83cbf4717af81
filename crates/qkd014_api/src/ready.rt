// The response to keys that are handed out, in memory that is taken before they are.
ghost use Rattle.std.specs.Prelude.{◌≡◌, ◌≤◌, ◌<◌, ◌+◌, ◌*◌, ◌++◌, ◌^◌, IfOk, OnErr, length, false, true, nat_le, vec_len, vec_capacity};
ghost use Rattle.std.specs.List.{list_all};
ghost use Rattle.http_front.specs.Response.{connection_text, response_text};
ghost use Rattle.qkd014_api.specs.Texts.{keys_body};
ghost use Rattle.qkd014_api.specs.Ready.{keys_asked, is_short, are_within};

use crate::container::{BODY_FRAME, KEY_ROOM, are_short, put, put_keys_body};
use itoa::Buffer;
use net_model::Event;
use qkd_base::{Keys, Memory, Octets};
use std::alloc::Global;

// The most octets before a body: 80 of the digits of a status and a length, as itoa tells them, and 90 of the rest.
const HEAD_ROOM: usize = 170;

/// Memory for the response to as many keys as an event asks for.
#[derive(Drop)]
pub struct Ready {
    /// The most keys that it is enough for.
    pub most: usize,
    body: Vec<u8>,
    text: Vec<u8>,
    ghost few: { most < 2 ^ 16 },
    ghost blank: { (vec_len body ≡ 0) × (vec_len text ≡ 0) },
    ghost body_room: { 743 * most + 11 ≤ vec_capacity body },
    ghost text_room: { 743 * most + 181 ≤ vec_capacity text },
}

impl Ready {
    /// Takes the memory, before the manager is asked.
    pub fn new(alloc: Global, event: &Event) -> Result<Self, Memory>
        ensures { IfOk result (λ ready. ready.most ≡ keys_asked event.now) }
    {
        let most = keys_asked(event);
        let room = KEY_ROOM * most + BODY_FRAME;
        let body = Vec::with_capacity(alloc, room)?;
        let text = Vec::with_capacity(alloc, room + HEAD_ROOM)?;
        Ok(Ready { most, body, text })
    }

    /// The text of the response to keys that are handed out. It takes no memory. Errors: there are more keys than were asked
    /// for, or longer ones than can be.
    pub fn into_text(self, keys: &Keys, close: bool) -> Result<Octets, Memory>
        ensures ok { IfOk result (λ text. text ≡ response_text (record { status = 200; body = keys_body keys.now; close = close })) }
        ensures err { OnErr result (are_within self.most keys.now ≡ false) }
    {
        if keys.len() > self.most || !are_short(keys.as_slice()) {
            return Err(Memory);
        }
        let Ready {
            most: _,
            mut body,
            mut text,
        } = self;
        put_keys_body(keys.as_slice(), &mut body);
        put_response(&body, close, &mut text);
        Ok(Octets::from_vec(text))
    }
}

// How many keys an event asks for, at most 128 by their names.
fn keys_asked(event: &Event) -> usize
    ensures asked { result ≡ keys_asked event.now }
    ensures few { result < 2 ^ 16 }
{
    match event {
        Event::Enc { number, .. } => usize::from(*number),
        Event::EncGroup { number, .. } => usize::from(*number),
        Event::Dec { names, .. } => names.len().min(128),
        _ => 0,
    }
}

// Encodes a response with keys (RFC 9112, section 4) into memory that was taken before.
#[tactic(auto, unfolding(http_front::specs::Response::status_text))]
fn put_response(body: &[u8], close: bool, text: &mut Vec<u8>)
    requires blank { vec_len text.old ≡ 0 }
    requires room { length body.now + 170 ≤ vec_capacity text.old }
    ensures { text.new.items ≡ response_text (record { status = 200; body = body.now; close = close }) }
{
    let mut digits = Buffer::new();
    put(b"HTTP/1.1 ", text);
    put(digits.format(200_u64).as_bytes(), text);
    put(b" ", text);
    put(b"OK", text);
    put(b"\r\n", text);
    put(b"Content-Type: application/json\r\nContent-Length: ", text);
    put(digits.format(body.len() as u64).as_bytes(), text);
    put(b"\r\nConnection: ", text);
    put(connection(close), text);
    put(b"\r\n\r\n", text);
    put(body, text);
}

// The value of the field Connection.
fn connection(close: bool) -> &'static [u8]
    ensures value { result.now ≡ connection_text close }
    ensures short { length result.now ≤ 10 }
{
    if close { b"close" } else { b"keep-alive" }
}
