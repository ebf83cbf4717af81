// The lines of stream calls, read as events.
ghost use Rattle.std.specs.Prelude.{◌≡◌, ◌≤◌, length};
ghost use Rattle.std.specs.Option.{option_map};
ghost use Rattle.scenario_text.specs.Words.{words_of};
ghost use Rattle.run_model.specs.Turn.{event_of};
ghost use Rattle.qkd004_wire.specs.Call.{call_in, fitting, place_behind, bad_place, Calls};

use crate::BadCall;
use crate::field::{Field, fields_of, fits};
use declared_site::Site;
use net_model::Event;
use run_types::StreamCall;
use scenario_text::call;
use scenario_text::words::{begins_blank, ends_blank, word};

/// The event by which a manager is asked for a call.
pub fn event_of(call: StreamCall) -> Event
    ensures { result ≡ event_of call }
{
    match call {
        StreamCall::Open { source, peer, bits } => Event::Open { source, peer, bits },
        StreamCall::Join {
            caller,
            source,
            stream,
            bits,
        } => Event::Join {
            caller,
            other: source,
            stream,
            bits,
        },
        StreamCall::Get {
            caller,
            stream,
            index,
        } => Event::Get {
            caller,
            stream,
            index,
        },
        StreamCall::Close { caller, stream } => Event::Close { caller, stream },
    }
}

// The call of a line, if the line is one.
#[tactic(auto, unfolding(crate::specs::Call::call_in))]
fn call_in(site: &Site, line: &[u8]) -> Option<StreamCall>
    ensures { result ≡ call_in site.now line.now }
{
    if begins_blank(line) || ends_blank(line) {
        return None;
    }
    let (first, rest) = word(line)?;
    call(site, first, rest)
}

// How many leading words fit their fields.
fn fitting(site: &Site, fields: &[Field], words: &[u8]) -> usize
    ensures count { result ≡ fitting site.now fields.now (words_of words.now) }
    ensures within { result ≤ length fields.now }
{
    let mut rest = words;
    for (count, field) in fields.iter().enumerate() {
        match word(rest) {
            Some((next, others)) => {
                if !fits(site, *field, next) {
                    return count;
                }
                rest = others;
            }
            None => return count,
        }
    }
    fields.len()
}

// The place at which a line is no call.
#[tactic(auto, unfolding(crate::specs::Call::bad_place))]
fn bad_place(site: &Site, line: &[u8]) -> usize
    ensures { result ≡ bad_place site.now line.now }
{
    if begins_blank(line) {
        return 0;
    }
    match word(line) {
        Some((first, rest)) => place_behind(site, fields_of(first), rest),
        None => 0,
    }
}

// The place behind a first word, if calls that begin with it have these fields.
fn place_behind(site: &Site, fields: &[Field], words: &[u8]) -> usize
    requires { length fields.now ≤ 4 }
    ensures { result ≡ place_behind site.now fields.now (words_of words.now) }
{
    if fields.is_empty() {
        0
    } else {
        1 + fitting(site, fields, words)
    }
}

/// Reads the line of a stream call as the event that it asks for (ETSI GS QKD 004 V2.1.1, clause 6). A line is
/// `OPEN_CONNECT ID ID - BITS` (source, peer), `OPEN_CONNECT ID ID STREAM BITS` (caller, source), `GET_KEY ID STREAM INDEX`
/// or `CLOSE ID STREAM`. Its applications are declared, spaces separate its words, and it has no end of line. A size that no
/// stream may have is no error here: the call is answered by a status. The call allocates nothing.
pub fn read_call(line: &[u8], site: &Site) -> Result<Event, BadCall>
    ensures { Calls site.now line.now result }
{
    match call_in(site, line) {
        Some(call) => Ok(event_of(call)),
        None => Err(BadCall {
            place: bad_place(site, line),
        }),
    }
}
