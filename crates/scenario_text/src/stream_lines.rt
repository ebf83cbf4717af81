// The calls on streams.
ghost use Rattle.std.specs.Prelude.{◌≡◌};
ghost use Rattle.scenario_text.specs.Words.{words_of};
ghost use Rattle.scenario_text.specs.Calling.{open_at, get_at, close_at, call_at, stream_at};

use crate::fields::{node, sae, stream};
use crate::words::{four, number, number_in, three, two, word};
use declared_site::Site;
use run_types::{Command, StreamCall};

#[tactic(auto, unfolding(crate::specs::Calling::open_at))]
fn open_call(site: &Site, rest: &[u8]) -> Option<StreamCall>
    ensures { result ≡ open_at site.now (words_of rest.now) }
{
    let (caller_word, other_word, stream_word, bits_word) = four(rest)?;
    let caller = sae(site, caller_word)?;
    let other = sae(site, other_word)?;
    let bits = number_in(0, 65535, bits_word)? as u16;
    if stream_word == b"-".as_slice() {
        return Some(StreamCall::Open {
            source: caller,
            peer: other,
            bits,
        });
    }
    let stream = stream(stream_word)?;
    Some(StreamCall::Join {
        caller,
        source: other,
        stream,
        bits,
    })
}

#[tactic(auto, unfolding(crate::specs::Calling::get_at))]
fn get_call(site: &Site, rest: &[u8]) -> Option<StreamCall>
    ensures { result ≡ get_at site.now (words_of rest.now) }
{
    let (caller_word, stream_word, index_word) = three(rest)?;
    let caller = sae(site, caller_word)?;
    let stream = stream(stream_word)?;
    let index = number(index_word)?;
    Some(StreamCall::Get {
        caller,
        stream,
        index,
    })
}

#[tactic(auto, unfolding(crate::specs::Calling::close_at))]
fn close_call(site: &Site, rest: &[u8]) -> Option<StreamCall>
    ensures { result ≡ close_at site.now (words_of rest.now) }
{
    let (caller_word, stream_word) = two(rest)?;
    let caller = sae(site, caller_word)?;
    let stream = stream(stream_word)?;
    Some(StreamCall::Close { caller, stream })
}

/// The call that begins with this word (ETSI GS QKD 004 V2.1.1, clause 6), from the words after it.
#[tactic(auto, unfolding(crate::specs::Calling::call_at))]
pub fn call(site: &Site, first: &[u8], rest: &[u8]) -> Option<StreamCall>
    ensures { result ≡ call_at site.now first.now (words_of rest.now) }
{
    if first == b"OPEN_CONNECT".as_slice() {
        open_call(site, rest)
    } else if first == b"GET_KEY".as_slice() {
        get_call(site, rest)
    } else if first == b"CLOSE".as_slice() {
        close_call(site, rest)
    } else {
        None
    }
}

// What a `q004` line asks for, from the words after its first one.
#[tactic(auto, unfolding(crate::specs::Calling::stream_at))]
pub fn stream_line(site: &Site, rest: &[u8]) -> Option<Command>
    ensures { result ≡ stream_at site.now (words_of rest.now) }
{
    let (node_word, rest) = word(rest)?;
    let (first, rest) = word(rest)?;
    let node = node(site, node_word)?;
    let call = call(site, first, rest)?;
    Some(Command::Stream { node, call })
}
