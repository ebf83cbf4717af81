// The lines that answer stream calls.
ghost use Rattle.std.specs.Prelude.{◌≡◌, Some, None, IfOk, IsSome, is_some, if◌then◌else◌};
ghost use Rattle.std.specs.Option.{option_map};
ghost use Rattle.run_model.specs.Refusals.{refused_by};
ghost use Rattle.run_model.specs.Outcomes.{chunk_in, answer_to};
ghost use Rattle.qkd004_wire.specs.Answer.{call_of, told, answer_line};

use net_model::{Event, Reply};
use qkd_base::{Items, KeyName, Memory, Octets, Replica};
use report_text::item_text;
use run_types::{Chunk, Item, Refusal, StreamAnswer};
use std::alloc::Global;

/// The refusal by which a report words a reply, if the reply is a refusal.
pub fn refusal_of(reply: &Reply) -> Option<Refusal>
    ensures { result ≡ refused_by reply.now }
{
    match *reply {
        Reply::Down => Some(Refusal::Down),
        Reply::Stopped => Some(Refusal::Stopped),
        Reply::Memory => Some(Refusal::Memory),
        Reply::LinkFull => Some(Refusal::LinkFull),
        Reply::NotAllowed => Some(Refusal::NotAllowed),
        Reply::NoRoute => Some(Refusal::NoRoute),
        Reply::PoolFull => Some(Refusal::PoolFull),
        Reply::UnknownStream => Some(Refusal::UnknownStream),
        Reply::JournalFull { length, need } => Some(Refusal::JournalFull { length, need }),
        Reply::NoRandom => Some(Refusal::NoRandom),
        Reply::BadFrame { place } => Some(Refusal::BadFrame { place }),
        Reply::WrongLane { link, way } => Some(Refusal::WrongLane { link, way }),
        Reply::NoBits { have } => Some(Refusal::NoBits { have }),
        Reply::BadTag { given, computed } => Some(Refusal::BadTag { given, computed }),
        Reply::Few { count } => Some(Refusal::Few { count }),
        Reply::Unknown { place } => Some(Refusal::Unknown { place }),
        Reply::Repeated { place } => Some(Refusal::Repeated { place }),
        Reply::AlreadyHanded { place } => Some(Refusal::Handed { place }),
        _ => None,
    }
}

// The chunk at an index. Without bytes there is none.
fn chunk_in(index: u32, bytes: &Octets) -> Result<Option<Chunk>, Memory>
    ensures { IfOk result (λ chunk. chunk ≡ chunk_in index bytes.now) }
{
    if bytes.is_empty() {
        return Ok(None);
    }
    let bytes = bytes.copy()?;
    Ok(Some(Chunk { index, bytes }))
}

// The answer, with this status, to the call of an event. Other events have none.
fn answer_to(
    event: &Event,
    status: u8,
    stream: Option<KeyName>,
    index: u32,
    bytes: &Octets,
) -> Result<Option<StreamAnswer>, Memory>
    ensures { IfOk result (λ answer. answer ≡ option_map (λ call. answer_to call status stream index bytes.now) (call_of event.now)) }
{
    match event {
        Event::Open { .. } | Event::Join { .. } => {
            Ok(Some(StreamAnswer::OpenConnect { status, stream }))
        }
        Event::Get { .. } => {
            let chunk = chunk_in(index, bytes)?;
            Ok(Some(StreamAnswer::GetKey { status, chunk }))
        }
        Event::Close { .. } => Ok(Some(StreamAnswer::Close { status })),
        _ => Ok(None),
    }
}

// Whether an event is a stream call.
fn is_call(event: &Event) -> bool
    ensures { result ≡ is_some (call_of event.now) }
{
    matches!(
        event,
        Event::Open { .. } | Event::Join { .. } | Event::Get { .. } | Event::Close { .. }
    )
}

// The item that a report has for a call that is refused.
fn refused_call(event: &Event, reply: &Reply) -> Option<Item>
    ensures { result ≡ (if is_some (call_of event.now) then option_map Item.Refused (refused_by reply.now) else None) }
{
    if is_call(event) {
        match refusal_of(reply) {
            Some(refusal) => Some(Item::Refused(refusal)),
            None => None,
        }
    } else {
        None
    }
}

// The item that a report has for the reply to a call.
#[tactic(auto, unfolding(crate::specs::Answer::told))]
fn told(event: &Event, reply: &Reply) -> Result<Option<Item>, Memory>
    ensures { IfOk result (λ item. item ≡ told event.now reply.now) }
{
    match reply {
        Reply::Stream {
            status,
            stream,
            index,
            bytes,
        } => match answer_to(event, *status, *stream, *index, bytes)? {
            Some(answer) => Ok(Some(Item::Stream(answer))),
            None => Ok(None),
        },
        _ => Ok(refused_call(event, reply)),
    }
}

/// The line that answers a stream call, without its end. The event must be such a call, and the reply an answer to it or a
/// refusal that a report words. The only error is that memory runs out.
pub fn answer_line(alloc: Global, event: &Event, reply: &Reply) -> Result<Octets, Memory>
    requires { IsSome (told event.now reply.now) }
    ensures { IfOk result (λ text. answer_line event.now reply.now ≡ Some text) }
{
    match told(event, reply)? {
        Some(item) => item_text(alloc, &item, &Items::new(alloc)),
        None => unreachable!(),
    }
}
