// The next request of a connection.
ghost use Rattle.std.specs.Prelude.{◌≡◌, IfSome, IfNone};
ghost use Rattle.http_front.specs.Front.{IsRequest};
ghost use Rattle.kme_serve.specs.Steps.{IsNext, IsRefusedBy};

use crate::owed::pay;
use crate::response_writer::write;
use edge_io::{Ended, Failed, MemSource, Sink, Source};
use http_front::{FrontRefusal, HttpRequest, read_request};
use qkd_base::{Memory, Octets};
use qkd014_api::front_response;
use std::alloc::Global;

/// Reads the next request, or ends the connection. Before more octets are read than were kept, all owed answers are written. So
/// no answer waits for what an application has yet to send.
pub(crate) fn next<S: Source, W: Sink>(
    alloc: Global,
    source: &mut S,
    kept: &mut Octets,
    sink: &mut W,
    owed: &mut Octets,
) -> Result<HttpRequest, Ended>
    ensures { IsNext kept.old kept.new owed.old owed.new
        (record { left = S.left source.old; taken = W.taken sink.old; read_faults = S.faults source.old; write_faults = W.faults sink.old })
        (record { left = S.left source.new; taken = W.taken sink.new; read_faults = S.faults source.new; write_faults = W.faults sink.new })
        result }
{
    if let Some(request) = kept_request(alloc, kept) {
        return Ok(request);
    }
    match pay(alloc, sink, owed) {
        Ok(()) => {}
        Err(Failed) => return Err(Ended::WriteFault),
    }
    match read_request(alloc, source, kept) {
        Ok(request) => Ok(request),
        Err(refusal) => Err(refuse(alloc, &refusal, sink)),
    }
}

// The request in the kept octets, if it is complete.
fn kept_request(alloc: Global, kept: &mut Octets) -> Option<HttpRequest>
    ensures some { IfSome result (λ request. IsRequest kept.old request kept.new) }
    ensures none { IfNone result (kept.new ≡ kept.old) }
{
    if kept.is_empty() {
        return None;
    }
    let mut nothing = MemSource::new(Vec::new(alloc), Vec::new(alloc));
    match read_request(alloc, &mut nothing, kept) {
        Ok(request) => Some(request),
        Err(_) => None,
    }
}

// How a connection ends when no request is read. Most causes are answered first.
fn refuse<W: Sink>(alloc: Global, refusal: &FrontRefusal, sink: &mut W) -> Ended
    ensures { IsRefusedBy refusal.now (W.taken sink.old) (W.taken sink.new) (W.faults sink.old) (W.faults sink.new) result }
{
    match refusal {
        FrontRefusal::NoRequest => return Ended::Closed,
        FrontRefusal::ReadFault => return Ended::ReadFault,
        _ => {}
    }
    let response = match front_response(alloc, refusal) {
        Ok(response) => response,
        Err(Memory) => return Ended::Memory,
    };
    match write(alloc, &response, sink) {
        Ok(()) => Ended::Closed,
        Err(ended) => ended,
    }
}
