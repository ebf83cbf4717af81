// Writing responses.
ghost use Rattle.std.specs.Prelude.{IsTrue};
ghost use Rattle.http_front.specs.Response.{has_reason, response_text};
ghost use Rattle.kme_serve.specs.Steps.{IsWritten};

use edge_io::{Ended, Failed, Sink};
use http_front::{HttpResponse, response_bytes};
use qkd_base::Memory;
use std::alloc::Global;

/// Writes a response. An `Err` tells how the connection ends: the sink failed, or memory ran out.
pub(crate) fn write<W: Sink>(
    alloc: Global,
    response: &HttpResponse,
    sink: &mut W,
) -> Result<(), Ended>
    requires { IsTrue (has_reason response.now.status) }
    ensures { IsWritten (W.taken sink.old) (W.taken sink.new) (W.faults sink.old) (W.faults sink.new) (response_text response.now) result }
{
    let octets = match response_bytes(alloc, response) {
        Ok(octets) => octets,
        Err(Memory) => return Err(Ended::Memory),
    };
    match sink.write_all(octets.as_slice()) {
        Ok(()) => Ok(()),
        Err(Failed) => Err(Ended::WriteFault),
    }
}
