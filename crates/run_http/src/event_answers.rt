// The events that requests ask for, and the answers to them.
ghost use Rattle.std.specs.Prelude.{◌≡◌, Bool, IfOk};
ghost use Rattle.qkd014_api.specs.Calls.{asked};
ghost use Rattle.qkd014_api.specs.Fronts.{front_message, IsFrontResponse};
ghost use Rattle.run_lines.specs.Answering.{asked_for};
ghost use Rattle.run_http.specs.Speaking.{call_of};

use http_front::{FrontRefusal, HttpRequest, HttpResponse};
use qkd_base::{Memory, NodeNo};
use qkd014_api::{Api, CallRefusal, front_response};
use run_lines::{Answer, Asked};
use std::alloc::Global;

/// The event that a request asks for, or the answer to a request that asks for none.
pub(crate) fn called(
    alloc: Global,
    api: &Api,
    node: NodeNo,
    request: &HttpRequest,
) -> Result<Asked, Memory>
    ensures { IfOk result (λ said. asked_for said ≡ call_of (asked api.now.entitlements node request.now)) }
{
    match api.call_of(alloc, node, request) {
        Ok(event) => Ok(Asked::Event(event)),
        Err(CallRefusal::Answer(response)) => Ok(Asked::AtOnce(answer_of(response))),
        Err(CallRefusal::Memory) => Err(Memory),
    }
}

/// The answer to octets that aren't a request.
pub(crate) fn refused(alloc: Global, refusal: &FrontRefusal) -> Result<Answer, Memory>
    ensures { IfOk result (λ answer. IsFrontResponse (front_message refusal.now) (record { status = answer.status; body = answer.body; close = Bool.true })) }
{
    let response = front_response(alloc, refusal)?;
    Ok(answer_of(response))
}

/// The status and the body of a response.
pub(crate) fn answer_of(response: HttpResponse) -> Answer
    ensures { result ≡ record { status = response.status; body = response.body } }
{
    let HttpResponse {
        status,
        body,
        close: _,
    } = response;
    Answer { status, body }
}
