// Making the response to a request.
ghost use Rattle.std.specs.Prelude.{◌≡◌, ◌+◌, ◌<◌, ◌≤◌, Ok, IfOk, OnErr};
ghost use Rattle.http_front.specs.declared.request.HttpRequest.{HttpRequest as RequestValue};
ghost use Rattle.net_model.specs.declared.event.Event.{Event as EventValue};
ghost use Rattle.qkd014_api.specs.Answers.{answer_of};
ghost use Rattle.qkd014_api.specs.Calls.{asked};
ghost use Rattle.qkd014_api.specs.Ready.{MayBeLost, keys_asked};
ghost use Rattle.kme_serve.specs.Steps.{IsAtOnce, IsAnswered, IsTextOf, HasReason};

use crate::{Managers, Turn};
use http_front::{HttpRequest, HttpResponse, response_bytes};
use net_model::Reply;
use qkd_base::{Memory, NodeNo, Octets};
use qkd014_api::{Api, CallRefusal, Ready};
use std::alloc::Global;
use std::sync::Wait;

/// The text of the response to a request. If the request asks for an event, the manager of the node is asked exactly once, and
/// otherwise not at all. Memory for the keys that it may hand out is taken before.
pub(crate) fn answer<R: Wait, M: Managers>(
    rt: &R,
    alloc: Global,
    managers: &M,
    api: &Api,
    pass: &mut M::Pass,
    node: NodeNo,
    request: &HttpRequest,
    close: bool,
) -> Result<Octets, Memory>
    requires fits { M.fits managers.now pass.old }
    requires budget { 0 < M.budget managers.now node pass.old }
    requires takes { (q : RequestValue) (event : EventValue) → asked api.now.entitlements node q ≡ Ok event → M.takes managers.now node event }
    ensures fits { M.fits managers.now pass.new }
    ensures budget { M.budget managers.now node pass.old ≤ M.budget managers.now node pass.new + 1 }
    ensures answered { IsAnswered api.now.nodes api.now.entitlements node (M.answers managers.now node) (M.seen managers.now node) request.now close pass.old pass.new result }
{
    match api.call_of(alloc, node, request) {
        Ok(event) => {
            let ready = Ready::new(alloc, &event)?;
            let turn = managers.ask(rt, pass, node, event);
            text_of(alloc, api, ready, &turn, close)
        }
        Err(refusal) => at_once(alloc, refusal, close),
    }
}

// The text of the response to a reply. That to keys needs no more memory.
fn text_of(
    alloc: Global,
    api: &Api,
    ready: Ready,
    turn: &Turn,
    close: bool,
) -> Result<Octets, Memory>
    requires { ready.most ≡ keys_asked turn.now.event }
    ensures ok { IfOk result (IsTextOf (answer_of api.now.nodes api.now.entitlements turn.now.event turn.now.reply) close) }
    ensures err { OnErr result (MayBeLost turn.now.event turn.now.reply) }
{
    match &turn.reply {
        Reply::Handed { keys } => ready.into_text(keys, close),
        reply => {
            let response = api.response_of(alloc, &turn.event, reply, close)?;
            response_bytes(alloc, &response)
        }
    }
}

// The text of the response to a fault.
fn at_once(alloc: Global, refusal: CallRefusal, close: bool) -> Result<Octets, Memory>
    requires { HasReason refusal }
    ensures { IsAtOnce refusal close result }
{
    match refusal {
        CallRefusal::Answer(response) => response_bytes(alloc, &closing(response, close)),
        CallRefusal::Memory => Err(Memory),
    }
}

// The response with its field `close` set to this value.
fn closing(response: HttpResponse, close: bool) -> HttpResponse
    ensures { result ≡ record response { close = close } }
{
    let HttpResponse {
        status,
        body,
        close: _,
    } = response;
    HttpResponse {
        status,
        body,
        close,
    }
}
