// One exchange of a connection: a request and its response.
ghost use Rattle.std.specs.Prelude.{◌≡◌, ◌+◌, ◌<◌, ◌≤◌, Ok, length};
ghost use Rattle.http_front.specs.declared.request.HttpRequest.{HttpRequest as RequestValue};
ghost use Rattle.net_model.specs.declared.event.Event.{Event as EventValue};
ghost use Rattle.qkd014_api.specs.Calls.{asked};
ghost use Rattle.kme_serve.specs.Steps.{Goes};

use crate::Managers;
use crate::buffers::Buffers;
use crate::next::next;
use crate::owed::{give_up, owe, pay};
use crate::request_answer::answer;
use crate::served_node::ServedNode;
use edge_io::{Ended, Failed, Sink, Source};
use qkd_base::Memory;
use std::alloc::Global;
use std::sync::Wait;

/// The most responses of one connection.
pub(crate) const RESPONSE_LIMIT: u32 = 1000;

/// Reads the next request and answers it, after `count` responses. After `Ok` the connection stays open, and the answer may
/// still be owed. After `Err` the connection has ended.
pub(crate) fn exchange<R: Wait, M: Managers, S: Source, W: Sink>(
    rt: &R,
    alloc: Global,
    served: &ServedNode<'_, M>,
    pass: &mut M::Pass,
    source: &mut S,
    sink: &mut W,
    buffers: &mut Buffers,
    count: u32,
) -> Result<(), Ended>
    requires fits { M.fits served.now.managers.now pass.old }
    requires budget { 0 < M.budget served.now.managers.now served.now.node pass.old }
    requires takes { (q : RequestValue) (event : EventValue) → asked served.now.api.now.entitlements served.now.node q ≡ Ok event → M.takes served.now.managers.now served.now.node event }
    requires few { count < 1000 }
    requires owed { 0 < length buffers.old.owed → 0 < count }
    ensures fits { M.fits served.now.managers.now pass.new }
    ensures budget { M.budget served.now.managers.now served.now.node pass.old ≤ M.budget served.now.managers.now served.now.node pass.new + 1 }
    ensures goes { Goes served.now.api.now.nodes served.now.api.now.entitlements served.now.node (M.answers served.now.managers.now served.now.node) (M.seen served.now.managers.now served.now.node)
        count buffers.old.kept buffers.new.kept buffers.old.owed buffers.new.owed
        (record { left = S.left source.old; taken = W.taken sink.old; read_faults = S.faults source.old; write_faults = W.faults sink.old; pass = pass.old })
        (record { left = S.left source.new; taken = W.taken sink.new; read_faults = S.faults source.new; write_faults = W.faults sink.new; pass = pass.new })
        result }
{
    let Buffers { kept, owed } = buffers;
    let ServedNode {
        managers,
        api,
        node,
    } = *served;
    let request = next(alloc, source, kept, sink, owed)?;
    let close = request.close || count + 1 == RESPONSE_LIMIT;
    let text = match answer(rt, alloc, managers, api, pass, node, &request, close) {
        Ok(text) => text,
        Err(Memory) => return Err(give_up(alloc, sink, owed)),
    };
    match owe(alloc, sink, owed, text) {
        Ok(()) => {}
        Err(Failed) => return Err(Ended::WriteFault),
    }
    if !close {
        return Ok(());
    }
    match pay(alloc, sink, owed) {
        Ok(()) => Err(Ended::Closed),
        Err(Failed) => Err(Ended::WriteFault),
    }
}
