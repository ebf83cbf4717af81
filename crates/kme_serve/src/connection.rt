// Serving one connection.
ghost use Rattle.std.specs.Prelude.{◌≡◌, ◌+◌, ◌<◌, ◌≤◌, [], Ok};
ghost use Rattle.http_front.specs.declared.request.HttpRequest.{HttpRequest as RequestValue};
ghost use Rattle.net_model.specs.declared.event.Event.{Event as EventValue};
ghost use Rattle.qkd014_api.specs.Calls.{asked};
ghost use Rattle.kme_serve.specs.Connection.{IsServed};

use crate::Managers;
use crate::buffers::Buffers;
use crate::exchange::exchange;
use crate::served_node::ServedNode;
use edge_io::{Ended, Sink, Source};
use qkd_base::{NodeNo, Octets};
use qkd014_api::Api;
use std::alloc::Global;
use std::sync::Wait;

/// Serves one connection to the manager of a node, and returns how it ended (ETSI GS QKD 014 V1.1.1, section 5, over RFC 9112).
/// Requests are read from the source and answered one after another. Answers to requests that arrived together are written
/// together. All answers are written before more is read, and before the connection closes. The connection closes at the end of
/// the input, after octets that are no request, after a request that closes it, and after the 1,000th response. After a fault
/// nothing more is read or written. If memory runs out, only the answers made before are written. Memory for keys is taken
/// before the manager is asked for them.
pub fn serve_connection<R: Wait, M: Managers, S: Source, W: Sink>(
    rt: &R,
    alloc: Global,
    managers: &M,
    api: &Api,
    pass: &mut M::Pass,
    node: NodeNo,
    source: &mut S,
    sink: &mut W,
) -> Ended
    requires fits { M.fits managers.now pass.old }
    requires budget { 1000 ≤ M.budget managers.now node pass.old }
    requires takes { (q : RequestValue) (event : EventValue) → asked api.now.entitlements node q ≡ Ok event → M.takes managers.now node event }
    ensures fits { M.fits managers.now pass.new }
    ensures budget { M.budget managers.now node pass.old ≤ M.budget managers.now node pass.new + 1000 }
    ensures served { IsServed api.now.nodes api.now.entitlements node (M.answers managers.now node) (M.seen managers.now node) 0 [] []
        (record { left = S.left source.old; taken = W.taken sink.old; read_faults = S.faults source.old; write_faults = W.faults sink.old; pass = pass.old })
        (record { left = S.left source.new; taken = W.taken sink.new; read_faults = S.faults source.new; write_faults = W.faults sink.new; pass = pass.new })
        result }
{
    let served = ServedNode {
        managers,
        api,
        node,
    };
    let mut buffers = Buffers {
        kept: Octets::new(alloc),
        owed: Octets::new(alloc),
    };
    let mut count = 0;
    'exchanges: loop {
        match exchange(rt, alloc, &served, pass, source, sink, &mut buffers, count) {
            Ok(()) => count += 1,
            Err(ended) => return ended,
        }
    }
}
