// Serving the connections of one listener.
ghost use Rattle.std.specs.Prelude.{◌≡◌, ◌+◌, ◌*◌, ◌<◌, ◌≤◌, ◌^◌, Ok, OnOk};
ghost use Rattle.http_front.specs.declared.request.HttpRequest.{HttpRequest as RequestValue};
ghost use Rattle.net_model.specs.declared.event.Event.{Event as EventValue};
ghost use Rattle.qkd_base.specs.Faults.{HasCause};
ghost use Rattle.qkd014_api.specs.Calls.{asked};
ghost use Rattle.kme_serve.specs.Door.{IsDoorServed};
ghost use Rattle.kme_serve.specs.Endless.{endless};

use crate::connection::serve_connection;
use crate::{Connections, Managers};
use edge_io::{Failed, Listener};
use qkd_base::NodeNo;
use qkd014_api::Api;
use std::alloc::Global;
use std::sync::Wait;

/// Accepts `connections` connections at a listener, one after another, serves each to its end, and finishes it with the way it
/// ended. If the listener fails, no more connections are accepted. Those accepted before are served and finished. Where there
/// is no end to the connections, the call only comes back after such a failure.
pub fn serve_door<R: Wait, M: Managers, D: Listener>(
    rt: &R,
    alloc: Global,
    managers: &M,
    api: &Api,
    pass: &mut M::Pass,
    node: NodeNo,
    door: &mut D,
    connections: Connections,
) -> Result<(), Failed>
    requires fits { M.fits managers.now pass.old }
    requires budget { 1000 * connections ≤ M.budget managers.now node pass.old }
    requires takes { (q : RequestValue) (event : EventValue) → asked api.now.entitlements node q ≡ Ok event → M.takes managers.now node event }
    requires few { D.accepted door.old + connections ≤ 2 ^ 48 }
    requires finished { D.finished door.old ≤ D.accepted door.old }
    ensures fits { M.fits managers.now pass.new }
    ensures budget { M.budget managers.now node pass.old ≤ M.budget managers.now node pass.new + 1000 * connections }
    ensures served { IsDoorServed api.now.nodes api.now.entitlements node (M.answers managers.now node) (M.seen managers.now node) connections
        (record { port = D.port door.old; accepted = D.accepted door.old; finished = D.finished door.old; waiting = D.waiting door.old; done = D.done door.old })
        (record { port = D.port door.new; accepted = D.accepted door.new; finished = D.finished door.new; waiting = D.waiting door.new; done = D.done door.new })
        pass.old pass.new result }
    ensures cause { HasCause (D.faults door.old) (D.faults door.new) result }
    ensures calm { OnOk result (D.faults door.new ≡ D.faults door.old) }
    ensures lasts { OnOk result (¬ (connections ≡ endless)) }
{
    let mut served = 0;
    'visits: for _ in rt.forever() {
        if connections.are_served(rt, served) {
            return Ok(());
        }
        serve_next(rt, alloc, managers, api, pass, node, door)?;
        served += 1;
    }
    unreachable!()
}

// Accepts, serves and finishes the next connection.
fn serve_next<R: Wait, M: Managers, D: Listener>(
    rt: &R,
    alloc: Global,
    managers: &M,
    api: &Api,
    pass: &mut M::Pass,
    node: NodeNo,
    door: &mut D,
) -> Result<(), Failed>
    requires fits { M.fits managers.now pass.old }
    requires budget { 1000 ≤ M.budget managers.now node pass.old }
    requires takes { (q : RequestValue) (event : EventValue) → asked api.now.entitlements node q ≡ Ok event → M.takes managers.now node event }
    requires few { D.accepted door.old < 2 ^ 48 }
    requires finished { D.finished door.old ≤ D.accepted door.old }
    ensures fits { M.fits managers.now pass.new }
    ensures budget { M.budget managers.now node pass.old ≤ M.budget managers.now node pass.new + 1000 }
    ensures served { IsDoorServed api.now.nodes api.now.entitlements node (M.answers managers.now node) (M.seen managers.now node) 1
        (record { port = D.port door.old; accepted = D.accepted door.old; finished = D.finished door.old; waiting = D.waiting door.old; done = D.done door.old })
        (record { port = D.port door.new; accepted = D.accepted door.new; finished = D.finished door.new; waiting = D.waiting door.new; done = D.done door.new })
        pass.old pass.new result }
    ensures cause { HasCause (D.faults door.old) (D.faults door.new) result }
    ensures calm { OnOk result (D.faults door.new ≡ D.faults door.old) }
{
    let (mut source, mut sink) = door.accept()?;
    let ended = serve_connection(rt, alloc, managers, api, pass, node, &mut source, &mut sink);
    door.finish(source, sink, ended);
    Ok(())
}
