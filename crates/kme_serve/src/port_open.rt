// Opening ports, and making twins of their listeners.
ghost use Rattle.std.specs.Prelude.{◌≡◌, ◌⊎◌, ◌+◌, ◌<◌, ◌≤◌, ℕ, List, [], Option, Some, IsSome, IfOk, MatchResult, length, min, take, slice_get, vec_len, vec_capacity};
ghost use Rattle.qkd_base.specs.Faults.{Rose};
ghost use Rattle.edge_io.specs.Writes.{Adds};
ghost use Rattle.kme_serve.specs.Doors.{Queues, HasRoom, IsNew, AreNew, AreUnused, AreQueued, AreOpened, HaveFirstQueues, HasFailed, ports_from, ports_of, telling};
ghost use Rattle.kme_serve.specs.Twins.{IsTwinned};

use edge_io::{Failed, Listener, Ports};

/// Opens a listener for each worker, up to the first failure: first the ports of the nodes, then the twins.
pub(crate) fn open_all<P: Ports>(
    ports: &mut P,
    port: u16,
    workers: u32,
    nodes: u32,
    doors: &mut Vec<P::Door>,
) -> Result<(), Failed>
    requires none { doors.old.items ≡ [] }
    requires space { workers ≤ vec_capacity doors.old }
    requires nodes { 0 < nodes }
    requires ports { port + min workers nodes ≤ 65536 }
    requires asked { HasRoom P.asked ports.old workers }
    ensures came { MatchResult result
        (λ _. AreOpened (telling P.Door.port P.Door.accepted P.Door.finished P.Door.waiting P.Door.done) P.Door.faults (IsSome (P.asked ports.old)) (P.queues ports.old) port workers nodes doors.new.items)
        (λ _. (length doors.new.items ≤ workers) × AreUnused (telling P.Door.port P.Door.accepted P.Door.finished P.Door.waiting P.Door.done) P.Door.faults port nodes doors.new.items) }
    ensures asked { MatchResult result
        (λ _. Adds (P.asked ports.old) (P.asked ports.new) (ports_of port workers nodes))
        (λ _. Adds (P.asked ports.old) (P.asked ports.new) (take (length doors.new.items + 1) (ports_of port workers nodes))) }
    ensures faults { MatchResult result (λ _. P.faults ports.new ≡ P.faults ports.old) (λ _. Rose (P.faults ports.old) (P.faults ports.new) ⊎ HasFailed P.Door.faults doors.new.items) }
    ensures same { P.back ports.new ≡ P.back ports.old }
{
    match open_each(ports, port, workers.min(nodes), doors) {
        Ok(()) => twin_rest(doors, workers, nodes),
        Err(failed) => Err(failed),
    }
}

// Opens `many` consecutive ports from `port` on, up to the first failure.
fn open_each<P: Ports>(
    ports: &mut P,
    port: u16,
    many: u32,
    doors: &mut Vec<P::Door>,
) -> Result<(), Failed>
    requires none { doors.old.items ≡ [] }
    requires space { many ≤ vec_capacity doors.old }
    requires ports { port + many ≤ 65536 }
    requires asked { HasRoom P.asked ports.old many }
    ensures new { (k : ℕ) (d : _) → slice_get doors.new.items k ≡ Some d →
        IsNew (telling P.Door.port P.Door.accepted P.Door.finished P.Door.waiting P.Door.done) P.Door.faults (IsSome (P.asked ports.old)) (port + k) d }
    ensures queued { HaveFirstQueues (telling P.Door.port P.Door.accepted P.Door.finished P.Door.waiting P.Door.done) P.Door.twins (P.queues ports.old) port doors.new.items }
    ensures asked { MatchResult result
        (λ _. (length doors.new.items ≡ many) × Adds (P.asked ports.old) (P.asked ports.new) (ports_from port many) × (P.faults ports.new ≡ P.faults ports.old))
        (λ _. (length doors.new.items < many) × Adds (P.asked ports.old) (P.asked ports.new) (ports_from port (length doors.new.items + 1)) × Rose (P.faults ports.old) (P.faults ports.new)) }
    ensures same { P.back ports.new ≡ P.back ports.old }
    ensures space { vec_capacity doors.new ≡ vec_capacity doors.old }
{
    for n in 0..many {
        let door = ports.open(port + n as u16)?;
        doors.push_reserved(door);
    }
    Ok(())
}

// Makes a twin of the listener at an index.
fn twin_at<D: Listener>(doors: &mut [D], place: usize) -> Result<D, Failed>
    requires { place < length doors.old }
    ensures { IsTwinned (telling D.port D.accepted D.finished D.waiting D.done) D.faults D.twins place doors.old doors.new result }
{
    let door = &mut doors[place];
    door.twin()
}

// Makes twins of the first nodes' listeners, one after another, until each worker has a listener.
fn twin_rest<D: Listener>(doors: &mut Vec<D>, workers: u32, nodes: u32) -> Result<(), Failed>
    requires nodes { 0 < nodes }
    requires first { vec_len doors.old ≡ min workers nodes }
    requires space { workers ≤ vec_capacity doors.old }
    ensures came { (asked : Option (List ℕ)) (port : ℕ) →
        AreNew (telling D.port D.accepted D.finished D.waiting D.done) D.faults (IsSome asked) port nodes doors.old.items → MatchResult result
        (λ _. AreNew (telling D.port D.accepted D.finished D.waiting D.done) D.faults (IsSome asked) port nodes doors.new.items)
        (λ _. AreUnused (telling D.port D.accepted D.finished D.waiting D.done) D.faults port nodes doors.new.items × HasFailed D.faults doors.new.items) }
    ensures queued { (queues : ℕ → Queues) (port : ℕ) → HaveFirstQueues (telling D.port D.accepted D.finished D.waiting D.done) D.twins queues port doors.old.items →
        IfOk result (λ _. AreQueued (telling D.port D.accepted D.finished D.waiting D.done) queues port nodes doors.new.items) }
    ensures all { IfOk result (λ _. vec_len doors.new ≡ workers) }
    ensures some { (vec_len doors.old ≤ vec_len doors.new) × (vec_len doors.new ≤ workers) }
{
    for place in doors.len()..workers as usize {
        let twin = twin_at(doors, place % nodes as usize)?;
        doors.push_reserved(twin);
    }
    Ok(())
}
