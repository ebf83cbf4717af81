// The top call of the program.
ghost use Rattle.std.specs.Prelude.{◌≡◌, ◌⊎◌};
ghost use Rattle.std.specs.List.{All};
ghost use Rattle.qkd_base.specs.Faults.{Rose};
ghost use Rattle.kme_serve.specs.Doors.{AreFresh, IsListenFault, ports_told, telling};
ghost use Rattle.net_world.specs.Laid.{IsWhole};
ghost use Rattle.net_world.specs.New.{IsNew};
ghost use Rattle.qkd_network.specs.Call.{IsCalled};
ghost use Rattle.qkd_network.specs.Outcome.{AsksServe};
ghost use Rattle.qkd_network.specs.declared.status.Status.TheVariants.{ReadFault, WriteFault, ListenFault};
ghost use Rattle.net_world.specs.New.{outside};

use crate::form::connections_of;
use crate::quiet::quiet;
use crate::serve::serve;
use crate::source_scenario::scenario_in;
use crate::veil::veil;
use crate::{Form, Status, read_form};
use cli_answers::{Question, answer_to};
use disk_model::Disk;
use edge_io::{Gate, Listener, Ports, Sink, Source};
use net_serve::Service;
use net_world::{Bench, run_load, run_scenario};
use qkd_base::Texts;
use source_devices::{Device, Entropy, Wire};
use std::alloc::Global;
use std::sync::Wait;
use std::thread::Threads;

/// Does what the words ask for.
///
/// - `run`: reads a scenario from the source to its end, and runs it over a new bench. The given number of workers do its blocks. The
///   report goes to the sink, one line at a time.
/// - `run` with `--quiet`: does the same, and writes those lines of the report that a person asked for, after the run.
/// - `serve`: does the same. Then each worker serves the given number of connections with the manager of a node, at the node's own port
///   (ETSI GS QKD 014). Last it writes the number of connections served. With `forever` there is no end to them: where there is a node,
///   it comes back after a fault alone.
/// - `load`: runs the generated load of the given number of rounds, and writes its ledgers and the number of keys that it handed out. The
///   source is not touched.
/// - `veil`: reads a scenario and runs it like `run 1`, without a report. Then it complements each key in the frames and keeps the wires
///   the same. It writes the number of different frames and the number of lane bytes that change.
/// - `bound`: reads keys from the source. It writes the bound on the number of keys that give the hashes of two different texts a
///   difference, and how many of the read keys do.
/// - `audit`, `audit whole`: reads a scenario and the report of a run of it, and writes the verdict of the audit.
/// - `json`: reads the same, and writes the items of the report as JSON objects.
/// - `check`: reads a scenario, and writes which of its lines are refused, and why.
///
/// These questions about a text, from `bound` on, do not touch the bench. Only `serve` touches the ports.
///
/// The status says what was done:
///
/// - `Usage`: this word is the first that fits no form. Nothing was touched.
/// - `BadLine`: this line is the first that is refused. The source was read to its end, or past the limit of a scenario. Bench and ports
///   are as they were, and so is the sink, but for `check`, whose answer it took.
/// - `BrokenRule`: the answer of `audit whole` was written, and it is a no.
/// - `ReadFault`: the source's count of faults rose, and a failed read is not tried again. With every other status the count is as it was.
/// - `Done`, `WriteFault`, `ForgedMatch`, `Memory` and `ListenFault`: if there was a run, its headline holds, whole or up to where the run
///   ended. It tells of the report that the sink took, one line a piece, of the frames on the wires, of what the disks hold, of keys and
///   of lane bytes, of faults and of armings.
/// - `ListenFault` says that a port or a listener failed. The sink took the report of all lines, and no more.
/// - `Memory` may also come before the first line. Then sink, bench and ports are untouched.
///
/// With `--quiet` it holds of all lines of the report, of which the sink took those that a person asked for.
///
/// For `veil` the headline holds except for the report, and the wires fit every other key. The sink took the whole line of `veil`, or
/// the whole answer to a question, or a prefix of it; at a forged match it took nothing. For `serve` the run goes on with what connections asked, and each
/// connection got the responses to its requests. Each port was asked for once, and the listeners came back. The bench has all its parts
/// back at the end.
pub fn network<
    R: Threads + Wait + Sync,
    S: Source,
    W: Sink,
    K: Disk + Drop + Send,
    Q: Device + Drop + Send,
    E: Entropy + Drop + Send,
    X: Wire + Drop + Send,
    P: Ports,
    G: Gate,
>(
    rt: &R,
    alloc: Global,
    words: &Texts,
    source: &mut S,
    sink: &mut W,
    bench: &mut Bench<K, Q, E, X>,
    ports: &mut P,
    gate: &G,
) -> Status
where
    P::Door: Drop + Send + Sync,
    <P::Door as Listener>::In: Send,
    <P::Door as Listener>::Out: Send,
    requires fresh { IsNew (outside K.Disk Q.Device E.Entropy X.Wire) bench.old }
    requires unarmed { All (λ k. (K.armings k).count ≡ 0) bench.old.disks.items }
    requires ports { AreFresh P.asked P.back ports.old }
    ensures outcome { IsCalled (λ s. S.left s) (λ k. W.taken k) W.pieces (outside K.Disk Q.Device E.Entropy X.Wire)
        (telling P.Door.port P.Door.accepted P.Door.finished P.Door.waiting P.Door.done) P.Door.faults P.asked P.back P.queues
        result words.now source.old source.new sink.old sink.new bench.old bench.new ports.old ports.new }
    ensures ports { AsksServe words.now ⊎ (ports.new ≡ ports.old) }
    ensures whole { IsWhole bench.new }
    ensures read_fault { result ≡ ReadFault → Rose (S.faults source.old) (S.faults source.new) }
    ensures source_calm { (result ≡ ReadFault) ⊎ (S.faults source.new ≡ S.faults source.old) }
    ensures write_fault { result ≡ WriteFault → Rose (W.faults sink.old) (W.faults sink.new) }
    ensures listen_fault { result ≡ ListenFault →
        IsListenFault P.Door.faults (P.faults ports.old) (P.faults ports.new) (ports_told P.asked P.back P.queues ports.old) (ports_told P.asked P.back P.queues ports.new) }
{
    let workers = match read_form(words) {
        Err(place) => return Status::Usage(place),
        Ok(Form::Load { rounds }) => {
            return Status::of_run(run_load(alloc, rounds, sink, bench));
        }
        Ok(Form::Bound { a, b, difference }) => {
            let question = Question::Bound { a, b, difference };
            return Status::of_answer(answer_to(alloc, &question, source, sink));
        }
        Ok(Form::Audit) => {
            return Status::of_answer(answer_to(alloc, &Question::Audit, source, sink));
        }
        Ok(Form::WholeAudit) => {
            return Status::of_answer(answer_to(alloc, &Question::WholeAudit, source, sink));
        }
        Ok(Form::Check) => {
            return Status::of_answer(answer_to(alloc, &Question::Check, source, sink));
        }
        Ok(Form::Json) => {
            return Status::of_answer(answer_to(alloc, &Question::Objects, source, sink));
        }
        Ok(Form::Veil) => return veil(rt, alloc, source, sink, bench, gate),
        Ok(
            Form::Serve {
                workers,
                connections,
                port,
            },
        ) => {
            let service = Service {
                workers,
                connections: connections_of(connections),
                port,
            };
            return serve(rt, alloc, service, source, sink, bench, ports, gate);
        }
        Ok(Form::Quiet { workers }) => {
            return quiet(rt, alloc, workers, source, sink, bench, gate);
        }
        Ok(Form::Run { workers }) => workers,
    };
    match scenario_in(alloc, source) {
        Err(status) => status,
        Ok(scenario) => Status::of_run(run_scenario(
            rt, alloc, gate, scenario, workers, sink, bench,
        )),
    }
}
