// Lines that are HTTP requests.
ghost use Rattle.std.specs.Prelude.{◌≡◌, ◌<◌, length, OnOk};
ghost use Rattle.run_model.specs.Turn.{HttpTexts, http_turn};
ghost use Rattle.run_model.specs.Lines.{script_of_turn};
ghost use Rattle.run_model.specs.Headline.{given_to};
ghost use Rattle.run_lines.specs.Reporting.{InLines, IsBlamed, IsItemLine};
ghost use Rattle.run_lines.specs.Running.{Runs, IsReadySomewhere};

use crate::Stop;
use crate::report::write_item;
use crate::requests::{Answer, Asked, Requests};
use edge_io::Sink;
use qkd_base::{NodeNo, Octets};
use run_ops::{Acts, http_item};
use std::alloc::Global;

/// Brings an HTTP request to a node, and reports the answer.
#[tactic(auto, using(crate::proofs::Lines::stopped_unwritten))]
pub fn http<S: Acts, H: Requests, W: Sink>(
    alloc: Global,
    net: &mut S,
    requests: &H,
    number: u32,
    node: NodeNo,
    octets: Octets,
    sink: &mut W,
) -> Result<(), Stop>
    requires serves { H.serves requests.now (S.site net.old) }
    requires node { node < length (S.site net.old).nodes }
    requires ready { IsReadySomewhere S.stands net.old }
    ensures site { S.site net.new ≡ S.site net.old }
    ensures armed { S.armed net.new ≡ S.armed net.old }
    ensures ready { OnOk result (IsReadySomewhere S.stands net.new) }
    ensures runs { (http : HttpTexts) → H.speaks requests.now http → Runs S.stands S.rests S.tallied (S.site net.old).nodes net.old net.new (given_to W.taken W.pieces sink.old) (given_to W.taken W.pieces sink.new) number (script_of_turn (http_turn node http.response (http.request node octets))) result }
    ensures blame { IsBlamed (W.faults sink.old) (W.faults sink.new) result }
    ensures lined { InLines W.taken W.pieces (IsItemLine (S.site net.old).nodes) sink.old sink.new result }
{
    match requests.read(alloc, node, octets) {
        Ok(Asked::AtOnce(answer)) => {
            let Answer { status, body } = answer;
            let item = http_item(node, status, body);
            write_item(alloc, net.declared(), number, &item, sink)
        }
        Ok(Asked::Event(event)) => {
            let reply = net.ask(node, &event);
            match requests.answer(alloc, &event, &reply) {
                Ok(answer) => {
                    let Answer { status, body } = answer;
                    let item = http_item(node, status, body);
                    write_item(alloc, net.declared(), number, &item, sink)
                }
                Err(_) => Err(Stop::Memory),
            }
        }
        Err(_) => Err(Stop::Memory),
    }
}
