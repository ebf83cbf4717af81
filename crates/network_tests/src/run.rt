// One run of the top call.
ghost use Rattle.kme_serve.specs.Doors.{AreFresh};

use crate::bench::{FirstParts, TestBench, new_bench};
use edge_io::{Gate, Listener, MemPorts, MemSink, MemSource, OpenGate, Ports, Source};
use qkd_base::{Items, Memory, Text, Texts};
use qkd_network::{Status, network};
use std::alloc::Global;
use std::sync::Wait;
use std::thread::Threads;

/// The room of a sink that takes each report here.
pub const ROOM: usize = 65536;

/// What came of a run.
#[derive(Drop)]
pub struct Outcome {
    pub status: Status,
    pub report: String,
    pub bench: TestBench,
}

/// The words of most runs here.
pub const ONE_WORKER: &str = "run 1";

// The words of a text, of which each space parts two. An empty text has none.
fn texts(alloc: Global, words: &str) -> Result<Texts, Memory> {
    let mut texts = Items::new(alloc);
    if !words.is_empty() {
        for word in words.split(' ') {
            texts.push(Text::from_string(String::from_str(alloc, word)?))?;
        }
    }
    Ok(texts)
}

/// Does what the words ask for over a new bench with these parts, and over these ports, its workers held where the gate holds them. It
/// gives the bench back.
pub fn over_ports<R: Threads + Wait + Sync, G: Gate, S: Source, P: Ports>(
    rt: &R,
    alloc: Global,
    gate: &G,
    words: &str,
    first: FirstParts,
    source: &mut S,
    sink: &mut MemSink,
    ports: &mut P,
) -> Result<(Status, TestBench), Memory>
where
    P::Door: Drop + Send + Sync,
    <P::Door as Listener>::In: Send,
    <P::Door as Listener>::Out: Send,
    requires { AreFresh P.asked P.back ports.old }
{
    let words = texts(alloc, words)?;
    let mut bench = new_bench(alloc, first)?;
    let status = network(rt, alloc, &words, source, sink, &mut bench, ports, gate);
    Ok((status, bench))
}

/// The same over ports none of which can be opened.
pub fn held_over<R: Threads + Wait + Sync, G: Gate, S: Source>(
    rt: &R,
    alloc: Global,
    gate: &G,
    words: &str,
    first: FirstParts,
    source: &mut S,
    sink: &mut MemSink,
) -> Result<(Status, TestBench), Memory> {
    let mut ports = MemPorts::new(alloc, Vec::new(alloc), Vec::new(alloc))?;
    over_ports(rt, alloc, gate, words, first, source, sink, &mut ports)
}

/// Does what the words ask for over a new bench with these parts, and gives the bench back.
pub fn over<R: Threads + Wait + Sync, S: Source>(
    rt: &R,
    alloc: Global,
    words: &str,
    first: FirstParts,
    source: &mut S,
    sink: &mut MemSink,
) -> Result<(Status, TestBench), Memory> {
    held_over(rt, alloc, &OpenGate, words, first, source, sink)
}

/// A source of this text.
pub fn source(alloc: Global, text: &str) -> Result<MemSource, Memory> {
    Ok(MemSource::new(text.as_bytes().to_vec(alloc)?, Vec::new(alloc)))
}

/// Runs a scenario with these parts.
pub fn run<R: Threads + Wait + Sync>(
    rt: &R,
    alloc: Global,
    text: &str,
    first: FirstParts,
) -> Result<Outcome, Memory> {
    let mut source = source(alloc, text)?;
    let mut sink = MemSink::new(alloc, ROOM, Vec::new(alloc))?;
    let (status, bench) = over(rt, alloc, ONE_WORKER, first, &mut source, &mut sink)?;
    let report = String::from_utf8_lossy(alloc, sink.taken())?;
    Ok(Outcome {
        status,
        report,
        bench,
    })
}
