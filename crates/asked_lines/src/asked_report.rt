// The lines that a person asked for, written to a sink.
ghost use Rattle.std.specs.Prelude.{◌≡◌, [], Ok, Err, IfOk};
ghost use Rattle.std.specs.Bool.{MatchBool};
ghost use Rattle.run_lines.specs.Reporting.{IsBlamed};
ghost use Rattle.run_lines.specs.declared.stop.Stop.TheVariants.{Memory as WantOfMemory};
ghost use Rattle.asked_lines.specs.Telling.{IsWanted, IsLeftOut, ToldAsked};

use crate::asked::is_asked;
use crate::kept_lines::KeptLines;
use edge_io::{Failed, Sink};
use qkd_base::{Memory, Octets, Texts};
use report_grammar::{LineRefusal, told_in};
use run_lines::Stop;
use std::alloc::Global;

// Whether a person asked for what a line tells.
fn is_wanted(alloc: Global, nodes: &Texts, line: &[u8]) -> Result<bool, Memory>
    ensures { IfOk result (λ wanted. MatchBool wanted (IsWanted nodes.now line.now) (IsLeftOut nodes.now line.now)) }
{
    match told_in(alloc, nodes, line) {
        Ok(told) => Ok(is_asked(&told.item)),
        Err(LineRefusal::NotALine) => Ok(true),
        Err(LineRefusal::Memory) => Err(Memory),
    }
}

// Writes those of the lines that a person asked for, one write for each.
fn write_asked<W: Sink>(
    alloc: Global,
    nodes: &Texts,
    lines: &[Octets],
    sink: &mut W,
) -> Result<(), Stop>
    ensures told { ToldAsked W.taken W.pieces nodes.now lines.now sink.old sink.new (Ok tt) result }
    ensures none { lines.now ≡ [] → (result ≡ Ok tt) × (sink.new ≡ sink.old) }
    ensures blame { IsBlamed (W.faults sink.old) (W.faults sink.new) result }
{
    for line in lines {
        let Ok(wanted) = is_wanted(alloc, nodes, line.as_slice()) else {
            return Err(Stop::Memory);
        };
        if wanted {
            match sink.write_all(line.as_slice()) {
                Ok(()) => {}
                Err(Failed) => return Err(Stop::WriteFault),
            }
        }
    }
    Ok(())
}

/// Writes those of the kept lines of a report that a person asked for, one write for each. `ended` says how the run ended
/// that wrote them. The call ends as the run did, unless the sink failed or memory ran out. If no line was kept, the sink
/// isn't touched.
pub fn tell_asked<W: Sink>(
    alloc: Global,
    nodes: &Texts,
    kept: &KeptLines,
    ended: Result<(), Stop>,
    sink: &mut W,
) -> Result<(), Stop>
    ensures told { ToldAsked W.taken W.pieces nodes.now kept.now.0 sink.old sink.new ended result }
    ensures none { kept.now.0 ≡ [] → sink.new ≡ sink.old }
    ensures wanting { kept.now.0 ≡ [] → ended ≡ Err WantOfMemory → result ≡ Err WantOfMemory }
    ensures blame { IsBlamed (W.faults sink.old) (W.faults sink.new) result }
{
    write_asked(alloc, nodes, kept.lines(), sink)?;
    match ended {
        Ok(()) => Ok(()),
        Err(Stop::Forged(line)) => Err(Stop::Forged(line)),
        Err(Stop::Memory) => Err(Stop::Memory),
        // What keeps the lines fails only for lack of memory.
        Err(Stop::WriteFault) => Err(Stop::Memory),
    }
}
