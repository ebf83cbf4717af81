// Reading a source to its end.
ghost use Rattle.std.specs.Prelude.{◌≡◌, ◌⊎◌, ◌≤◌, IfOk, IsErrOf};
ghost use Rattle.qkd_base.specs.Faults.{Rose};
ghost use Rattle.cli_answers.specs.declared.whole_source.ReadRefusal.TheVariants.{Fault};
ghost use Rattle.cli_answers.specs.Inputs.{ReadsWhole};

use edge_io::{Failed, Source};
use qkd_base::Octets;
use scenario_text::TEXT_LIMIT;
use std::alloc::Global;

/// Why the source could not be read.
#[derive(Clone, Copy, Debug, PartialEq, Eq)]
pub enum ReadRefusal {
    Fault,
    Memory,
}

/// Reads a source to its end, or past the limit of a scenario.
pub fn read_all<S: Source>(alloc: Global, source: &mut S) -> Result<Octets, ReadRefusal>
    ensures whole { IfOk result (λ bytes. ReadsWhole (S.left source.old) (S.left source.new) bytes) }
    ensures fault { IsErrOf result Fault → Rose (S.faults source.old) (S.faults source.new) }
    ensures later { S.faults source.old ≤ S.faults source.new }
    ensures calm { IsErrOf result Fault ⊎ (S.faults source.new ≡ S.faults source.old) }
{
    let mut bytes = Octets::new(alloc);
    let mut buffer = [0u8; 4096];
    for _ in 0..TEXT_LIMIT + 1 {
        let count = match source.read(&mut buffer) {
            Ok(count) => count,
            Err(Failed) => return Err(ReadRefusal::Fault),
        };
        if count == 0 {
            return Ok(bytes);
        }
        match bytes.extend(&buffer[..count]) {
            Ok(()) => {}
            Err(_) => return Err(ReadRefusal::Memory),
        }
        if bytes.len() > TEXT_LIMIT {
            return Ok(bytes);
        }
    }
    Ok(bytes)
}
