// Reading a scenario from a source.
ghost use Rattle.std.specs.Prelude.{◌≡◌, ◌⊎◌, IfOk, IsErrOf, MatchResult};
ghost use Rattle.qkd_base.specs.Faults.{Rose};
ghost use Rattle.run_ops.specs.Runnable.{IsRunnable};
ghost use Rattle.qkd_network.specs.Outcome.{HasScenario, IsUnread};
ghost use Rattle.qkd_network.specs.declared.status.Status.TheVariants.{ReadFault};

use crate::Status;
use cli_answers::{ReadRefusal, read_all};
use edge_io::Source;
use law_run::law_read_commands_fit;
use run_types::Scenario;
use scenario_text::{ScenarioRefusal, read_scenario};
use std::alloc::Global;

/// Reads a source to its end, or past the limit of a scenario, and parses its scenario, which can be run. `Err` has the status that says
/// why there is no scenario.
pub fn scenario_in<S: Source>(alloc: Global, source: &mut S) -> Result<Scenario, Status>
    ensures read { MatchResult result (HasScenario (S.left source.old) (S.left source.new)) (λ status. IsUnread status (S.left source.old) (S.left source.new)) }
    ensures runnable { IfOk result (λ scenario. IsRunnable scenario) }
    ensures calm { MatchResult result (λ scenario. S.faults source.new ≡ S.faults source.old) (λ status. (status ≡ ReadFault) ⊎ (S.faults source.new ≡ S.faults source.old)) }
    ensures fault { IsErrOf result ReadFault → Rose (S.faults source.old) (S.faults source.new) }
{
    let bytes = match read_all(alloc, source) {
        Err(ReadRefusal::Fault) => return Err(Status::ReadFault),
        Err(ReadRefusal::Memory) => return Err(Status::Memory),
        Ok(bytes) => bytes,
    };
    law_read_commands_fit();
    match read_scenario(alloc, bytes.as_slice()) {
        Err(ScenarioRefusal::BadLine(line)) => Err(Status::BadLine(line)),
        Err(ScenarioRefusal::Memory) => Err(Status::Memory),
        Ok(scenario) => Ok(scenario),
    }
}
