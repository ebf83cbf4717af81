// The scenario of a generated load.
ghost use Rattle.std.specs.Prelude.{◌≡◌, ◌≤◌, true, IfOk};
ghost use Rattle.std.specs.List.{list_all};
ghost use Rattle.run_ops.specs.Runnable.{IsRunnable};
ghost use Rattle.run_model.specs.Load.{load_scenario};
ghost use Rattle.law_run.specs.Kinds.{is_load_entry};

use law_run::{law_load_commands_fit, law_load_lines};
use qkd_base::Memory;
use run_types::Scenario;
use scenario_gen::scenario_of;
use scenario_text::{ScenarioRefusal, read_scenario};
use std::alloc::Global;

/// Reads the generated text of a load of `rounds` rounds as a scenario. The scenario can be run, and its entries are lines of a load. No
/// line is refused: only memory may run out.
pub fn generated(alloc: Global, rounds: u32) -> Result<Scenario, Memory>
    requires rounds { (1 ≤ rounds) × (rounds ≤ 500) }
    ensures is { IfOk result (λ scenario. scenario ≡ load_scenario rounds) }
    ensures runnable { IfOk result (λ scenario. IsRunnable scenario) }
    ensures load { IfOk result (λ scenario. list_all is_load_entry scenario.entries ≡ true) }
{
    law_load_commands_fit();
    law_load_lines();
    let text = scenario_of(alloc, rounds)?;
    match read_scenario(alloc, text.as_slice()) {
        Ok(scenario) => Ok(scenario),
        Err(ScenarioRefusal::Memory) => Err(Memory),
        Err(ScenarioRefusal::BadLine(_)) => unreachable!(),
    }
}
