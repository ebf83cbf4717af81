// Laws that read scenarios can be run: whatever their lines name is declared and in range.
ghost use Rattle.std.specs.Prelude.{◌≡◌, ◌≤◌, ℕ, List, Ok};
ghost use Rattle.run_types.specs.declared.scenario.Scenario.{Scenario};
ghost use Rattle.scenario_text.specs.Text.{meaning_of};
ghost use Rattle.run_model.specs.Load.{load_scenario};
ghost use Rattle.run_ops.specs.Runnable.{IsRunnable};

use scenario_gen::law_load_is_read;

/// A scenario that is the meaning of some text can be run.
pub fn law_read_commands_fit()
    ensures { (bytes : List ℕ) (scenario : Scenario) → meaning_of bytes ≡ Ok scenario → IsRunnable scenario }
{}

/// The generated load of 1 to 500 rounds can be run.
pub fn law_load_commands_fit()
    ensures { (rounds : ℕ) → 1 ≤ rounds → rounds ≤ 500 → IsRunnable (load_scenario rounds) }
{
    law_read_commands_fit();
    law_load_is_read();
}
