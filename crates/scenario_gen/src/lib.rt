//! Writes the scenario of the generated load: a ring of eight nodes whose applications exchange keys in rounds.
#![tactic(auto)]

mod load;
mod ring;
mod round;
mod words;

ghost use Rattle.std.specs.Prelude.{◌≡◌, ℕ, ◌≤◌, Ok};
ghost use Rattle.scenario_text.specs.Text.{meaning_of};
ghost use Rattle.run_model.specs.Load.{load_scenario};
ghost use Rattle.scenario_gen.specs.LoadText.{load_text};

pub use load::scenario_of;

/// The text of a generated load of 1 to 500 rounds is read as the load's scenario.
pub fn law_load_is_read()
    ensures { (rounds : ℕ) → 1 ≤ rounds → rounds ≤ 500 → meaning_of (load_text rounds) ≡ Ok (load_scenario rounds) }
{}
