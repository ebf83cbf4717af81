// The laws of this crate: each is the contract of a function that does nothing.
ghost use Rattle.scenario_check.specs.Laws.{FirstRefused};

/// A text that is a scenario is fine, and only such a text is; of any other the first line told is the first that is refused.
pub fn law_first_refused()
    ensures { FirstRefused }
{}
