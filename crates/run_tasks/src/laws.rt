// The headline and what a load's sink took.
ghost use Rattle.std.specs.Prelude.{ℕ};
ghost use Rattle.run_types.specs.declared.scenario.Scenario.{Scenario};
ghost use Rattle.run_model.specs.Turn.{HttpTexts};
ghost use Rattle.run_model.specs.Course.{Load, Course, lines_run, lines_played};
ghost use Rattle.run_model.specs.Headline.{Stop as Ended, IsReported, Given};
ghost use Rattle.law_run.specs.Handed.{enc_keys, dec_keys};
ghost use Rattle.run_tasks.specs.Told.{IsLoadTold, IsLoadOver};

use law_run::{
    law_first_may_begin, law_load_lines, law_loads_are_of_pairs, law_masters_and_slaves,
    law_tasks_are_run,
};

/// However a load ended, the headline says exactly what its sink took. The keys that it reports under `enc` and `dec` are
/// those that the whole run handed to masters and to slaves.
pub fn law_load_is_reported()
    ensures { (http : HttpTexts) (scenario : Scenario) (rounds : ℕ) (c : Course) (stop : Ended) (old new : Given) → IsLoadOver http scenario rounds c →
        IsLoadTold stop scenario.site.nodes (lines_played http scenario c) (enc_keys c.net c.begin (lines_run c)) (dec_keys c.net c.begin (lines_run c)) old new →
        IsReported (Load rounds) stop http scenario c old new }
{
    law_first_may_begin();
    law_tasks_are_run();
    law_load_lines();
    law_loads_are_of_pairs();
    law_masters_and_slaves();
}
