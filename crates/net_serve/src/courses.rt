// Laws of the course of a scenario that is served.
ghost use Rattle.std.specs.Prelude.{◌≡◌, ℕ, List, length};
ghost use Rattle.net_model.specs.World.{Network, World};
ghost use Rattle.net_model.specs.Action.{Action};
ghost use Rattle.run_types.specs.declared.scenario.Scenario.{Scenario};
ghost use Rattle.run_model.specs.Report.{Performed, IsRunOf};
ghost use Rattle.run_model.specs.Turn.{HttpTexts};
ghost use Rattle.run_model.specs.Begin.{MayBegin};
ghost use Rattle.run_model.specs.Bench.{DiskBatches, Seen};
ghost use Rattle.run_model.specs.Course.{Words, Serve, Course, tasks_of, served_by, whole_run, last_world, lines_played, IsCourseOf};
ghost use Rattle.run_model.specs.Headline.{Stop, IsReported, Headline, Given};
ghost use Rattle.law_run.specs.Benched.{IsBenched};
ghost use Rattle.law_run.specs.Seen.{IsSeen};
ghost use Rattle.net_serve.specs.ServedRun.{course_of, MayFollow};
ghost use Rattle.net_serve.specs.Told.{IsServeTold};

use law_run::{law_course_is_run, law_keys_of_a_course};

/// What was done for the lines of a scenario, followed by what connections had each manager do, is a course of the scenario.
pub fn law_served_lines_make_a_course()
    ensures { (http : HttpTexts) (scenario : Scenario) (workers connections port : ℕ) (net : Network) (begin : World) (done : List Performed) (served : List (List Action)) →
        IsBenched scenario net → MayBegin net begin → IsRunOf http net workers begin (tasks_of scenario) done → MayFollow http scenario net begin done served →
        IsCourseOf (Serve workers connections port) http scenario (course_of net begin done served) }
{
    law_course_is_run();
}

/// The headline holds of a course if the sink and the bench's parts tell what they should.
pub fn law_headline_of_a_course()
    ensures { (words : Words) (stop : Stop) (http : HttpTexts) (reading : DiskBatches) (scenario : Scenario) (c : Course) (seen : Seen) (old new : Given) →
        IsCourseOf words http scenario c → IsReported words stop http scenario c old new → IsSeen reading c.net (last_world c) (whole_run c) seen →
        Headline words stop http reading scenario seen old new c }
{
    law_keys_of_a_course();
}

/// What the sink took of a scenario's lines, and of the line after them, is what the headline says of it, whatever connections asked for.
pub fn law_reported_of_serve()
    ensures { (workers connections port : ℕ) (stop : Stop) (http : HttpTexts) (scenario : Scenario) (c : Course) (old new : Given) →
        IsServeTold stop scenario.site.nodes (lines_played http scenario c) (served_by (Serve workers connections port) (length scenario.site.nodes)) old new →
        IsReported (Serve workers connections port) stop http scenario c old new }
{}
