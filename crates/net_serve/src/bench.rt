// Laws of a scenario that is served, over a bench.
ghost use Rattle.std.specs.Prelude.{◌≡◌, ℕ, List, length};
ghost use Rattle.net_model.specs.World.{first};
ghost use Rattle.net_model.specs.Action.{Action};
ghost use Rattle.run_types.specs.declared.scenario.Scenario.{Scenario};
ghost use Rattle.run_model.specs.Report.{Performed, report, IsRunOf};
ghost use Rattle.run_model.specs.Turn.{HttpTexts};
ghost use Rattle.run_model.specs.Course.{Serve, tasks_of, served_by, whole_run, last_world};
ghost use Rattle.run_model.specs.Headline.{Stop, written_of, Given};
ghost use Rattle.run_tasks.specs.Tasks.{IsCut};
ghost use Rattle.net_world.specs.New.{network_on};
ghost use Rattle.net_world.specs.Over.{IsOver, HasHeadline};
ghost use Rattle.net_world.specs.declared.bench.Bench.{Bench as BenchValue};
ghost use Rattle.net_serve.specs.ServedRun.{course_on, MayFollow};
ghost use Rattle.net_serve.specs.Told.{IsServeTold};
ghost use Rattle.world_state.specs.Outside.{outside};

use crate::courses::{
    law_headline_of_a_course, law_reported_of_serve, law_served_lines_make_a_course,
};
use disk_model::Disk;
use net_world::{law_bench_begins, law_bench_is_seen};
use source_devices::{Device, Entropy, Wire};

/// The headline holds of what was done for a scenario's lines over a new bench, followed by what connections asked for, if the sink took
/// what it should. The headline is about exactly this course, in a run over what the bench's parts told.
pub fn law_bench_serves<K: Disk + Drop, Q: Device + Drop, E: Entropy + Drop, X: Wire + Drop>()
    ensures { (http : HttpTexts) (scenario : Scenario) (workers connections port : ℕ) (stop : Stop) (old new : BenchValue K Q E X) (before after : Given)
        (done : List Performed) (served : List (List Action)) →
        IsOver (outside K.Disk Q.Device E.Entropy X.Wire) old new scenario.site
        (whole_run (course_on Q.Device E.Entropy old scenario done served)) (last_world (course_on Q.Device E.Entropy old scenario done served)) →
        IsRunOf http (network_on Q.Device E.Entropy old scenario.site) workers first (tasks_of scenario) done →
        MayFollow http scenario (network_on Q.Device E.Entropy old scenario.site) first done served →
        IsServeTold stop scenario.site.nodes (report http (network_on Q.Device E.Entropy old scenario.site) first (tasks_of scenario) done)
        (served_by (Serve workers connections port) (length scenario.site.nodes)) before after →
        IsCut (written_of (Serve workers connections port)) scenario.site.nodes http (network_on Q.Device E.Entropy old scenario.site) first (tasks_of scenario) done before after →
        HasHeadline (outside K.Disk Q.Device E.Entropy X.Wire) old new (Serve workers connections port) stop http scenario before after
        (course_on Q.Device E.Entropy old scenario done served) }
{
    law_bench_begins::<K, Q, E, X>();
    law_bench_is_seen::<K, Q, E, X>();
    law_served_lines_make_a_course();
    law_headline_of_a_course();
    law_reported_of_serve();
}
