// Laws of a scenario's run: what is done for its lines is a run of the network, and the headline holds of its keys
ghost use Rattle.std.specs.Prelude.{◌≡◌, ℕ, List, map};
ghost use Rattle.std.specs.List.{flat_map};
ghost use Rattle.net_model.specs.Premises.{IsNetwork};
ghost use Rattle.net_model.specs.Invariant.{Conserved};
ghost use Rattle.net_model.specs.World.{Network, World, first};
ghost use Rattle.run_model.specs.Begin.{MayBegin};
ghost use Rattle.net_model.specs.Action.{Action};
ghost use Rattle.net_model.specs.Step.{run, outcomes, IsRun};
ghost use Rattle.net_model.specs.BlockOrder.{AreChains, all_histories};
ghost use Rattle.run_types.specs.declared.line.Line.{Line};
ghost use Rattle.run_types.specs.declared.scenario.Scenario.{Scenario};
ghost use Rattle.run_model.specs.Turn.{HttpTexts};
ghost use Rattle.run_model.specs.Works.{Works, Done, flat, parts, turns_done, IsBlockOf};
ghost use Rattle.run_model.specs.Report.{Task, Performed, report, actions_of, IsRunOf};
ghost use Rattle.run_model.specs.Course.{Words, Course, tasks_of, workers_of, whole_run, AreServed};
ghost use Rattle.run_model.specs.Keys.{KeysAndBytes};
ghost use Rattle.law_run.specs.Nothing.{NothingIsDone};

use law_invariant::law_run_keeps;
use law_safety::{
    law_bytes_are_drawn, law_deliveries_true, law_handed_to_entitled, law_no_byte_masks_two,
    law_received_is_counted,
};

/// A course may begin in the world before any start.
pub fn law_first_may_begin()
    ensures { (net : Network) → MayBegin net first }
{}

/// What is done for the tasks of a scenario is one list of actions. Each action may happen, and the list leads to the
/// world that is reported.
pub fn law_tasks_are_run()
    ensures run { (http : HttpTexts) (net : Network) (workers : ℕ) (w : World) (tasks : List Task) (done : List Performed) → IsNetwork net → Conserved net w →
        IsRunOf http net workers w tasks done → IsRun net w (actions_of net done) }
    ensures world { (http : HttpTexts) (net : Network) (workers : ℕ) (w : World) (tasks : List Task) (done : List Performed) → IsNetwork net → Conserved net w →
        IsRunOf http net workers w tasks done → (report http net w tasks done).world ≡ run net w (actions_of net done) }
{}

/// The whole course of a call is such a run too, including what connections asked for after the lines.
pub fn law_course_is_run()
    ensures { (words : Words) (http : HttpTexts) (scenario : Scenario) (c : Course) → IsNetwork c.net → Conserved c.net c.begin →
        IsRunOf http c.net (workers_of words) c.begin (tasks_of scenario) c.done → AreServed words http scenario c → IsRun c.net c.begin (whole_run c) }
{}

/// The outcome of a turn in a block is the same whether its manager's history is made on its own from the block's
/// start, or as a part of the block's run.
pub fn law_turns_by_themselves()
    ensures { (http : HttpTexts) (net : Network) (workers : ℕ) (w : World) (lines : List Line) (b : Works) → IsNetwork net → Conserved net w →
        IsBlockOf http net workers w lines b → map (λ (d : Done). d.outcome) (flat (turns_done net w b)) ≡ outcomes net w (all_histories (parts b)) }
{}

/// In every run from a world in which a course may begin, all clauses of the headline on keys and lane bytes hold.
pub fn law_keys_and_bytes()
    ensures { (c : Course) → IsNetwork c.net → MayBegin c.net c.begin → IsRun c.net c.begin (whole_run c) → KeysAndBytes c }
{
    law_bytes_are_drawn();
    law_handed_to_entitled();
    law_no_byte_masks_two();
    law_received_is_counted();
    law_deliveries_true();
    law_run_keeps();
}

/// A scenario that declares nothing and asks for nothing has its headline: an empty report and an unchanged bench. So
/// the fields of a headline don't contradict each other.
pub fn law_headline_is_met()
    ensures { NothingIsDone }
{
    law_first_may_begin();
    law_keys_and_bytes();
}
