// Laws of a scenario's course: what was done for its tasks has a headline, with its report, keys, disks and fault
ghost use Rattle.std.specs.Prelude.{◌≡◌, ℕ, ◌+◌, ◌-◌, ◌^◌, ◌<◌, ◌≤◌, min, Bool, true, List, ◌∷◌, ◌++◌, map, count_by, drop, option_map};
ghost use Rattle.qkd_base.specs.declared.lane.Lane.{Lane};
ghost use Rattle.net_model.specs.declared.record.Record.{Record};
ghost use Rattle.net_model.specs.OctetSequence.{sequence_of};
ghost use Rattle.net_model.specs.Premises.{IsNetwork};
ghost use Rattle.net_model.specs.Site.{Site};
ghost use Rattle.net_model.specs.World.{Network, World};
ghost use Rattle.net_model.specs.Invariant.{Conserved};
ghost use Rattle.net_model.specs.Needed.{view_of};
ghost use Rattle.net_model.specs.Start.{may_resolve};
ghost use Rattle.net_model.specs.Action.{Action};
ghost use Rattle.net_model.specs.Step.{run, IsRun};
ghost use Rattle.net_model.specs.Faults.{disk_faults, entropy_faults, device_faults, wire_faults, armings, is_disk_fault, is_random_fault, is_block_fault, is_wire_fault};
ghost use Rattle.run_types.specs.declared.scenario.Scenario.{Scenario};
ghost use Rattle.run_types.specs.declared.item.NumberedItem.{NumberedItem};
ghost use Rattle.run_types.specs.Texts.{report_text};
ghost use Rattle.run_model.specs.Play.{Whole, ForgedAt};
ghost use Rattle.run_model.specs.Report.{Performed, report, actions_for, actions_of, IsRunOf};
ghost use Rattle.run_model.specs.Load.{load_scenario};
ghost use Rattle.run_model.specs.Left.{batches_made, IsFoldOf};
ghost use Rattle.run_model.specs.Turn.{HttpTexts};
ghost use Rattle.run_model.specs.Begin.{MayBegin};
ghost use Rattle.run_model.specs.Bench.{DiskBatches, Seen, Count, Rises, RoseWith, RoseBy};
ghost use Rattle.run_model.specs.Course.{Words, Run, Load, Course, tasks_of, whole_run, last_world, lines_played, IsCourseOf};
ghost use Rattle.run_model.specs.Keys.{KeysAndBytes};
ghost use Rattle.run_model.specs.Headline.{Stop, Given, joined, Took, TookFirst, Done, ForgedMatch, WriteFault, Memory, report_pieces, IsReported, Headline};
ghost use Rattle.law_recovery.specs.GivesBack.{GivesBack};
ghost use Rattle.law_recovery.specs.Saved.{DoubtsFit};
ghost use Rattle.law_run.specs.Benched.{IsBenched, lines_alone, counter, kept_view};
ghost use Rattle.law_run.specs.Seen.{IsTold, IsSeen};

use crate::{law_course_is_run, law_keys_and_bytes, law_tasks_are_run};

/// What was done for the tasks of a scenario is its course, if nothing is asked for after the lines.
pub fn law_tasks_make_a_course()
    ensures run { (http : HttpTexts) (scenario : Scenario) (workers : ℕ) (net : Network) (begin : World) (done : List Performed) → IsBenched scenario net →
        MayBegin net begin → IsRunOf http net workers begin (tasks_of scenario) done → IsCourseOf (Run workers) http scenario (lines_alone net begin done) }
    ensures load { (http : HttpTexts) (scenario : Scenario) (rounds : ℕ) (net : Network) (begin : World) (done : List Performed) → scenario ≡ load_scenario rounds →
        IsBenched scenario net → MayBegin net begin → IsRunOf http net 1 begin (tasks_of scenario) done →
        IsCourseOf (Load rounds) http scenario (lines_alone net begin done) }
{
    law_course_is_run();
}

/// Such a course consists of the actions of its tasks, and leads to the world that is reported.
pub fn law_lines_are_the_whole()
    ensures actions { (net : Network) (begin : World) (done : List Performed) → whole_run (lines_alone net begin done) ≡ actions_of net done }
    ensures world { (http : HttpTexts) (scenario : Scenario) (workers : ℕ) (net : Network) (begin : World) (done : List Performed) → IsBenched scenario net →
        Conserved net begin → IsRunOf http net workers begin (tasks_of scenario) done →
        (report http net begin (tasks_of scenario) done).world ≡ last_world (lines_alone net begin done) }
{
    law_tasks_are_run();
}

/// The sink took the items of the lines as the headline of a `run` says, one piece each: all of them, or all up to a
/// forged match, or the first of them. The text of a report is its pieces, one after another.
pub fn law_reported()
    ensures done { (http : HttpTexts) (scenario : Scenario) (workers : ℕ) (c : Course) (old new : Given) → (lines_played http scenario c).ending ≡ Whole →
        Took old new (report_pieces scenario.site.nodes (lines_played http scenario c).items) → IsReported (Run workers) Done http scenario c old new }
    ensures forged { (http : HttpTexts) (scenario : Scenario) (workers line : ℕ) (c : Course) (old new : Given) →
        (lines_played http scenario c).ending ≡ ForgedAt line →
        Took old new (report_pieces scenario.site.nodes (lines_played http scenario c).items) → IsReported (Run workers) (ForgedMatch line) http scenario c old new }
    ensures failed { (http : HttpTexts) (scenario : Scenario) (workers : ℕ) (c : Course) (old new : Given) →
        TookFirst old new (report_pieces scenario.site.nodes (lines_played http scenario c).items) → IsReported (Run workers) WriteFault http scenario c old new }
    ensures memory { (http : HttpTexts) (scenario : Scenario) (workers : ℕ) (c : Course) (old new : Given) →
        TookFirst old new (report_pieces scenario.site.nodes (lines_played http scenario c).items) → IsReported (Run workers) Memory http scenario c old new }
    ensures text { (nodes : List (List ℕ)) (items : List NumberedItem) → joined (report_pieces nodes items) ≡ report_text nodes items }
{}

/// In every course, all clauses of the headline on keys and lane bytes hold.
pub fn law_keys_of_a_course()
    ensures { (words : Words) (http : HttpTexts) (scenario : Scenario) (c : Course) → IsCourseOf words http scenario c → KeysAndBytes c }
{
    law_keys_and_bytes();
}

/// In every run, a journal that gave a node back at the beginning does so with the batches that the node made. If the
/// batches on a node's disk give back what the node sees in the end, they have the same meaning as those of its events,
/// over what it saw at the beginning. If a batch is in doubt, this holds with it or without it.
pub fn law_disks_of_a_course()
    ensures made { (net : Network) (w : World) (actions : List Action) (v : ℕ) (before : List (List Record)) → IsNetwork net → Conserved net w → DoubtsFit net w →
        GivesBack net.site v before (view_of net w v) → IsRun net w actions →
        GivesBack net.site v (before ++ batches_made net v w actions) (view_of net (run net w actions) v) }
    ensures fold { (words : Words) (http : HttpTexts) (scenario : Scenario) (c : Course) → IsCourseOf words http scenario c →
        (v : ℕ) (before : List (List Record)) → GivesBack c.net.site v before (view_of c.net c.begin v) →
        (committed : Bool) (batches : List (List Record)) → may_resolve ((last_world c).in_doubt v) committed ≡ true →
        GivesBack c.net.site v batches (kept_view c.net (last_world c) v committed) → IsFoldOf c.net c.begin (whole_run c) (last_world c) v batches }
{}

/// If a counter of 64 bits rose by n or reached its greatest value, then it rose by n in the sense of the headline.
/// The faults and armings of two runs in sequence add up.
pub fn law_fault_counts()
    ensures rose { (n before now : ℕ) → now < 2 ^ 64 → min (before + n) (2 ^ 64 - 1) ≤ now → RoseBy (counter before now) n }
    ensures disk { (s : Site) (v : ℕ) (xs ys : List Action) → disk_faults s v (xs ++ ys) ≡ disk_faults s v xs + disk_faults s v ys }
    ensures entropy { (v : ℕ) (xs ys : List Action) → entropy_faults v (xs ++ ys) ≡ entropy_faults v xs + entropy_faults v ys }
    ensures device { (link : ℕ) (xs ys : List Action) → device_faults link (xs ++ ys) ≡ device_faults link xs + device_faults link ys }
    ensures wire { (l : Lane) (xs ys : List Action) → wire_faults l (xs ++ ys) ≡ wire_faults l xs + wire_faults l ys }
    ensures armed { (v : ℕ) (xs ys : List Action) → armings v (xs ++ ys) ≡ armings v xs ++ armings v ys }
{}

/// The counts of faults that the headline speaks of. From faults in their actions follow the totals, and from totals that
/// a fault caused follow the actions. Of two lists of actions behind one another, each has its own part of the count. So
/// each task has its own, and a task that reports no fault left the count as it was.
pub fn law_faults_in_place()
    ensures disk { (s : Site) (v : ℕ) (c : Count) (actions : List Action) → c.new ≤ c.greatest → RoseWith c (map (is_disk_fault s v) actions) → RoseBy c (disk_faults s v actions) }
    ensures entropy { (v : ℕ) (c : Count) (actions : List Action) → c.new ≤ c.greatest → RoseWith c (map (is_random_fault v) actions) → RoseBy c (entropy_faults v actions) }
    ensures device { (link : ℕ) (c : Count) (actions : List Action) → c.new ≤ c.greatest → RoseWith c (map (is_block_fault link) actions) → RoseBy c (device_faults link actions) }
    ensures wire { (l : Lane) (c : Count) (actions : List Action) → c.new ≤ c.greatest → RoseWith c (map (is_wire_fault l) actions) → RoseBy c (wire_faults l actions) }
    ensures calm { (p : Action → Bool) (c : Count) (actions : List Action) → RoseWith c (map p actions) → count_by p actions ≡ 0 → c.new ≡ c.old }
    ensures places { (p : Action → Bool) (c : Count) (actions : List Action) → RoseBy c (count_by p actions) → (count_by p actions ≡ 0 → c.new ≡ c.old) → RoseWith c (map p actions) }
    ensures apart { (greatest : ℕ) (xs ys : List Bool) (before now : ℕ) → Rises greatest (xs ++ ys) before now → (mid : ℕ) × Rises greatest xs before mid × Rises greatest ys mid now }
    ensures together { (greatest : ℕ) (xs ys : List Bool) (before mid now : ℕ) → Rises greatest xs before mid → Rises greatest ys mid now → Rises greatest (xs ++ ys) before now }
    ensures task { (net : Network) (p : Action → Bool) (greatest : ℕ) (earlier : List Performed) (task : Performed) (later : List Performed) (before now : ℕ) →
        Rises greatest (map p (actions_of net (earlier ++ task ∷ later))) before now →
        (start : ℕ) × (end : ℕ) × Rises greatest (map p (actions_of net earlier)) before start × Rises greatest (map p (actions_for net task)) start end
        × Rises greatest (map p (actions_of net later)) end now × (count_by p (actions_for net task) ≡ 0 → end ≡ start) }
{}

/// A list that has the octets and the end that another list has after its first n octets is that list without these.
pub fn law_octets_left()
    ensures { (told rest : List ℕ) (n : ℕ) → ((i : ℕ) → (sequence_of rest).octet i ≡ (sequence_of told).octet (n + i)) →
        (sequence_of rest).end ≡ option_map (λ (e : ℕ). e - n) (sequence_of told).end → rest ≡ drop n told }
{}

/// The headline holds of what was done for the tasks of a scenario, if the sink and the bench's parts
/// show what they should. For a generated load, what the sink took is a further premise.
pub fn law_headline_of_tasks()
    ensures run { (http : HttpTexts) (scenario : Scenario) (workers : ℕ) (stop : Stop) (reading : DiskBatches) (seen : Seen) (old new : Given) (net : Network) (begin : World) (done : List Performed) →
        IsBenched scenario net → MayBegin net begin → IsRunOf http net workers begin (tasks_of scenario) done →
        IsTold stop scenario.site.nodes (report http net begin (tasks_of scenario) done) old new →
        IsSeen reading net (report http net begin (tasks_of scenario) done).world (actions_of net done) seen →
        Headline (Run workers) stop http reading scenario seen old new (lines_alone net begin done) }
    ensures load { (http : HttpTexts) (scenario : Scenario) (rounds : ℕ) (stop : Stop) (reading : DiskBatches) (seen : Seen) (old new : Given) (net : Network) (begin : World) (done : List Performed) →
        scenario ≡ load_scenario rounds → IsBenched scenario net → MayBegin net begin → IsRunOf http net 1 begin (tasks_of scenario) done →
        IsReported (Load rounds) stop http scenario (lines_alone net begin done) old new →
        IsSeen reading net (report http net begin (tasks_of scenario) done).world (actions_of net done) seen →
        Headline (Load rounds) stop http reading scenario seen old new (lines_alone net begin done) }
{
    law_tasks_make_a_course();
    law_lines_are_the_whole();
    law_keys_of_a_course();
}
