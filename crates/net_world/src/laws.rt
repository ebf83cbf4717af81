// Laws of a bench: the state that is laid out of it, and what is seen of it after a run.
ghost use Rattle.std.specs.Prelude.{◌≡◌, ℕ, List, IsTrue, codes};
ghost use Rattle.std.specs.List.{All};
ghost use Rattle.net_model.specs.Site.{Site as SiteValue};
ghost use Rattle.net_model.specs.World.{World, first};
ghost use Rattle.net_model.specs.Action.{Action};
ghost use Rattle.net_model.specs.declared.event.Event.TheVariants.{Enc};
ghost use Rattle.net_model.specs.Step.{run, IsRun};
ghost use Rattle.declared_site.specs.SiteOf.{IsDeclared};
ghost use Rattle.declared_site.specs.declared.site.Site.{Site as Declared};
ghost use Rattle.run_types.specs.declared.scenario.Scenario.{Scenario};
ghost use Rattle.run_model.specs.Turn.{Calls, HttpTexts};
ghost use Rattle.run_model.specs.Report.{Performed, report, actions_of, IsRunOf};
ghost use Rattle.run_model.specs.Load.{load_scenario};
ghost use Rattle.run_model.specs.Bench.{DiskBatches, Seen};
ghost use Rattle.run_model.specs.Course.{Words, Run, Load, Course, tasks_of};
ghost use Rattle.run_model.specs.Headline.{Stop, Headline, IsReported, written_of, Given};
ghost use Rattle.run_model.specs.Keys.{KeysAndBytes};
ghost use Rattle.run_tasks.specs.Tasks.{IsCut};
ghost use Rattle.run_http.specs.Speaking.{IsTextsOf, message};
ghost use Rattle.run_http.specs.Asking.{by_alice, by_carol};
ghost use Rattle.law_run.specs.Benched.{IsBenched, lines_alone};
ghost use Rattle.law_run.specs.Seen.{IsTold, IsSeen};
ghost use Rattle.world_state.specs.Stands.{Stands};
ghost use Rattle.world_state.specs.Tallied.{Tallied};
ghost use Rattle.world_state.specs.declared.state.State.{State as StateValue};
ghost use Rattle.net_world.specs.Laid.{IsLaidOut, HasRoomFor};
ghost use Rattle.net_world.specs.New.{IsNew, network_on};
ghost use Rattle.net_world.specs.Reading.{ReadsDisks, batches_on};
ghost use Rattle.net_world.specs.Seen.{IsSeenOn};
ghost use Rattle.net_world.specs.Over.{IsOver, HasHeadline};
ghost use Rattle.net_world.specs.Running.{HasHeadlines};
ghost use Rattle.net_world.specs.Shown.{shown_by};
ghost use Rattle.net_world.specs.Asking.{asking};
ghost use Rattle.net_world.specs.declared.bench.Bench.{Bench as BenchValue};
ghost use Rattle.world_state.specs.Outside.{outside};

use disk_model::Disk;
use hop_frames::frames_of_a_network;
use law_run::{law_headline_of_tasks, law_tasks_are_run};
use run_http::{law_requests_ask, law_texts_exist};
use source_devices::{Device, Entropy, Wire};

/// The network of a declared site over a new bench is a network of its scenario. A state that is laid out of the bench stands for the world
/// before any start.
pub fn law_bench_begins<K: Disk + Drop, Q: Device + Drop, E: Entropy + Drop, X: Wire + Drop>()
    ensures benched { (b : BenchValue K Q E X) (scenario : Scenario) → IsNew (outside K.Disk Q.Device E.Entropy X.Wire) b →
        IsDeclared scenario.site → IsBenched scenario (network_on Q.Device E.Entropy b scenario.site) }
    ensures stands { (old stayed : BenchValue K Q E X) (site : Declared) (s : StateValue K Q E X) → IsNew (outside K.Disk Q.Device E.Entropy X.Wire) old →
        IsDeclared site → IsLaidOut old stayed site s → Stands (outside K.Disk Q.Device E.Entropy X.Wire) s (network_on Q.Device E.Entropy old site) first }
{
    frames_of_a_network();
}

/// A run does not change how many parts a state has, so the bench has room for them afterwards.
pub fn law_room_stays<K: Disk + Drop, Q: Device + Drop, E: Entropy + Drop, X: Wire + Drop>()
    ensures { (b : BenchValue K Q E X) (old new : StateValue K Q E X) (site : SiteValue) (actions : List Action) →
        Tallied (outside K.Disk Q.Device E.Entropy X.Wire) old new site actions → HasRoomFor b old → HasRoomFor b new }
{}

/// What is seen of a bench after a run is what the run says of wires, disks, entropies, faults and armings, if the bench was new and the
/// batches of a disk are read from it.
pub fn law_bench_is_seen<K: Disk + Drop, Q: Device + Drop, E: Entropy + Drop, X: Wire + Drop>()
    ensures { (reading : DiskBatches) (old new : BenchValue K Q E X) (site : Declared) (actions : List Action) (w : World) (seen : Seen) →
        IsOver (outside K.Disk Q.Device E.Entropy X.Wire) old new site actions w →
        IsRun (network_on Q.Device E.Entropy old site) first actions → w ≡ run (network_on Q.Device E.Entropy old site) first actions →
        ReadsDisks reading → IsSeenOn (outside K.Disk Q.Device E.Entropy X.Wire) old new seen →
        IsSeen reading (network_on Q.Device E.Entropy old site) w actions seen }
{
    frames_of_a_network();
}

/// The headline holds of what was done for a scenario's tasks over a new bench, if the sink took what it should. For a generated load the
/// premise itself says what the sink took.
pub fn law_bench_headline<K: Disk + Drop, Q: Device + Drop, E: Entropy + Drop, X: Wire + Drop>()
    ensures run { (http : HttpTexts) (scenario : Scenario) (workers : ℕ) (stop : Stop) (old new : BenchValue K Q E X) (before after : Given) (done : List Performed) →
        IsOver (outside K.Disk Q.Device E.Entropy X.Wire) old new scenario.site
        (actions_of (network_on Q.Device E.Entropy old scenario.site) done) (report http (network_on Q.Device E.Entropy old scenario.site) first (tasks_of scenario) done).world →
        IsRunOf http (network_on Q.Device E.Entropy old scenario.site) workers first (tasks_of scenario) done →
        IsTold stop scenario.site.nodes (report http (network_on Q.Device E.Entropy old scenario.site) first (tasks_of scenario) done) before after →
        IsCut (written_of (Run workers)) scenario.site.nodes http (network_on Q.Device E.Entropy old scenario.site) first (tasks_of scenario) done before after →
        HasHeadline (outside K.Disk Q.Device E.Entropy X.Wire) old new (Run workers) stop http scenario before after
        (lines_alone (network_on Q.Device E.Entropy old scenario.site) first done) }
    ensures load { (http : HttpTexts) (scenario : Scenario) (rounds : ℕ) (stop : Stop) (old new : BenchValue K Q E X) (before after : Given) (done : List Performed) →
        scenario ≡ load_scenario rounds →
        IsOver (outside K.Disk Q.Device E.Entropy X.Wire) old new scenario.site
        (actions_of (network_on Q.Device E.Entropy old scenario.site) done) (report http (network_on Q.Device E.Entropy old scenario.site) first (tasks_of scenario) done).world →
        IsRunOf http (network_on Q.Device E.Entropy old scenario.site) 1 first (tasks_of scenario) done →
        IsReported (Load rounds) stop http scenario (lines_alone (network_on Q.Device E.Entropy old scenario.site) first done) before after →
        IsCut (written_of (Load rounds)) scenario.site.nodes http (network_on Q.Device E.Entropy old scenario.site) first (tasks_of scenario) done before after →
        HasHeadline (outside K.Disk Q.Device E.Entropy X.Wire) old new (Load rounds) stop http scenario before after
        (lines_alone (network_on Q.Device E.Entropy old scenario.site) first done) }
{
    frames_of_a_network();
    law_tasks_are_run();
    law_headline_of_tasks();
}

/// `batches_on` reads a disk's batches, gate by gate from the start of the live area.
pub fn law_disks_are_read()
    ensures { ReadsDisks batches_on }
{}

/// A bench whose disks are honest shows what a headline asks to be seen.
pub fn law_bench_is_shown<K: Disk + Drop, Q: Device + Drop, E: Entropy + Drop, X: Wire + Drop>()
    ensures { (old new : BenchValue K Q E X) → All (λ k. IsTrue (K.is_honest k)) new.disks.items →
        IsSeenOn (outside K.Disk Q.Device E.Entropy X.Wire) old new (shown_by (outside K.Disk Q.Device E.Entropy X.Wire) old new) }
{}

/// A run that has headlines has one: there are texts of HTTP that are the site's, and the course's headline holds of whatever is seen of
/// the bench. If the disks are honest, something is seen.
pub fn law_headline_stands<K: Disk + Drop, Q: Device + Drop, E: Entropy + Drop, X: Wire + Drop>()
    ensures whatever { (old new : BenchValue K Q E X) (words : Words) (scenario : Scenario) (before after : Given) (stop : Stop) →
        HasHeadlines (outside K.Disk Q.Device E.Entropy X.Wire) old new words scenario before after stop →
        (http : HttpTexts) × IsTextsOf scenario.site.nodes scenario.site.entitlements http × (c : Course) ×
        HasHeadline (outside K.Disk Q.Device E.Entropy X.Wire) old new words stop http scenario before after c }
    ensures honest { (old new : BenchValue K Q E X) (words : Words) (scenario : Scenario) (before after : Given) (stop : Stop) →
        HasHeadlines (outside K.Disk Q.Device E.Entropy X.Wire) old new words scenario before after stop →
        All (λ k. IsTrue (K.is_honest k)) new.disks.items →
        (http : HttpTexts) × IsTextsOf scenario.site.nodes scenario.site.entitlements http × (c : Course) × (c.begin ≡ first) ×
        Headline words stop http batches_on scenario (shown_by (outside K.Disk Q.Device E.Entropy X.Wire) old new) before after c }
{
    law_texts_exist();
    law_disks_are_read();
    law_bench_is_shown::<K, Q, E, X>();
}

/// The headline of a scenario with two requests over HTTP: the first asks for a key, the second is refused, and keys are as promised.
pub fn law_asking_is_promised<K: Disk + Drop, Q: Device + Drop, E: Entropy + Drop, X: Wire + Drop>()
    ensures { (old new : BenchValue K Q E X) (before after : Given) (stop : Stop) →
        HasHeadlines (outside K.Disk Q.Device E.Entropy X.Wire) old new (Run 1) asking before after stop →
        All (λ k. IsTrue (K.is_honest k)) new.disks.items →
        (http : HttpTexts) × (http.request 0 by_alice ≡ Calls (Enc 0 1 1 256)) × (http.request 0 by_carol ≡ message 401 (codes "not allowed")) × (c : Course) × (c.begin ≡ first) ×
        Headline (Run 1) stop http batches_on asking (shown_by (outside K.Disk Q.Device E.Entropy X.Wire) old new) before after c × KeysAndBytes c }
{
    law_requests_ask();
    law_headline_stands::<K, Q, E, X>();
}
