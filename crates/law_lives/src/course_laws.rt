// The law of courses: what a call leaves on its disks has one world behind it.
ghost use Rattle.std.specs.Prelude.{◌≡◌, ◌<◌, ℕ, Bool, true, List};
ghost use Rattle.net_model.specs.declared.record.Record.{Record};
ghost use Rattle.net_model.specs.Premises.{IsNetwork};
ghost use Rattle.net_model.specs.World.{Network, World, Journal, first};
ghost use Rattle.net_model.specs.Action.{Action};
ghost use Rattle.net_model.specs.Start.{may_resolve};
ghost use Rattle.net_model.specs.Step.{run, IsRun};
ghost use Rattle.net_model.specs.Invariant.{IsJournal};
ghost use Rattle.run_types.specs.declared.scenario.Scenario.{Scenario};
ghost use Rattle.run_model.specs.Begin.{MayBegin};
ghost use Rattle.run_model.specs.Turn.{HttpTexts};
ghost use Rattle.run_model.specs.Bench.{DiskBatches, Seen};
ghost use Rattle.run_model.specs.Course.{Words, Course};
ghost use Rattle.run_model.specs.Headline.{Stop, Given, Headline};
ghost use Rattle.law_lives.specs.Images.{IsImage};
ghost use Rattle.law_lives.specs.Left.{AreLeft, AreCurrent, HasOneWorld};
ghost use Rattle.law_lives.specs.OneWorld.{IsOneWorld};

/// Whatever images a run leaves on its disks, they have one world. The run may end anywhere, also between an event and
/// its frames. Each choice of doubts is that of some images, unless a checkpoint has settled a doubt otherwise. The run
/// may begin before any start, or in a later world, if a node there whose journal is blank has seen nothing.
pub fn law_run_leaves_one_world()
    ensures first { (net : Network) → AreCurrent net first }
    ensures world { (net : Network) (begin : World) (actions : List Action) (images : ℕ → List (List Record)) (journals : ℕ → Journal) → IsNetwork net → MayBegin net begin →
        AreCurrent net begin → IsRun net begin actions → AreLeft net begin actions images → ((v : ℕ) → IsJournal (journals v)) →
        (made : ℕ → Bool) × IsOneWorld net (run net begin actions) images journals made }
    ensures choice { (net : Network) (begin : World) (actions : List Action) (made : ℕ → Bool) → IsNetwork net → MayBegin net begin → IsRun net begin actions →
        ((v : ℕ) → v < net.site.nodes → may_resolve ((run net begin actions).in_doubt v) (made v) ≡ true) →
        (images : ℕ → List (List Record)) × ((v : ℕ) → v < net.site.nodes → IsImage net (run net begin actions) v (made v) (images v)) }
{}

/// Where the headline holds of what is seen of the bench, the disks that are seen have one world together, and the course
/// is a life. It may begin before any start, or in a later world, if a node there whose journal is blank has seen nothing.
pub fn law_headline_has_one_world()
    ensures { (words : Words) (stop : Stop) (http : HttpTexts) (reading : DiskBatches) (scenario : Scenario) (seen : Seen) (old new : Given) (c : Course) (journals : ℕ → Journal) →
        Headline words stop http reading scenario seen old new c → AreCurrent c.net c.begin → ((v : ℕ) → IsJournal (journals v)) → HasOneWorld reading seen c journals }
{}
