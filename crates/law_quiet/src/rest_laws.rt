// Laws of clean rests: after one of them a single silent round, or a single `settle` line that reports nothing, is enough.
ghost use Rattle.std.specs.Prelude.{◌≡◌, ◌++◌, ℕ, List, true, Some};
ghost use Rattle.qkd_base.specs.Name.{Name};
ghost use Rattle.qkd_base.specs.declared.lane.Lane.{Lane as LaneValue};
ghost use Rattle.net_model.specs.declared.fact.Fact.{Fact as FactValue};
ghost use Rattle.net_model.specs.Table.{fact_at, is_secret};
ghost use Rattle.net_model.specs.Events.{is_lane};
ghost use Rattle.net_model.specs.Site.{sender};
ghost use Rattle.net_model.specs.World.{Network, World, first};
ghost use Rattle.net_model.specs.Premises.{IsNetwork};
ghost use Rattle.net_model.specs.Action.{Action};
ghost use Rattle.net_model.specs.Step.{step, is_enabled, run, IsRun};
ghost use Rattle.net_model.specs.Invariant.{Conserved};
ghost use Rattle.run_model.specs.Turn.{HttpTexts};
ghost use Rattle.run_model.specs.Play.{Whole};
ghost use Rattle.run_model.specs.Report.{Task, starts_from, Performed, report, IsRunOf};
ghost use Rattle.law_locality.specs.Quiet.{IsQuiet};
ghost use Rattle.law_quiet.specs.Between.{AskRequests};
ghost use Rattle.law_quiet.specs.Delivered.{IsDelivered, IsBack};
ghost use Rattle.law_quiet.specs.Named.{AreNaming};
ghost use Rattle.law_quiet.specs.Passes.{IsClearAlong, IsStillAlong, IsRested, world_since};
ghost use Rattle.law_quiet.specs.Rested.{KeepRest};
ghost use Rattle.law_quiet.specs.Settled.{EndsSilent, world_before, world_after};
ghost use Rattle.law_quiet.specs.Silent.{AreSilent, NoneAwaits, IsOpen};
ghost use Rattle.law_quiet.specs.Still.{IsStill};

/// In every run, each acknowledgement names the fact in the frame that it answers. Each action that may happen keeps this.
pub fn law_acknowledgements_name_frames()
    ensures first { AreNaming first }
    ensures step { (net : Network) (w : World) (a : Action) → IsNetwork net → Conserved net w → AreNaming w → is_enabled net w a ≡ true → AreNaming (step net w a).0 }
    ensures run { (net : Network) (actions : List Action) → IsNetwork net → IsRun net first actions → AreNaming (run net first actions) }
{}

/// In the first world every lane is still. So is each lane whose link and sender are up after four silent rounds. Nothing is in
/// flight on a lane that is still.
pub fn law_four_rounds_are_a_rest()
    ensures clear { (net : Network) (w : World) (f : FactValue) → IsStillAlong net w f → IsClearAlong net w f }
    ensures first { (net : Network) (l : LaneValue) → IsStill net first l }
    ensures rounds { (net : Network) (w after : World) (l : LaneValue) → IsNetwork net → Conserved net w → IsQuiet w → NoneAwaits w → AreSilent 4 net w after →
        is_lane net.site l ≡ true → w.link_up l.link ≡ true → w.up (sender net.site l) ≡ true → IsStill net after l }
{}

/// If nothing was in flight on the lanes of a fact's route, no manager started since, and each frame that was put since was
/// passed and heard, then one silent round is enough: the fact is delivered, a key, chunk or part is confirmed at its origin,
/// and the lanes are still. Premises: the route is open, and before the round no frame waits for its wire. The fact may have
/// been made since.
pub fn law_one_round_is_enough()
    ensures arrives { (net : Network) (earlier later : List Action) (after : World) (n : Name) (f : FactValue) → IsNetwork net → IsRested net earlier later f →
        IsQuiet (world_since net earlier later) → AreSilent 1 net (world_since net earlier later) after → fact_at (world_since net earlier later).durable.facts n ≡ Some f →
        IsOpen net (world_since net earlier later) f → IsDelivered after n f }
    ensures returns { (net : Network) (earlier later : List Action) (after : World) (n : Name) (f : FactValue) → IsNetwork net → IsRested net earlier later f →
        IsQuiet (world_since net earlier later) → AreSilent 1 net (world_since net earlier later) after → fact_at (world_since net earlier later).durable.facts n ≡ Some f →
        is_secret f ≡ true → IsOpen net (world_since net earlier later) f → IsBack net after n f }
    ensures rests { (net : Network) (earlier later : List Action) (after : World) (f : FactValue) → IsNetwork net → IsRested net earlier later f →
        IsQuiet (world_since net earlier later) → AreSilent 1 net (world_since net earlier later) after → IsOpen net (world_since net earlier later) f →
        IsQuiet after × IsStillAlong net after f }
{}

/// A scenario's form of this. The lanes of a fact's route are still, so nothing is in flight there, after the starts of all
/// declared nodes, and after four `settle` lines that report nothing if the route was open before them. Then come lines other
/// than `tick`, `start` and blocks, and none of their passes is refused. Then the first `settle` line that reports nothing is
/// enough. Premises: the route is open before this line, and `http` lines ask only for what GS QKD 014 has.
pub fn law_one_settle_is_enough()
    ensures begun { (http : HttpTexts) (net : Network) (workers : ℕ) (node_lines : List ℕ) (done : List Performed) (f : FactValue) → IsNetwork net →
        IsRunOf http net workers first (starts_from 0 node_lines) done → (report http net first (starts_from 0 node_lines) done).ending ≡ Whole →
        IsStillAlong net (world_before http net (starts_from 0 node_lines) done) f }
    ensures still { (http : HttpTexts) (net : Network) (workers : ℕ) (earlier settles : List Task) (done rest : List Performed) (f : FactValue) → IsNetwork net →
        AskRequests http earlier → EndsSilent http net workers 4 earlier settles done rest → IsOpen net (world_before http net earlier done) f →
        IsStillAlong net (world_after http net earlier settles done rest) f }
    ensures arrives { (http : HttpTexts) (net : Network) (workers : ℕ) (earlier later settles : List Task) (done more rest : List Performed) (n : Name) (f : FactValue) → IsNetwork net →
        AskRequests http (earlier ++ later) → KeepRest http net workers earlier later done more →
        EndsSilent http net workers 1 (earlier ++ later) settles (done ++ more) rest → IsClearAlong net (world_before http net earlier done) f →
        fact_at (world_before http net (earlier ++ later) (done ++ more)).durable.facts n ≡ Some f → IsOpen net (world_before http net (earlier ++ later) (done ++ more)) f →
        IsDelivered (world_after http net (earlier ++ later) settles (done ++ more) rest) n f }
    ensures returns { (http : HttpTexts) (net : Network) (workers : ℕ) (earlier later settles : List Task) (done more rest : List Performed) (n : Name) (f : FactValue) → IsNetwork net →
        AskRequests http (earlier ++ later) → KeepRest http net workers earlier later done more →
        EndsSilent http net workers 1 (earlier ++ later) settles (done ++ more) rest → IsClearAlong net (world_before http net earlier done) f →
        fact_at (world_before http net (earlier ++ later) (done ++ more)).durable.facts n ≡ Some f → is_secret f ≡ true →
        IsOpen net (world_before http net (earlier ++ later) (done ++ more)) f → IsBack net (world_after http net (earlier ++ later) settles (done ++ more) rest) n f }
    ensures rests { (http : HttpTexts) (net : Network) (workers : ℕ) (earlier later settles : List Task) (done more rest : List Performed) (f : FactValue) → IsNetwork net →
        AskRequests http (earlier ++ later) → KeepRest http net workers earlier later done more →
        EndsSilent http net workers 1 (earlier ++ later) settles (done ++ more) rest → IsClearAlong net (world_before http net earlier done) f →
        IsOpen net (world_before http net (earlier ++ later) (done ++ more)) f → IsStillAlong net (world_after http net (earlier ++ later) settles (done ++ more) rest) f }
{}
