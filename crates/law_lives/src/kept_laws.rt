// The laws of folders: views that belong to one network have a world, in which a life may begin, and what a life leaves
// has such views.
ghost use Rattle.std.specs.Prelude.{◌≡◌, ◌<◌, ◌++◌, ℕ, true, false, List, [], length, slice_get, Option, Some};
ghost use Rattle.qkd_base.specs.Name.{Name};
ghost use Rattle.net_model.specs.declared.fact.Fact.{Fact};
ghost use Rattle.net_model.specs.declared.record.Record.{Record};
ghost use Rattle.net_model.specs.Table.{fact_at, is_secret};
ghost use Rattle.net_model.specs.OctetSequence.{OctetSequence, sequence_of, first_blocks};
ghost use Rattle.net_model.specs.Sealing.{Sealing, IsSealing};
ghost use Rattle.net_model.specs.Site.{Site};
ghost use Rattle.net_model.specs.World.{Network, World, Journal, first};
ghost use Rattle.net_model.specs.Journal.{is_blank};
ghost use Rattle.net_model.specs.View.{View, Port};
ghost use Rattle.net_model.specs.Needed.{is_needed, view_of};
ghost use Rattle.net_model.specs.Fold.{recovered_view};
ghost use Rattle.net_model.specs.Premises.{IsSite, IsOctetSequence, IsNetwork};
ghost use Rattle.net_model.specs.Action.{Action};
ghost use Rattle.net_model.specs.Step.{IsRun};
ghost use Rattle.net_model.specs.Invariant.{IsJournal, Conserved};
ghost use Rattle.run_types.specs.declared.scenario.Scenario.{Scenario};
ghost use Rattle.run_model.specs.Begin.{MayBegin};
ghost use Rattle.run_model.specs.Turn.{HttpTexts};
ghost use Rattle.run_model.specs.Bench.{DiskBatches, Seen};
ghost use Rattle.run_model.specs.Course.{Words, Course, last_world};
ghost use Rattle.run_model.specs.Headline.{Stop, Given, Headline};
ghost use Rattle.law_safety.specs.Places.{ArePlaced};
ghost use Rattle.law_lives.specs.Belongs.{view_in, IsLike, AreRead, Belongs, NothingBehind};
ghost use Rattle.law_lives.specs.KeptWorld.{kept_table, spelled, kept_network, kept_world};
ghost use Rattle.law_lives.specs.Left.{AreLeft, AreCurrent};

/// The table of a folder's journals, whose views belong to one network. It has each node's facts, but for bytes that the
/// node doesn't need. Where a node needs the bytes of a fact, the table has the node's fact. This is for folders of
/// journals that a life begins from; no call reads one yet.
pub fn law_kept_table()
    ensures like { (s : Site) (batches : ℕ → List (List Record)) (devices : ℕ → OctetSequence) (views : List View) → AreRead s batches views → Belongs s devices views →
        (v : ℕ) (n : Name) (f : Fact) → fact_at (view_in views v).facts n ≡ Some f → IsLike f (fact_at (kept_table views) n) }
    ensures needed { (s : Site) (batches : ℕ → List (List Record)) (devices : ℕ → OctetSequence) (views : List View) → AreRead s batches views → Belongs s devices views →
        (v : ℕ) (n : Name) (f : Fact) → fact_at (view_in views v).facts n ≡ Some f → is_secret f ≡ true → is_needed (view_in views v) f ≡ true →
        fact_at (kept_table views) n ≡ Some f }
{}

/// If the views that journals give back belong to one network, a life may begin in the world that is made of them, and this
/// gives each view back. Its network is one, if the site, the frames and the octets that are told are. Each entropy gives the
/// secrets that its node made, and then what it is told to give. No two of these share an octet there. Where all journals are of the version that is written now,
/// and a blank one has no batch, they are current. This is for folders of journals that a life begins from; no call reads one
/// yet.
pub fn law_kept_world_begins()
    ensures begins { (s : Site) (sealing : Sealing) (devices entropies : ℕ → OctetSequence) (batches : ℕ → List (List Record)) (views : List View) (journals : ℕ → Journal) →
        AreRead s batches views → Belongs s devices views → ((v : ℕ) → IsJournal (journals v)) →
        MayBegin (kept_network s sealing devices entropies views) (kept_world s views journals) }
    ensures given { (s : Site) (sealing : Sealing) (devices entropies : ℕ → OctetSequence) (batches : ℕ → List (List Record)) (views : List View) (journals : ℕ → Journal) →
        AreRead s batches views → Belongs s devices views → (v : ℕ) → v < s.nodes →
        view_of (kept_network s sealing devices entropies views) (kept_world s views journals) v ≡ view_in views v }
    ensures network { (s : Site) (sealing : Sealing) (devices entropies : ℕ → OctetSequence) (batches : ℕ → List (List Record)) (views : List View) →
        AreRead s batches views → Belongs s devices views → IsSite s → IsSealing sealing → ((link : ℕ) → IsOctetSequence (devices link)) →
        ((v : ℕ) → IsOctetSequence (entropies v)) → IsNetwork (kept_network s sealing devices entropies views) }
    ensures entropies { (s : Site) (sealing : Sealing) (devices : ℕ → OctetSequence) (told : ℕ → List ℕ) (views : List View) (v : ℕ) →
        (kept_network s sealing devices (λ u. sequence_of (told u)) views).entropy v ≡ sequence_of (spelled v (kept_table views) ++ told v) }
    ensures placed { (s : Site) (sealing : Sealing) (devices entropies : ℕ → OctetSequence) (batches : ℕ → List (List Record)) (views : List View) (journals : ℕ → Journal) →
        AreRead s batches views → Belongs s devices views → ArePlaced (kept_network s sealing devices entropies views) (kept_world s views journals) }
    ensures current { (s : Site) (sealing : Sealing) (devices entropies : ℕ → OctetSequence) (batches : ℕ → List (List Record)) (views : List View) (journals : ℕ → Journal) →
        AreRead s batches views → Belongs s devices views → ((v : ℕ) → (journals v).version ≡ 2) → ((v : ℕ) → is_blank (journals v) ≡ true → batches v ≡ []) →
        AreCurrent (kept_network s sealing devices entropies views) (kept_world s views journals) }
{}

/// The views of what a run leaves on its disks belong to one network, whatever images are read, if they did where it began:
/// so of each folder that a life leaves, the conditions hold. They hold of any views that journals give back, if a conserved
/// world has these views. Nothing is known at numbers that no node has: so it is before any start, and in the world that a
/// folder's journals stand for. Devices may have given more since. This is for folders of journals; no call reads one yet.
pub fn law_left_views_belong()
    ensures world { (net : Network) (w : World) (batches : ℕ → List (List Record)) (views : List View) → Conserved net w → NothingBehind net w → AreRead net.site batches views →
        ((v : ℕ) → v < net.site.nodes → view_of net w v ≡ recovered_view net.site v (batches v)) → Belongs net.site net.device views }
    ensures left { (net : Network) (begin : World) (actions : List Action) (images : ℕ → List (List Record)) (views : List View) → IsNetwork net → MayBegin net begin →
        AreCurrent net begin → NothingBehind net begin → IsRun net begin actions → AreLeft net begin actions images → AreRead net.site images views →
        Belongs net.site net.device views }
    ensures seen { (words : Words) (stop : Stop) (http : HttpTexts) (reading : DiskBatches) (scenario : Scenario) (seen : Seen) (old new : Given) (c : Course)
        (images : ℕ → List (List Record)) (views : List View) → Headline words stop http reading scenario seen old new c → AreCurrent c.net c.begin → NothingBehind c.net c.begin →
        ((v : ℕ) → v < c.net.site.nodes → is_blank ((last_world c).journal v) ≡ false → reading (seen.disk v) ≡ Some (images v)) →
        ((v : ℕ) → v < c.net.site.nodes → is_blank ((last_world c).journal v) ≡ true → images v ≡ []) → AreRead c.net.site images views → Belongs c.net.site c.net.device views }
    ensures more { (s : Site) (earlier later : ℕ → OctetSequence) (views : List View) → Belongs s earlier views →
        ((v k : ℕ) (p : Port) → slice_get (view_in views v).ports k ≡ Some p → first_blocks (later p.lane.link) (length p.blocks) ≡ first_blocks (earlier p.lane.link) (length p.blocks)) →
        Belongs s later views }
    ensures first { (net : Network) → NothingBehind net first }
    ensures kept { (s : Site) (sealing : Sealing) (devices entropies : ℕ → OctetSequence) (batches : ℕ → List (List Record)) (views : List View) (journals : ℕ → Journal) →
        AreRead s batches views → NothingBehind (kept_network s sealing devices entropies views) (kept_world s views journals) }
{}
