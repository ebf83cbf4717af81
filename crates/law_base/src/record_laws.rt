// Laws of durable records: replaying a permitted batch keeps the network's invariant and only adds facts.
ghost use Rattle.std.specs.Prelude.{◌≡◌, ◌≢◌, ◌≤◌, ℕ, Bool, true, List, Some};
ghost use Rattle.qkd_base.specs.Name.{Name, has};
ghost use Rattle.qkd_base.specs.declared.lane.Lane.{Lane};
ghost use Rattle.net_model.specs.declared.fact.Fact.{Fact};
ghost use Rattle.net_model.specs.declared.record.Record.{Record};
ghost use Rattle.net_model.specs.Table.{fact_at};
ghost use Rattle.net_model.specs.Site.{Site, count_up};
ghost use Rattle.net_model.specs.World.{World, Durable, Allocation, Transmission};
ghost use Rattle.net_model.specs.Records.{replay};
ghost use Rattle.net_model.specs.Doubt.{MayReplay};
ghost use Rattle.net_model.specs.Invariant.{Invariant, with_doubts};

/// Replaying a permitted batch keeps the invariant.
pub fn law_records_keep()
    ensures { (s : Site) (d : Durable) (frames : Lane → List Allocation) (unclaimed : Lane → List Transmission) → Invariant s d frames unclaimed →
        (v : ℕ) (batch : List Record) → MayReplay s d v batch → Invariant s (replay s v batch d) frames unclaimed }
{}

/// Records only add facts: no fact is changed or lost, and no node forgets one.
pub fn law_records_add()
    ensures facts { (s : Site) (d : Durable) (v : ℕ) (batch : List Record) (n : Name) (f : Fact) → fact_at d.facts n ≡ Some f →
        fact_at (replay s v batch d).facts n ≡ Some f }
    ensures known { (s : Site) (d : Durable) (v : ℕ) (batch : List Record) (u : ℕ) (n : Name) → has (d.known u) n ≡ true →
        has ((replay s v batch d).known u) n ≡ true }
{}

/// A batch that a node may replay stays permitted after another node replayed one of its own.
pub fn law_doubts_stay()
    ensures { (s : Site) (d : Durable) (frames : Lane → List Allocation) (unclaimed : Lane → List Transmission) → Invariant s d frames unclaimed →
        (u v : ℕ) → u ≢ v → (other batch : List Record) → MayReplay s d v other → MayReplay s d u batch → MayReplay s (replay s v other d) u batch }
{}

/// The invariant holds for every choice of which batches in doubt were made durable.
pub fn law_doubts_made()
    ensures { (s : Site) (w : World) → Invariant s w.durable w.frames w.unclaimed → ((v : ℕ) → MayReplay s w.durable v (w.in_doubt v).batch) →
        (made : ℕ → Bool) (n : ℕ) → Invariant s (with_doubts s w made (count_up n) w.durable) w.frames w.unclaimed }
{}

/// No end of a link gets more than 1,024 blocks of bytes.
pub fn law_blocks_few()
    ensures { (s : Site) (d : Durable) (v : ℕ) (batch : List Record) → MayReplay s d v batch → ((l : Lane) → d.blocks l ≤ 1024) →
        (l : Lane) → (replay s v batch d).blocks l ≤ 1024 }
{}
