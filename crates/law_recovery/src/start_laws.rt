// Laws of a start: what each possible answer to it makes of the node.
ghost use Rattle.std.specs.Prelude.{◌≡◌, ℕ, Bool, true, Some, None};
ghost use Rattle.net_model.specs.World.{Network, World};
ghost use Rattle.net_model.specs.Journal.{is_blank};
ghost use Rattle.net_model.specs.Start.{may_resolve, resolved_journal};
ghost use Rattle.net_model.specs.Action.{Start, Recovers, Resumes, Interrupted, NoMemory, Foreign, StartMemory, ForeignAt};
ghost use Rattle.net_model.specs.Step.{step, IsStep};
ghost use Rattle.law_recovery.specs.Starting.{resolved_view, MayCheckpoint, checkpoint_of, MayStart, Starts, Stops};

/// A start that succeeds goes on with the journal that it finds. That is the node's own journal, with the batch in
/// doubt or without it, or the checkpoint that an interrupted start made. The manager then sees what the journal
/// gives back, and a checkpoint is made where one is due.
pub fn law_start_succeeds()
    ensures recovers { (net : Network) (w : World) (v : ℕ) (committed : Bool) → MayStart net w v → may_resolve (w.in_doubt v) committed ≡ true →
        Starts net w v (Recovers committed) (resolved_journal w v committed) (resolved_view net w v committed) }
    ensures resumes { (net : Network) (w : World) (v : ℕ) (committed : Bool) → MayStart net w v → w.interrupted v ≡ true → MayCheckpoint net w v committed →
        Starts net w v (Resumes committed) (checkpoint_of net w v committed) (resolved_view net w v committed) }
{}

/// An interrupted start keeps the journal and the doubt, and notes the interruption. If it turns out that a
/// checkpoint was made, the journal is that checkpoint, which settles the doubt.
pub fn law_start_stops()
    ensures unsettled { (net : Network) (w : World) (v : ℕ) → MayStart net w v → Stops net w v (Interrupted None)
        × ((step net w (Start v (Interrupted None))).0.journal v ≡ w.journal v)
        × ((step net w (Start v (Interrupted None))).0.in_doubt v ≡ w.in_doubt v)
        × ((step net w (Start v (Interrupted None))).0.interrupted v ≡ true) }
    ensures settled { (net : Network) (w : World) (v : ℕ) (committed : Bool) → MayStart net w v → MayCheckpoint net w v committed →
        Stops net w v (Interrupted (Some committed))
        × ((step net w (Start v (Interrupted (Some committed)))).0.journal v ≡ checkpoint_of net w v committed)
        × ((step net w (Start v (Interrupted (Some committed)))).0.in_doubt v ≡ record (w.in_doubt v) { checkpointed = Some committed })
        × ((step net w (Start v (Interrupted (Some committed)))).0.interrupted v ≡ w.interrupted v) }
{}

/// A start that lacks memory changes nothing. Neither does one that calls the disk foreign, since an interrupted start
/// left only a header there.
pub fn law_start_refuses()
    ensures memory { (net : Network) (w : World) (v : ℕ) → MayStart net w v → IsStep net w (Start v NoMemory) × (step net w (Start v NoMemory) ≡ (w, StartMemory)) }
    ensures foreign { (net : Network) (w : World) (v : ℕ) → MayStart net w v → is_blank (w.journal v) ≡ true → w.interrupted v ≡ true →
        IsStep net w (Start v Foreign) × (step net w (Start v Foreign) ≡ (w, ForeignAt 16)) }
{}
