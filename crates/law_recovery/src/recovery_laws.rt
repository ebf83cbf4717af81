// Laws of recovery: in every run, each manager has a journal that gives it back, and a start goes on from there.
ghost use Rattle.std.specs.Prelude.{◌≡◌, ℕ, Bool, false, true, List, [], Some, if◌then◌else◌};
ghost use Rattle.net_model.specs.declared.record.Record.{Record};
ghost use Rattle.net_model.specs.World.{Network, World, first};
ghost use Rattle.net_model.specs.Invariant.{Conserved};
ghost use Rattle.net_model.specs.Premises.{IsNetwork};
ghost use Rattle.net_model.specs.Action.{Action, Start, Recovers, Resumes};
ghost use Rattle.net_model.specs.Step.{step, is_enabled, run, IsRun};
ghost use Rattle.net_model.specs.Needed.{view_of};
ghost use Rattle.net_model.specs.Journal.{checkpoint_batches, checkpoint_need};
ghost use Rattle.net_model.specs.Start.{need_at, resolved, interrupted_start};
ghost use Rattle.net_model.specs.Fold.{view_batch, view_restarted};
ghost use Rattle.law_recovery.specs.GivesBack.{GivesBack};
ghost use Rattle.law_recovery.specs.Saved.{Moves, DoubtsFit};

/// In each step, a node's journal does one of three things. It gives back the same manager. Or it does so and the
/// batch in doubt changes: another one that fits, or none. Or one batch is added to it, and nothing is in doubt.
pub fn law_step_moves_journals()
    ensures { (net : Network) (w : World) (a : Action) → IsNetwork net → Conserved net w → DoubtsFit net w → is_enabled net w a ≡ true →
        (v : ℕ) → Moves net w (step net w a).0 v }
{}

/// In every run, each batch in doubt fits the view of its manager. The run may begin in any world that has the conserved
/// properties and where this holds, as before any start.
pub fn law_doubts_fit()
    ensures first { (net : Network) → DoubtsFit net first }
    ensures step { (net : Network) (w : World) (a : Action) → IsNetwork net → Conserved net w → DoubtsFit net w → is_enabled net w a ≡ true → DoubtsFit net (step net w a).0 }
    ensures run { (net : Network) (w : World) (actions : List Action) → IsNetwork net → Conserved net w → DoubtsFit net w → IsRun net w actions →
        DoubtsFit net (run net w actions) }
{}

/// After a start in a run, each lane goes on at its leased end, and the memory is empty. Otherwise the manager sees
/// what it saw before, with the batch in doubt if that was committed. The same holds of a start that finds the
/// checkpoint of an interrupted one. The run may begin as in `law_doubts_fit`.
pub fn law_start_goes_on_in_a_run()
    ensures recovers { (net : Network) (w : World) (actions : List Action) (v : ℕ) (committed : Bool) → IsNetwork net → Conserved net w → DoubtsFit net w → IsRun net w actions →
        (run net w actions).up v ≡ false → is_enabled net (run net w actions) (Start v (Recovers committed)) ≡ true →
        view_of net (step net (run net w actions) (Start v (Recovers committed))).0 v ≡
        view_restarted (if committed then view_batch (view_of net (run net w actions) v) ((run net w actions).in_doubt v).batch else view_of net (run net w actions) v) }
    ensures resumes { (net : Network) (w : World) (actions : List Action) (v : ℕ) (committed : Bool) → IsNetwork net → Conserved net w → DoubtsFit net w → IsRun net w actions →
        (run net w actions).up v ≡ false → is_enabled net (run net w actions) (Start v (Resumes committed)) ≡ true →
        view_of net (step net (run net w actions) (Start v (Resumes committed))).0 v ≡
        view_restarted (if committed then view_batch (view_of net (run net w actions) v) ((run net w actions).in_doubt v).batch else view_of net (run net w actions) v) }
{}

/// If a manager has a journal that gives it back, it has one after every run, which may begin as in `law_doubts_fit`. A
/// checkpoint of its view is such a journal. Before any start, the empty journal gives every manager back.
pub fn law_run_is_given_back()
    ensures first { (net : Network) (v : ℕ) → GivesBack net.site v [] (view_of net first v) }
    ensures journal { (net : Network) (w : World) (actions : List Action) (v : ℕ) (before : List (List Record)) → IsNetwork net → Conserved net w → DoubtsFit net w →
        GivesBack net.site v before (view_of net w v) → IsRun net w actions →
        (batches : List (List Record)) × GivesBack net.site v batches (view_of net (run net w actions) v) }
    ensures checkpoint { (net : Network) (w : World) (actions : List Action) (v : ℕ) (before : List (List Record)) → IsNetwork net → Conserved net w → DoubtsFit net w →
        GivesBack net.site v before (view_of net w v) → IsRun net w actions →
        GivesBack net.site v (checkpoint_batches (view_of net (run net w actions) v)) (view_of net (run net w actions) v) }
{}

/// The checkpoint that a start may make has the size that the started manager computes for it. The same holds of a
/// checkpoint that a start finds.
pub fn law_start_checkpoints_what_it_gives_back()
    ensures recovers { (net : Network) (w : World) (v : ℕ) (committed : Bool) → Conserved net w → w.up v ≡ false → is_enabled net w (Start v (Recovers committed)) ≡ true →
        need_at net (resolved net.site w v committed) v ≡ checkpoint_need (view_of net (step net w (Start v (Recovers committed))).0 v) }
    ensures found { (net : Network) (w : World) (v : ℕ) (committed : Bool) → Conserved net w → w.up v ≡ false → is_enabled net w (Start v (Resumes committed)) ≡ true →
        need_at net (resolved net.site w v committed) v ≡ checkpoint_need (view_of net (step net w (Start v (Resumes committed))).0 v) }
    ensures resumes { (net : Network) (w : World) (v : ℕ) (committed : Bool) → Conserved net w → w.up v ≡ false → is_enabled net w (Start v (Resumes committed)) ≡ true →
        need_at net (resolved net.site (interrupted_start net w v (Some committed)) v committed) v ≡
        checkpoint_need (view_of net (step net w (Start v (Resumes committed))).0 v) }
{}
