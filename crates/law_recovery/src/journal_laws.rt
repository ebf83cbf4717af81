// Laws of journals: at a start, a manager's journal gives back what the manager was, and so does a checkpoint of it.
ghost use Rattle.std.specs.Prelude.{◌≡◌, ℕ, true, List, [], ◌∷◌, ◌++◌, slice_get, Some};
ghost use Rattle.net_model.specs.declared.record.Record.{Record};
ghost use Rattle.net_model.specs.declared.fact.Fact.{Fact};
ghost use Rattle.net_model.specs.declared.record.Record.TheVariants.{Bare};
ghost use Rattle.net_model.specs.Table.{is_secret, bytes_of, zeros_for};
ghost use Rattle.net_model.specs.Site.{Site};
ghost use Rattle.net_model.specs.World.{Volatile};
ghost use Rattle.net_model.specs.View.{View};
ghost use Rattle.net_model.specs.Decision.{Effect};
ghost use Rattle.net_model.specs.Journal.{checkpoint_records, checkpoint_batches, checkpoint_need};
ghost use Rattle.net_model.specs.Fold.{empty_view, view_after, view_batch, view_batches, view_restarted, recovered_view};
ghost use Rattle.law_recovery.specs.GivesBack.{GivesBack};

/// A journal without batches gives back an empty manager.
pub fn law_empty_journal_gives_back()
    ensures { (site : Site) (me : ℕ) → recovered_view site me [] ≡ empty_view site me }
{}

/// Reading one more batch applies it to what the other batches gave back. This holds for reading batch by batch with
/// one start at the end, and with a start after each batch.
pub fn law_one_batch_more()
    ensures read { (v : View) (batches : List (List Record)) (batch : List Record) →
        view_batches v (batches ++ batch ∷ []) ≡ view_batch (view_batches v batches) batch }
    ensures started { (site : Site) (me : ℕ) (batches : List (List Record)) (batch : List Record) →
        recovered_view site me (batches ++ batch ∷ []) ≡ view_restarted (view_batch (recovered_view site me batches) batch) }
{}

/// The manager that a start reads from batches is given back by these batches.
pub fn law_started_is_given_back()
    ensures { (site : Site) (me : ℕ) (batches : List (List Record)) → GivesBack site me batches (recovered_view site me batches) }
{}

/// After a manager appended the batch of an effect to its journal, the journal gives back the manager after the
/// effect. If the effect has no batch, nothing is appended.
pub fn law_effect_is_given_back()
    ensures appended { (site : Site) (me : ℕ) (batches : List (List Record)) (v : View) (e : Effect) → GivesBack site me batches v →
        GivesBack site me (batches ++ e.batch ∷ []) (view_after v e) }
    ensures nothing { (site : Site) (me : ℕ) (batches : List (List Record)) (v : View) (e : Effect) → e.batch ≡ [] → GivesBack site me batches v →
        GivesBack site me batches (view_after v e) }
{}

/// The same holds of a batch in doubt that a start finds in the journal.
pub fn law_batch_is_given_back()
    ensures { (site : Site) (me : ℕ) (batches : List (List Record)) (v : View) (batch : List Record) → GivesBack site me batches v →
        GivesBack site me (batches ++ batch ∷ []) (view_batch v batch) }
{}

/// The memory of a manager is in no journal. So a manager that stops or crashes is given back as before, and so is
/// one that was just started.
pub fn law_life_is_not_given_back()
    ensures lost { (site : Site) (me : ℕ) (batches : List (List Record)) (v : View) (life : Volatile) → GivesBack site me batches v →
        GivesBack site me batches (record v { volatile = life }) }
    ensures started { (site : Site) (me : ℕ) (batches : List (List Record)) (v : View) → GivesBack site me batches v → GivesBack site me batches (view_restarted v) }
{}

/// A checkpoint gives back what its journal gives back: blocks, leases, facts and marks. It leaves out the bytes of a
/// fact only if they are zeros.
pub fn law_checkpoint_gives_back()
    ensures back { (site : Site) (me : ℕ) (batches : List (List Record)) (v : View) → GivesBack site me batches v → GivesBack site me (checkpoint_batches v) v }
    ensures bare { (site : Site) (me : ℕ) (batches : List (List Record)) (v : View) → GivesBack site me batches v → (k : ℕ) (f : Fact) →
        slice_get (checkpoint_records v) k ≡ Some (Bare f) → (is_secret f ≡ true) × (bytes_of f ≡ zeros_for (bytes_of f)) }
{}

/// A checkpoint depends only on what a start gives back. If that is equal for two views, so are the checkpoint's
/// batches and its size.
pub fn law_checkpoint_is_of_what_is_given_back()
    ensures batches { (a b : View) → view_restarted a ≡ view_restarted b → checkpoint_batches a ≡ checkpoint_batches b }
    ensures need { (a b : View) → view_restarted a ≡ view_restarted b → checkpoint_need a ≡ checkpoint_need b }
{}
