// Laws of the bytes that a manager still needs: they stay needed until a later record touches their fact.
ghost use Rattle.std.specs.Prelude.{◌≡◌, ℕ, List, false, true, slice_get, Some};
ghost use Rattle.qkd_base.specs.Name.{Name};
ghost use Rattle.net_model.specs.declared.fact.Fact.{Fact as FactValue};
ghost use Rattle.net_model.specs.declared.record.Record.{Record as RecordValue};
ghost use Rattle.net_model.specs.Table.{without_bytes};
ghost use Rattle.net_model.specs.View.{View};
ghost use Rattle.net_model.specs.Needed.{is_needed, masked, masked_fact};
ghost use Rattle.net_model.specs.Fold.{view_records};
ghost use Rattle.law_base.specs.Touched.{IsLater, Grows, IsAlike, is_touched};

/// Whether a fact's bytes are needed doesn't depend on any bytes, neither on its own nor on those of other facts.
pub fn law_need_is_blind()
    ensures view { (a b : View) (f : FactValue) → IsAlike a b → is_needed a f ≡ is_needed b f }
    ensures fact { (v : View) (f : FactValue) → is_needed v (without_bytes f) ≡ is_needed v f }
{}

/// Masking a view twice is masking it once: bytes that are zeros stay zeros.
pub fn law_masked_twice()
    ensures { (v : View) → masked (masked v) ≡ masked v }
{}

/// Records only add to a view: more facts, more acknowledgements and more handings.
pub fn law_view_grows()
    ensures { (v : View) (records : List RecordValue) → Grows v (view_records records v) }
{}

/// A needed fact stays needed until one of these happens: it or a part of its group key is acknowledged; its key,
/// chunk or group key is handed out; or its stream is opened.
pub fn law_needed_stays()
    ensures { (before after : View) (facts : List FactValue) (acked : List Name) (handed : List (Name × ℕ)) (f : FactValue) → IsLater before after facts acked handed →
        is_touched before.facts facts acked handed f ≡ false → is_needed before f ≡ true → is_needed after f ≡ true }
{}

/// In a masked view, a fact that no later record touches stays as it is. So only new facts and touched facts have to
/// be masked again.
pub fn law_untouched_stays_masked()
    ensures { (before after : View) (facts : List FactValue) (acked : List Name) (handed : List (Name × ℕ)) (place : ℕ) (f : FactValue) → masked before ≡ before →
        IsLater before after facts acked handed → slice_get before.facts place ≡ Some f → is_touched before.facts facts acked handed f ≡ false →
        masked_fact after f ≡ f }
{}
