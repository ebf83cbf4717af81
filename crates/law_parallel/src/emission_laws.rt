// Laws of the frames that a block's plans order: which are still to be sent, and that all may get their bytes before
ghost use Rattle.std.specs.Prelude.{◌≡◌, ℕ, List, [], ◌∷◌, map, length, Some, true};
ghost use Rattle.net_model.specs.declared.order.Order.{Order as OrderValue};
ghost use Rattle.net_model.specs.declared.repeat.Repeat.{Repeat as RepeatValue};
ghost use Rattle.net_model.specs.Item.{payload};
ghost use Rattle.net_model.specs.World.{Network, World};
ghost use Rattle.net_model.specs.Premises.{IsNetwork};
ghost use Rattle.net_model.specs.Invariant.{Conserved};
ghost use Rattle.net_model.specs.Tick.{Emission, Again, New, item_in, ordered};
ghost use Rattle.net_model.specs.Action.{Environment, Allocate, Transmit, Complete};
ghost use Rattle.net_model.specs.Handle.{frame_at};
ghost use Rattle.net_model.specs.Step.{step, is_enabled, is_node, run, IsRun};
ghost use Rattle.run_model.specs.Works.{Work, actions_in, done_from};
ghost use Rattle.law_locality.specs.Quiet.{IsQuiet};
ghost use Rattle.law_locality.specs.Sending.{MayGoAgain};
ghost use Rattle.law_parallel.specs.Putting.{Putting, one_by_one, wanted_by, ClaimsComeFirst};
ghost use Rattle.law_parallel.specs.Remaining.{Remains, AreTheSame, AreTurns};

/// After the turns of the managers, just the frames that their plans order are still to be sent, in any sequence that
/// keeps the order on each lane. Premises: the network was quiet before, and the turns are those of a block.
pub fn law_turns_leave()
    ensures { (net : Network) (w : World) (works : List Work) (wanted : List (ℕ × Emission)) → IsNetwork net → Conserved net w → IsQuiet w → AreTurns net works →
        IsRun net w (actions_in works) → AreTheSame wanted (wanted_by (done_from net w works)) → Remains net (run net w (actions_in works)) (map (λ x. x.1) wanted) }
{}

/// If the next frame is a new order, it may be given its bytes, and its payload is the table's. After its frame was
/// put or refused, just the others are still to be sent.
pub fn law_order_goes_on()
    ensures enabled { (net : Network) (w : World) (o : OrderValue) (es : List Emission) → Remains net w (New o ∷ es) → is_enabled net w (Allocate (ordered o)) ≡ true }
    ensures spelled { (net : Network) (w : World) (o : OrderValue) (es : List Emission) → Remains net w (New o ∷ es) → payload w.durable.facts (item_in o.payload) ≡ Some o.payload }
    ensures goes { (net : Network) (w : World) (o : OrderValue) (es : List Emission) (environment : Environment) → IsNetwork net → Conserved net w →
        Remains net w (New o ∷ es) → Remains net (run net w (Allocate (ordered o) ∷ Transmit o.lane (length (w.frames o.lane)) environment ∷ [])) es }
{}

/// If the next frame is a repeat, it may be put. After it was put or refused, just the others are still to be sent.
pub fn law_repeat_goes_on()
    ensures may { (net : Network) (w : World) (r : RepeatValue) (es : List Emission) → Remains net w (Again r ∷ es) → MayGoAgain net w r }
    ensures enabled { (net : Network) (w : World) (r : RepeatValue) (es : List Emission) (environment : Environment) → Remains net w (Again r ∷ es) →
        is_enabled net w (Transmit r.lane (frame_at (w.frames r.lane) r.offset) environment) ≡ true }
    ensures goes { (net : Network) (w : World) (r : RepeatValue) (es : List Emission) (environment : Environment) → IsNetwork net → Conserved net w →
        Remains net w (Again r ∷ es) → Remains net (step net w (Transmit r.lane (frame_at (w.frames r.lane) r.offset) environment)).0 es }
{}

/// When no frame is left to be sent, each manager may be told what became of its frames.
pub fn law_none_remains()
    ensures { (net : Network) (w : World) (v : ℕ) → Remains net w [] → is_node net v ≡ true → is_enabled net w (Complete v) ≡ true }
{}

/// Sending the frames one after another leads to the same world, with the same reports, as first claiming bytes for
/// all of them and then putting all of them.
pub fn law_claims_come_first()
    ensures { (net : Network) (w : World) (ps : List Putting) → IsNetwork net → Conserved net w → Remains net w (map (λ p. p.emission) ps) →
        IsRun net w (actions_in (one_by_one net w ps)) → ClaimsComeFirst net w ps }
{}
