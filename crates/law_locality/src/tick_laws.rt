// Laws of a tick: the frames that a plan orders are sent one after another, and then the manager is told of them.
ghost use Rattle.std.specs.Prelude.{◌≡◌, ℕ, List, [], ◌∷◌, length, Some, true};
ghost use Rattle.net_model.specs.declared.order.Order.{Order as OrderValue};
ghost use Rattle.net_model.specs.declared.repeat.Repeat.{Repeat as RepeatValue};
ghost use Rattle.net_model.specs.declared.short_of.ShortOf.{ShortOf as ShortValue};
ghost use Rattle.net_model.specs.declared.event.Event.TheVariants.{Plan};
ghost use Rattle.net_model.specs.declared.reply.Reply.TheVariants.{Planned};
ghost use Rattle.net_model.specs.Item.{payload};
ghost use Rattle.net_model.specs.Site.{outgoing_lanes};
ghost use Rattle.net_model.specs.World.{Network, World};
ghost use Rattle.net_model.specs.Premises.{IsNetwork};
ghost use Rattle.net_model.specs.Tick.{Emission, Again, New, tick_order, item_in, ordered};
ghost use Rattle.net_model.specs.Action.{Environment, Ask, Allocate, Transmit, Complete, Replies};
ghost use Rattle.net_model.specs.Handle.{frame_at};
ghost use Rattle.net_model.specs.Step.{step, is_enabled, IsStep, run};
ghost use Rattle.net_model.specs.Invariant.{Conserved};
ghost use Rattle.law_locality.specs.Quiet.{IsQuiet};
ghost use Rattle.law_locality.specs.Sending.{Sends, MayGoAgain};

/// If the manager replies with a plan, just the plan's repeats and new orders wait to be sent, lane by lane in the
/// order of the tick. After any other answer the network is as quiet as before. No manager has a note waiting in
/// either case. Premise: the network was quiet before. A plan has further premises: `IsNetwork` and `Conserved` hold,
/// and it may be asked for.
pub fn law_plan_sends()
    ensures planned { (net : Network) (w : World) (v : ℕ) (environment : Environment) (orders : List OrderValue) (repeats : List RepeatValue) (shorts : List ShortValue) →
        IsNetwork net → Conserved net w → IsQuiet w → IsStep net w (Ask v Plan environment) →
        (step net w (Ask v Plan environment)).1 ≡ Replies (Planned orders repeats shorts) →
        Sends net (step net w (Ask v Plan environment)).0 v (tick_order (outgoing_lanes net.site v) repeats orders) }
    ensures noted { (net : Network) (w : World) (v : ℕ) (environment : Environment) (u : ℕ) → IsQuiet w →
        (step net w (Ask v Plan environment)).0.placings u ≡ [] }
    ensures otherwise { (net : Network) (w : World) (v : ℕ) (environment : Environment) → IsQuiet w →
        ((orders : List OrderValue) (repeats : List RepeatValue) (shorts : List ShortValue) →
        (step net w (Ask v Plan environment)).1 ≡ Replies (Planned orders repeats shorts) → ⊥) → IsQuiet (step net w (Ask v Plan environment)).0 }
{}

/// If the next frame is a new order, it may be given its bytes, and its payload is the table's. After its frame was
/// put or refused, just the others wait to be sent. This last claim has the premises that `IsNetwork` and `Conserved`
/// hold.
pub fn law_order_goes()
    ensures enabled { (net : Network) (w : World) (v : ℕ) (o : OrderValue) (es : List Emission) → Sends net w v (New o ∷ es) →
        is_enabled net w (Allocate (ordered o)) ≡ true }
    ensures spelled { (net : Network) (w : World) (v : ℕ) (o : OrderValue) (es : List Emission) → Sends net w v (New o ∷ es) →
        payload w.durable.facts (item_in o.payload) ≡ Some o.payload }
    ensures goes { (net : Network) (w : World) (v : ℕ) (o : OrderValue) (es : List Emission) (environment : Environment) → IsNetwork net → Conserved net w →
        Sends net w v (New o ∷ es) → Sends net (run net w (Allocate (ordered o) ∷ Transmit o.lane (length (w.frames o.lane)) environment ∷ [])) v es }
{}

/// If the next frame is a repeat, it may be put. After it was put or refused, just the others wait to be sent. The
/// premises are those for a new order.
pub fn law_repeat_goes()
    ensures may { (net : Network) (w : World) (v : ℕ) (r : RepeatValue) (es : List Emission) → Sends net w v (Again r ∷ es) → MayGoAgain net w r }
    ensures enabled { (net : Network) (w : World) (v : ℕ) (r : RepeatValue) (es : List Emission) (environment : Environment) → Sends net w v (Again r ∷ es) →
        is_enabled net w (Transmit r.lane (frame_at (w.frames r.lane) r.offset) environment) ≡ true }
    ensures goes { (net : Network) (w : World) (v : ℕ) (r : RepeatValue) (es : List Emission) (environment : Environment) → IsNetwork net → Conserved net w →
        Sends net w v (Again r ∷ es) → Sends net (step net w (Transmit r.lane (frame_at (w.frames r.lane) r.offset) environment)).0 v es }
{}

/// After all frames were sent, the manager may be told of them, and then the network is quiet.
pub fn law_sent_completes()
    ensures enabled { (net : Network) (w : World) (v : ℕ) → Sends net w v [] → is_enabled net w (Complete v) ≡ true }
    ensures quiet { (net : Network) (w : World) (v : ℕ) → Sends net w v [] → IsQuiet (step net w (Complete v)).0 }
{}
