// Laws of repeated frames: however often a frame comes, a manager keeps one acknowledgement of it and its journal
ghost use Rattle.std.specs.Prelude.{◌≡◌, ◌≤◌, ◌+◌, ◌==◌, ℕ, Bool, false, List, [], length};
ghost use Rattle.std.specs.Set.{distinct_count};
ghost use Rattle.qkd_base.specs.Name.{Name};
ghost use Rattle.qkd_base.specs.Lane.{reverse_lane};
ghost use Rattle.qkd_base.specs.declared.lane.Lane.{Lane as LaneValue};
ghost use Rattle.net_model.specs.declared.event.Event.TheVariants.{Heard as HeardEvent};
ghost use Rattle.net_model.specs.declared.reply.Reply.TheVariants.{HeardFact as HeardFactReply};
ghost use Rattle.net_model.specs.Site.{Site};
ghost use Rattle.net_model.specs.Sealing.{Sealing};
ghost use Rattle.net_model.specs.View.{View};
ghost use Rattle.net_model.specs.World.{no_volatile};
ghost use Rattle.net_model.specs.Decision.{Does, Effect};
ghost use Rattle.net_model.specs.Decide.{decide};
ghost use Rattle.net_model.specs.Plan.{plan};
ghost use Rattle.law_safety.specs.Turns.{Turn, AreTurns, kept_behind, facts_on};
ghost use Rattle.law_safety.specs.Life.{Call, IsLife, kept, heard_on, acknowledgements_on, pending_on, AreOfPending};

/// In one life of a window, count the acknowledgements for a lane: those in the window and those still pending. They are
/// at most as many as the different offsets heard on the link's other lane, if plans acknowledge only what is pending.
pub fn law_acknowledgements_are_few()
    ensures { (l : LaneValue) (calls : List Call) → IsLife no_volatile calls →
        length (acknowledgements_on l (kept no_volatile calls)) + length (pending_on l (kept no_volatile calls))
        ≤ distinct_count (λ (a b : ℕ). a == b) (heard_on (reverse_lane l) calls) }
{}

/// A plan acknowledges only what is pending.
pub fn law_plans_acknowledge_what_is_pending()
    ensures { (site : Site) (is_up : ℕ → Bool) (v : View) → AreOfPending v.volatile (plan site is_up v).orders }
{}

/// The same bound holds in every life of a manager, whatever events it handles. The acknowledgements for a lane, in
/// the window or pending, are at most as many as the different offsets of the link's other lane at which facts came.
pub fn law_managers_acknowledge_an_offset_once()
    ensures { (site : Site) (frames : Sealing) (l : LaneValue) (turns : List Turn) → AreTurns site frames no_volatile turns →
        length (acknowledgements_on l (kept_behind no_volatile turns)) + length (pending_on l (kept_behind no_volatile turns))
        ≤ distinct_count (λ (a b : ℕ). a == b) (facts_on frames (reverse_lane l) turns) }
{}

/// A frame that tells nothing new makes no record, so the journal doesn't grow.
pub fn law_what_is_heard_again_adds_nothing()
    ensures { (site : Site) (frames : Sealing) (is_up : ℕ → Bool) (v : View) (random : List ℕ) (l : LaneValue) (octets : List ℕ) (e : Effect) (kind : ℕ) (n : Name) →
        decide site frames is_up v random (HeardEvent l octets) ≡ Does e → e.reply ≡ HeardFactReply false kind n → e.batch ≡ [] }
{}
