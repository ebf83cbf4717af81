// Laws of one lane: after four plans that put nothing there, nothing is owed and nothing in flight there.
ghost use Rattle.std.specs.Prelude.{◌≡◌, ◌+◌, ◌&&◌, ℕ, List, true, false};
ghost use Rattle.qkd_base.specs.Name.{Name};
ghost use Rattle.qkd_base.specs.Lane.{lane_eq};
ghost use Rattle.qkd_base.specs.declared.lane.Lane.{Lane as LaneValue};
ghost use Rattle.net_model.specs.declared.placing.Placing.{Placing as PlacingValue};
ghost use Rattle.net_model.specs.Site.{sender};
ghost use Rattle.net_model.specs.World.{Network, World, Volatile};
ghost use Rattle.net_model.specs.Needed.{view_of};
ghost use Rattle.net_model.specs.Window.{acknowledge, cleared, complete_one};
ghost use Rattle.net_model.specs.Plan.{plan};
ghost use Rattle.net_model.specs.Invariant.{Conserved};
ghost use Rattle.law_quiet.specs.Still.{PutsNothing, none_awaits, in_flight_for, IsStill};

/// A plan that puts nothing on a lane makes what is in flight there one tick older, from age 0 on.
pub fn law_older()
    ensures first { (l : LaneValue) (vol : Volatile) → in_flight_for 0 l vol ≡ true }
    ensures older { (net : Network) (w : World) (l : LaneValue) (k : ℕ) → PutsNothing net w l →
        in_flight_for k l (w.volatile (sender net.site l)) ≡ true →
        in_flight_for (k + 1) l (plan net.site w.link_up (view_of net w (sender net.site l))).volatile ≡ true }
{}

/// In between, what is in flight on a lane stays as old: while frames and acknowledgements come, and while the manager is
/// told of its frames, but for new ones on this lane.
pub fn law_flight_stays()
    ensures heard { (l m : LaneValue) (k offset : ℕ) (n : Name) (vol : Volatile) → in_flight_for k l vol ≡ true → in_flight_for k l (acknowledge vol m offset n) ≡ true }
    ensures answered { (l m : LaneValue) (k : ℕ) (n : Name) (vol : Volatile) → in_flight_for k l vol ≡ true →
        in_flight_for k l (record vol { window = cleared m n vol.window }) ≡ true }
    ensures noted { (l : LaneValue) (k : ℕ) (acked : List Name) (p : PlacingValue) (vol : Volatile) → in_flight_for k l vol ≡ true →
        (p.fresh && lane_eq p.lane l) ≡ false → in_flight_for k l (complete_one acked vol p) ≡ true }
{}

/// A lane is still if a plan puts nothing there, no order for it awaits its placing, and three plans came since the facts
/// in flight there were put.
pub fn law_still()
    ensures { (net : Network) (w : World) (l : LaneValue) → Conserved net w → PutsNothing net w l → none_awaits l (w.volatile (sender net.site l)) ≡ true →
        in_flight_for 3 l (w.volatile (sender net.site l)) ≡ true → IsStill net w l }
{}
