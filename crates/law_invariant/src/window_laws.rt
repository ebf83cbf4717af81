// Laws of plans and windows: plans keep within the bytes received, and each received frame has one acknowledgement.
ghost use Rattle.std.specs.Prelude.{◌≡◌, ℕ, List, [], ◌∷◌, ◌++◌, true, slice_get, Some};
ghost use Rattle.qkd_base.specs.Name.{Name, has};
ghost use Rattle.qkd_base.specs.Lane.{reverse_lane};
ghost use Rattle.qkd_base.specs.declared.lane.Lane.{Lane as LaneValue};
ghost use Rattle.net_model.specs.Site.{sender, receiver};
ghost use Rattle.net_model.specs.Item.{DataItem};
ghost use Rattle.net_model.specs.Events.{is_lane};
ghost use Rattle.net_model.specs.World.{Network, World, Entry, Volatile};
ghost use Rattle.net_model.specs.Ownership.{IsWired};
ghost use Rattle.net_model.specs.Knowledge.{IsAdjacent};
ghost use Rattle.net_model.specs.Windows.{IsPosted, IsVolatile};
ghost use Rattle.net_model.specs.Premises.{IsNetwork};
ghost use Rattle.net_model.specs.Needed.{view_of};
ghost use Rattle.net_model.specs.Window.{acknowledge, cleared};
ghost use Rattle.net_model.specs.Relay.{owed, receive_ack};
ghost use Rattle.net_model.specs.Plan.{plan};
ghost use Rattle.net_model.specs.Records.{replay};
ghost use Rattle.net_model.specs.Doubt.{MayReplay};
ghost use Rattle.net_model.specs.Handle.{with_orders, with_repeats};
ghost use Rattle.net_model.specs.Step.{complete_node};
ghost use Rattle.net_model.specs.Invariant.{Invariant, Conserved};

/// Telling a manager what became of its frames keeps the conserved properties.
pub fn law_complete_keeps()
    ensures { (net : Network) (w : World) (v : ℕ) → IsNetwork net → Conserved net w → Conserved net (complete_node net w v).0 }
{}

/// The leases of a plan are permitted: none goes down, and none goes beyond the bytes received.
pub fn law_plan_may()
    ensures { (net : Network) (w : World) (v : ℕ) → Conserved net w → MayReplay net.site w.durable v (plan net.site w.link_up (view_of net w v)).batch }
{}

/// The orders of a plan fit under its leases, and frames may carry their items.
pub fn law_plan_fits()
    ensures { (net : Network) (w : World) (v : ℕ) → Conserved net w →
        Invariant net.site (replay net.site v (plan net.site w.link_up (view_of net w v)).batch w.durable) w.frames w.unclaimed →
        Invariant net.site (replay net.site v (plan net.site w.link_up (view_of net w v)).batch w.durable) w.frames
        (with_orders (plan net.site w.link_up (view_of net w v)).orders w.unclaimed) }
{}

/// After a plan, the manager's memory is still consistent with the world. Its new orders are on lanes of the node, and
/// acknowledge only what is pending.
pub fn law_plan_volatile()
    ensures { (net : Network) (w : World) (v : ℕ) → Conserved net w → IsVolatile net w v (plan net.site w.link_up (view_of net w v)).volatile }
{}

/// Each frame that may be put after a plan is a frame of its lane and carries the item that the plan names.
pub fn law_plan_wired()
    ensures { (net : Network) (w : World) (v : ℕ) → Conserved net w → (l : LaneValue) →
        IsWired (w.frames l) (w.wire l) (with_repeats (plan net.site w.link_up (view_of net w v)).repeats w.frames w.outgoing l) }
{}

/// Each order, and each frame that may be put after a plan, is listed under its own lane.
pub fn law_plan_posted()
    ensures { (net : Network) (w : World) (v : ℕ) → Conserved net w → (l : LaneValue) →
        IsPosted l (with_orders (plan net.site w.link_up (view_of net w v)).orders w.unclaimed l)
        (with_repeats (plan net.site w.link_up (view_of net w v)).repeats w.frames w.outgoing l) }
{}

/// When a frame is to be acknowledged, the manager's memory stays consistent. Each received frame has one acknowledgement,
/// pending or in the window, however often the frame comes.
pub fn law_acknowledge_keeps()
    ensures { (net : Network) (w : World) (v : ℕ) (vol : Volatile) (l : LaneValue) (offset : ℕ) (n : Name) →
        receiver net.site l ≡ v → IsAdjacent w.durable.facts w.durable.known v (sender net.site l) v n →
        IsVolatile net w v vol → IsVolatile net w v (acknowledge vol l offset n) }
{}

/// Removing the window entries of an acknowledged fact keeps the manager's memory consistent with the world.
pub fn law_cleared_keeps()
    ensures { (net : Network) (w : World) (v : ℕ) (vol : Volatile) (l : LaneValue) (n : Name) →
        IsVolatile net w v vol → IsVolatile net w v (record vol { window = cleared l n vol.window }) }
{}

/// An acknowledgement removes from the window exactly the entries of its fact towards the neighbour that sent it. All
/// others stay, in order.
pub fn law_cleared_leaves()
    ensures leaves { (l : LaneValue) (n : Name) (prefix rest : List Entry) (e : Entry) → e.transmission.lane ≡ reverse_lane l → e.transmission.item ≡ DataItem n →
        cleared l n (prefix ++ e ∷ rest) ≡ cleared l n (prefix ++ rest) }
    ensures stays { (l : LaneValue) (n : Name) (prefix rest : List Entry) (e : Entry) → (e.transmission.lane ≡ reverse_lane l → e.transmission.item ≡ DataItem n → ⊥) →
        cleared l n (prefix ++ e ∷ rest) ≡ cleared l n prefix ++ e ∷ cleared l n rest }
    ensures nothing { (l : LaneValue) (n : Name) → cleared l n [] ≡ [] }
{}

/// After the acknowledgement of an owed fact is taken, the window has no entry of that fact: they were all on the one
/// lane to that neighbour.
pub fn law_acknowledged_leaves_the_window()
    ensures { (net : Network) (w : World) (l : LaneValue) (n : Name) (k : ℕ) (e : Entry) → IsNetwork net → Conserved net w → is_lane net.site l ≡ true →
        has (owed (view_of net w (receiver net.site l)) (sender net.site l)) n ≡ true →
        slice_get (receive_ack (view_of net w (receiver net.site l)) l (sender net.site l) n).volatile.window k ≡ Some e →
        e.transmission.item ≡ DataItem n → ⊥ }
{}
