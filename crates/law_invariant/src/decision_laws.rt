// Laws of a manager's decisions: events and received frames make only records that are permitted.
ghost use Rattle.std.specs.Prelude.{◌≡◌, ◌<◌, ℕ, true, false, slice_get, Some};
ghost use Rattle.std.specs.List.{list_all};
ghost use Rattle.qkd_base.specs.declared.lane.Lane.{Lane as LaneValue};
ghost use Rattle.net_model.specs.declared.event.Event.{Event as EventValue};
ghost use Rattle.net_model.specs.declared.payload.Payload.{Payload as PayloadValue};
ghost use Rattle.net_model.specs.Item.{payload};
ghost use Rattle.net_model.specs.Site.{receiver};
ghost use Rattle.net_model.specs.World.{Network, World, Allocation};
ghost use Rattle.net_model.specs.Invariant.{Conserved};
ghost use Rattle.net_model.specs.Premises.{IsNetwork};
ghost use Rattle.net_model.specs.Doubt.{MayReplay};
ghost use Rattle.net_model.specs.Events.{is_valid_event};
ghost use Rattle.net_model.specs.Step.{is_asked};
ghost use Rattle.net_model.specs.Needed.{view_of};
ghost use Rattle.net_model.specs.Relay.{receive};
ghost use Rattle.net_model.specs.Handle.{is_numbered};
ghost use Rattle.law_invariant.specs.May.{is_plan, MayDecide, decided};

/// Each event other than a plan makes only permitted records. It sends no frame, and leaves what the manager keeps in
/// memory unchanged.
pub fn law_events_may()
    ensures { (net : Network) (w : World) (v : ℕ) (event : EventValue) → IsNetwork net → Conserved net w → v < net.site.nodes → is_asked event ≡ true →
        is_plan event ≡ false → is_valid_event net.site v event ≡ true → MayDecide net w v (decided net w v event) }
{}

/// Receiving a frame makes only records that are permitted at the lane's receiver.
pub fn law_receiving_may()
    ensures { (net : Network) (w : World) (l : LaneValue) (j offset : ℕ) (a : Allocation) (p : PayloadValue) → Conserved net w → slice_get (w.frames l) j ≡ Some a →
        payload w.durable.facts a.item ≡ Some p → list_all is_numbered (receive net.site (view_of net w (receiver net.site l)) l offset p).batch ≡ true →
        MayReplay net.site w.durable (receiver net.site l) (receive net.site (view_of net w (receiver net.site l)) l offset p).batch }
{}
