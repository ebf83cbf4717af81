// Laws of what an action leaves unchanged: it changes at most one manager, and one lane or the lanes that leave one
ghost use Rattle.std.specs.Prelude.{◌≡◌, ◌&&◌, ℕ, Some, false, slice_get, true};
ghost use Rattle.qkd_base.specs.declared.lane.Lane.{Lane as LaneValue};
ghost use Rattle.net_model.specs.World.{Network, World, Allocation, Transmission};
ghost use Rattle.net_model.specs.Premises.{IsNetwork};
ghost use Rattle.net_model.specs.Action.{Action, Allocate, Environment, Transmit};
ghost use Rattle.net_model.specs.Events.{is_lane};
ghost use Rattle.net_model.specs.Frames.{frame_octets};
ghost use Rattle.net_model.specs.Step.{is_enabled, step};
ghost use Rattle.net_model.specs.Invariant.{Conserved};
ghost use Rattle.law_locality.specs.Touched.{touches_node, touches_lane, touches_link, LanePart, changes_part, PartStays, ManagerStays, StaysAt, LaneStays};

/// A manager that an action doesn't touch stays as it was, whatever the outside answers. Premises: `IsNetwork` and
/// `Conserved` hold, and the action is enabled.
pub fn law_other_managers_stay()
    ensures { (net : Network) (w : World) (a : Action) (u : ℕ) → IsNetwork net → Conserved net w → is_enabled net w a ≡ true →
        touches_node net.site a u ≡ false → StaysAt net u w (step net w a).0 }
{}

/// When an order gets its bytes, or a frame is put or refused, every manager sees the same as before. The claimed
/// bytes go from the ordered ones to the owned ones, so the planned end of the lane stays. Only the sender of a put
/// or refused frame has one more note waiting. Premise for claims: the order waits on its lane.
pub fn law_allocate_and_transmit_leave_views()
    ensures allocate { (net : Network) (w : World) (t : Transmission) (u : ℕ) → is_enabled net w (Allocate t) ≡ true →
        StaysAt net u w (step net w (Allocate t)).0 }
    ensures transmit { (net : Network) (w : World) (l : LaneValue) (j : ℕ) (environment : Environment) (u : ℕ) →
        ManagerStays net u w (step net w (Transmit l j environment)).0 }
{}

/// A lane that an action doesn't touch stays as it was: its blocks, owners, leases, frames, wire, orders and waiting
/// frames. Of a touched lane, the parts that the action doesn't change stay. Premises: as for managers.
pub fn law_other_lanes_stay()
    ensures lane { (net : Network) (w : World) (a : Action) (l : LaneValue) → IsNetwork net → Conserved net w → is_enabled net w a ≡ true →
        touches_lane net.site a l ≡ false → LaneStays l w (step net w a).0 }
    ensures part { (net : Network) (w : World) (a : Action) (l : LaneValue) (p : LanePart) → IsNetwork net → Conserved net w → is_enabled net w a ≡ true →
        (touches_lane net.site a l && changes_part p a) ≡ false → PartStays p l w (step net w a).0 }
{}

/// A link that an action doesn't set stays up or down. There are no premises.
pub fn law_other_links_stay()
    ensures { (net : Network) (w : World) (a : Action) (link : ℕ) → touches_link a link ≡ false → (step net w a).0.link_up link ≡ w.link_up link }
{}

/// On every lane, touched or not, each frame keeps its place and its octets in any action. Premises: `IsNetwork` and
/// `Conserved` hold. The action need not be enabled.
pub fn law_frames_octets_stay_in_a_step()
    ensures { (net : Network) (w : World) (act : Action) (l : LaneValue) (j : ℕ) (a : Allocation) → IsNetwork net → Conserved net w →
        is_lane net.site l ≡ true → slice_get (w.frames l) j ≡ Some a →
        frame_octets net (step net w act).0 l (slice_get ((step net w act).0.frames l) j) ≡ frame_octets net w l (slice_get (w.frames l) j) }
{}
