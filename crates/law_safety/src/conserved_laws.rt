// What the network's conserved properties mean for users: one use of each byte, one byte list for each name, keys
ghost use Rattle.std.specs.Prelude.{Bool, false, None, ◌≡◌, ℕ, ◌+◌, ◌≤◌, ◌<◌, true, length, slice_get, Some};
ghost use Rattle.qkd_base.specs.Name.{Name, has};
ghost use Rattle.qkd_base.specs.declared.lane.Lane.{Lane};
ghost use Rattle.net_model.specs.declared.fact.Fact.{Fact};
ghost use Rattle.net_model.specs.Table.{PartOf, part_of, bytes_of, route_of, is_secret, fact_at, is_stored_about, was_handed};
ghost use Rattle.net_model.specs.declared.payload.Payload.{Payload};
ghost use Rattle.net_model.specs.declared.counts.Counts4.{Counts4};
ghost use Rattle.net_model.specs.declared.reply.Reply.TheVariants.{Counted, NoBits};
ghost use Rattle.net_model.specs.Item.{need, payload};
ghost use Rattle.net_model.specs.Sealing.{Opens, Rejected};
ghost use Rattle.net_model.specs.Journal.{is_nil};
ghost use Rattle.net_model.specs.Events.{is_lane};
ghost use Rattle.net_model.specs.Premises.{IsNetwork};
ghost use Rattle.net_model.specs.Frames.{octets_received, frame_octets};
ghost use Rattle.net_model.specs.Start.{leaves};
ghost use Rattle.net_model.specs.Action.{Start, Recovers};
ghost use Rattle.net_model.specs.Step.{step, is_node, is_quiet, is_enabled};
ghost use Rattle.net_model.specs.World.{Network, World, Allocation, received_there};
ghost use Rattle.net_model.specs.Ledger.{ledger};
ghost use Rattle.net_model.specs.Knowledge.{IsOn, IsTargetOf, IsAdjacent};
ghost use Rattle.net_model.specs.Handings.{PairsDiffer};
ghost use Rattle.net_model.specs.Drawn.{IsDrawn};
ghost use Rattle.net_model.specs.Deliveries.{is_of_name};
ghost use Rattle.net_model.specs.View.{port_of};
ghost use Rattle.net_model.specs.Show.{counted_of};
ghost use Rattle.net_model.specs.Needed.{view_of};
ghost use Rattle.net_model.specs.Decision.{next_count};
ghost use Rattle.net_model.specs.Invariant.{Conserved};
ghost use Rattle.run_model.specs.Keys.{IsEntitled};
ghost use Rattle.law_safety.specs.Ends.{stands_before};

/// If the frames at two places of a wire cover the same lane byte, they are the same frame. So no byte masks two
/// different frames.
pub fn law_no_byte_masks_two()
    ensures { (net : Network) (w : World) → Conserved net w → (l : Lane) (m n i j x : ℕ) (a b : Allocation) →
        slice_get (w.wire l) m ≡ Some i → slice_get (w.wire l) n ≡ Some j → slice_get (w.frames l) i ≡ Some a → slice_get (w.frames l) j ≡ Some b →
        a.offset ≤ x → x < a.offset + need w.durable.facts a.item → b.offset ≤ x → x < b.offset + need w.durable.facts b.item → i ≡ j }
{}

/// Each number on a wire is that of a frame that got its bytes.
pub fn law_wires_hold_frames()
    ensures { (net : Network) (w : World) → Conserved net w → (l : Lane) (n j : ℕ) → slice_get (w.wire l) n ≡ Some j → j < length (w.frames l) }
{}

/// Each name has one list of bytes: all facts of that name have the same bytes, and so have the parts of a group key.
pub fn law_one_byte_list()
    ensures { (net : Network) (w : World) → Conserved net w → (name m n : Name) (f g : Fact) → fact_at w.durable.facts m ≡ Some f → fact_at w.durable.facts n ≡ Some g →
        is_of_name name f ≡ true → is_of_name name g ≡ true → bytes_of f ≡ bytes_of g }
{}

/// The bytes of each key, chunk and part were drawn from the entropy of its origin.
pub fn law_bytes_are_drawn()
    ensures { (net : Network) (w : World) → Conserved net w → (n : Name) (f : Fact) → fact_at w.durable.facts n ≡ Some f → is_secret f ≡ true → IsDrawn net w f }
{}

/// No pair of a key and an application is marked twice.
pub fn law_handed_once()
    ensures { (net : Network) (w : World) → Conserved net w → PairsDiffer w.durable.handed }
{}

/// Only an entitled application is handed a key, and its home knows the key. A master or source has the key only
/// after the target confirmed it.
pub fn law_handed_to_entitled()
    ensures { (net : Network) (w : World) → Conserved net w → (n : Name) (sae : ℕ) → was_handed w.durable.handed n sae ≡ true →
        IsEntitled net.site w.durable.facts w.durable.known n sae }
{}

/// A node that knows a fact is on the fact's route, and all nodes before it on the route know the fact.
pub fn law_known_along_the_route()
    ensures { (net : Network) (w : World) → Conserved net w → (n : Name) (f : Fact) (v : ℕ) → fact_at w.durable.facts n ≡ Some f → has (w.durable.known v) n ≡ true →
        IsOn (route_of f) v × ((u : ℕ) → stands_before (route_of f) u v ≡ true → has (w.durable.known u) n ≡ true) }
{}

/// If a node has an acknowledgement of a name, the next node on the route knows that name.
pub fn law_acknowledged_is_known()
    ensures { (net : Network) (w : World) → Conserved net w → (v : ℕ) (n : Name) → has (w.durable.acked v) n ≡ true →
        (u : ℕ) × IsAdjacent w.durable.facts w.durable.known u v u n }
{}

/// A Stored note in the table means that the target knows the fact that it confirms. There is at most one such note
/// for each fact.
pub fn law_stored_is_known()
    ensures target { (net : Network) (w : World) → Conserved net w → (m n : Name) (f : Fact) → fact_at w.durable.facts m ≡ Some f → is_stored_about n f ≡ true →
        IsTargetOf m.node (fact_at w.durable.facts n) × (has (w.durable.known m.node) n ≡ true) }
    ensures once { (net : Network) (w : World) → Conserved net w → (m k n : Name) (f g : Fact) → fact_at w.durable.facts m ≡ Some f → fact_at w.durable.facts k ≡ Some g →
        is_stored_about n f ≡ true → is_stored_about n g ≡ true → m ≡ k }
{}

/// The received bytes of a lane are the unused, the spent and the burnt ones together.
pub fn law_received_is_counted()
    ensures { (net : Network) (w : World) → Conserved net w → (l : Lane) → (ledger w l).received ≡ (ledger w l).unused + (ledger w l).spent + (ledger w l).burnt }
{}

/// The counts that a manager gives of a lane add up in the same way. It computes them from what it received, planned
/// and gave up at its last start.
pub fn law_own_count_adds_up()
    ensures { (net : Network) (w : World) → Conserved net w → (v link : ℕ) (counts : Counts4) → counted_of (port_of (view_of net w v) link) ≡ Counted counts →
        counts.received ≡ counts.unused + counts.spent + counts.burnt }
{}

/// The next name of a node is new: its count is above those of all facts and group keys that the node named.
pub fn law_next_name_is_new()
    ensures facts { (net : Network) (w : World) → Conserved net w → (v : ℕ) (n : Name) (f : Fact) → fact_at w.durable.facts n ≡ Some f → n.node ≡ v →
        n.count < next_count (view_of net w v) }
    ensures keys { (net : Network) (w : World) → Conserved net w → (v : ℕ) (n : Name) (f : Fact) (p : PartOf) → fact_at w.durable.facts n ≡ Some f → part_of f ≡ Some p →
        p.key.node ≡ v → p.key.count < next_count (view_of net w v) }
{}

/// A receiver that has enough bytes of the lane opens a frame as the payload and offset with which it was made. While
/// it has too few bytes, it refuses the frame and says how many it has.
pub fn law_delivered_as_opened()
    ensures opens { (net : Network) (w : World) (l : Lane) (j : ℕ) (a : Allocation) (p : Payload) → IsNetwork net → Conserved net w → is_lane net.site l ≡ true →
        slice_get (w.frames l) j ≡ Some a → payload w.durable.facts a.item ≡ Some p → a.offset + need w.durable.facts a.item ≤ received_there w.durable l →
        net.sealing.unseal l (octets_received net w l) (frame_octets net w l (Some a)) ≡ Opens a.offset p }
    ensures few { (net : Network) (w : World) (l : Lane) (j : ℕ) (a : Allocation) (p : Payload) → IsNetwork net → Conserved net w → is_lane net.site l ≡ true →
        slice_get (w.frames l) j ≡ Some a → payload w.durable.facts a.item ≡ Some p → received_there w.durable l < a.offset + need w.durable.facts a.item →
        net.sealing.unseal l (octets_received net w l) (frame_octets net w l (Some a)) ≡ Rejected (NoBits (received_there w.durable l)) }
{}

/// A start gives up all bytes below each leased end, so the next frame of the lane begins at or after that end.
pub fn law_start_gives_up()
    ensures { (net : Network) (w : World) (v : ℕ) (committed : Bool) (l : Lane) → Conserved net w → w.up v ≡ false → leaves net.site v l ≡ true →
        length ((step net w (Start v (Recovers committed))).0.durable.own l) ≡ (step net w (Start v (Recovers committed))).0.durable.lease l }
{}

/// The next start may find the batch of a stopped event on the disk or not, unless a checkpoint has settled that.
pub fn law_doubt_is_either()
    ensures { (net : Network) (w : World) (v : ℕ) (committed : Bool) → is_node net v ≡ true → w.up v ≡ false → is_quiet net w v ≡ true →
        (w.in_doubt v).checkpointed ≡ None → is_nil (w.in_doubt v).batch ≡ false → is_enabled net w (Start v (Recovers committed)) ≡ true }
{}
