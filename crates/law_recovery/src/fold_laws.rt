// Laws of a manager's view: after each effect and each start, it is what the effect or start makes of the view
ghost use Rattle.std.specs.Prelude.{◌≡◌, ◌<◌, ◌==◌, ℕ, Bool, true, false, List, [], slice_get, Some, if◌then◌else◌};
ghost use Rattle.std.specs.List.{list_all};
ghost use Rattle.net_model.specs.declared.event.Event.{Event as EventValue};
ghost use Rattle.net_model.specs.declared.event.Event.TheVariants.{Block, Note};
ghost use Rattle.net_model.specs.declared.payload.Payload.{Payload as PayloadValue};
ghost use Rattle.qkd_base.specs.declared.lane.Lane.{Lane as LaneValue};
ghost use Rattle.net_model.specs.Item.{payload};
ghost use Rattle.net_model.specs.OctetSequence.{block_at};
ghost use Rattle.net_model.specs.Site.{receiver, is_incident};
ghost use Rattle.net_model.specs.Relay.{receive};
ghost use Rattle.net_model.specs.declared.placing.Placing.{Placing as PlacingValue};
ghost use Rattle.net_model.specs.World.{Network, World, Allocation, first};
ghost use Rattle.net_model.specs.Invariant.{Conserved};
ghost use Rattle.net_model.specs.Premises.{IsNetwork};
ghost use Rattle.net_model.specs.Events.{is_valid_event};
ghost use Rattle.net_model.specs.Step.{step, is_asked, is_enabled};
ghost use Rattle.net_model.specs.Needed.{view_of};
ghost use Rattle.net_model.specs.View.{View};
ghost use Rattle.net_model.specs.Doubt.{MayReplay};
ghost use Rattle.net_model.specs.Decision.{Does, Effect};
ghost use Rattle.net_model.specs.Handle.{is_numbered, commit, stopped, handle, blocks_at};
ghost use Rattle.net_model.specs.Fold.{empty_view, view_after, view_batch, view_restarted};
ghost use Rattle.net_model.specs.Action.{Environment, Start, Recovers};
ghost use Rattle.law_recovery.specs.Fitting.{AllFit};
ghost use Rattle.law_recovery.specs.Turns.{GoesBy};
ghost use Rattle.law_invariant.specs.May.{decided};

/// After an effect that a manager decides on an event, its view of the world is what the effect makes of the view
/// before.
pub fn law_view_goes_on()
    ensures { (net : Network) (w : World) (v : ℕ) (event : EventValue) (e : Effect) (octets : ℕ) → IsNetwork net → Conserved net w → v < net.site.nodes →
        is_asked event ≡ true → is_valid_event net.site v event ≡ true → decided net w v event ≡ Does e → list_all is_numbered e.batch ≡ true →
        view_of net (commit net.site w v octets e) v ≡ view_after (view_of net w v) e }
{}

/// An event is asked of a manager that is up. Afterwards one of three things holds: its view is as before; it stopped
/// and lost what it had in memory; or its view is what the decided effect makes of the view before.
pub fn law_asked_goes_on()
    ensures { (net : Network) (w : World) (v : ℕ) (event : EventValue) (environment : Environment) → IsNetwork net → Conserved net w → v < net.site.nodes → w.up v ≡ true →
        is_asked event ≡ true → is_valid_event net.site v event ≡ true → GoesBy net w v (decided net w v event) (handle net w v event environment).0 }
{}

/// A manager is told what became of its frames. Its view afterwards is what the effect makes of the view before.
pub fn law_view_goes_on_noting()
    ensures { (net : Network) (w : World) (v : ℕ) (placings : List PlacingValue) (e : Effect) (octets : ℕ) → IsNetwork net → Conserved net w →
        decided net w v (Note placings) ≡ Does e → view_of net (commit net.site w v octets e) v ≡ view_after (view_of net w v) e }
{}

/// A manager takes the next block of a link's device, while the link has fewer than 1,024. Its view afterwards is
/// what the effect makes of the view before.
pub fn law_view_goes_on_taking()
    ensures { (net : Network) (w : World) (v link : ℕ) (e : Effect) (octets : ℕ) → Conserved net w → is_incident net.site v link ≡ true →
        (blocks_at net w v link == 1024) ≡ false → decided net w v (Block link (blocks_at net w v link) (block_at (net.device link) (blocks_at net w v link))) ≡ Does e →
        view_of net (commit net.site w v octets e) v ≡ view_after (view_of net w v) e }
{}

/// A frame comes to its lane's receiver. The receiver's view afterwards is what the effect makes of the view before.
pub fn law_view_goes_on_receiving()
    ensures { (net : Network) (w : World) (l : LaneValue) (j offset octets : ℕ) (a : Allocation) (p : PayloadValue) → Conserved net w → slice_get (w.frames l) j ≡ Some a →
        payload w.durable.facts a.item ≡ Some p → list_all is_numbered (receive net.site (view_of net w (receiver net.site l)) l offset p).batch ≡ true →
        view_of net (commit net.site w (receiver net.site l) octets (receive net.site (view_of net w (receiver net.site l)) l offset p)) (receiver net.site l) ≡
        view_after (view_of net w (receiver net.site l)) (receive net.site (view_of net w (receiver net.site l)) l offset p) }
{}

/// After a start each lane goes on at its leased end, and the memory is empty. Otherwise the manager sees what it saw
/// before, with the batch in doubt if that was committed. Premise: a committed batch in doubt fits.
pub fn law_start_goes_on()
    ensures { (net : Network) (w : World) (v : ℕ) (committed : Bool) → Conserved net w → w.up v ≡ false → is_enabled net w (Start v (Recovers committed)) ≡ true →
        (committed ≡ true → AllFit net (view_of net w v) (w.in_doubt v).batch) →
        view_of net (step net w (Start v (Recovers committed))).0 v ≡
        view_restarted (if committed then view_batch (view_of net w v) (w.in_doubt v).batch else view_of net w v) }
{}

/// A view takes each permitted batch that fits as the world does, if nothing is ordered with it.
pub fn law_batch_goes_on()
    ensures { (net : Network) (w : World) (v octets : ℕ) (e : Effect) → Conserved net w → MayReplay net.site w.durable v e.batch → AllFit net (view_of net w v) e.batch →
        e.orders ≡ [] → view_of net (commit net.site w v octets e) v ≡ view_after (view_of net w v) e }
{}

/// The batch of each event asked of a manager fits the manager's view.
pub fn law_events_fit()
    ensures { (net : Network) (w : World) (v : ℕ) (event : EventValue) (e : Effect) → IsNetwork net → Conserved net w → is_asked event ≡ true →
        decided net w v event ≡ Does e → AllFit net (view_of net w v) e.batch }
{}

/// The batch that a received frame makes fits the receiver's view.
pub fn law_received_fits()
    ensures { (net : Network) (v : View) (l : LaneValue) (offset : ℕ) (p : PayloadValue) → AllFit net v (receive net.site v l offset p).batch }
{}

/// If a manager stops in an event whose batch fits, that batch is in doubt and fits the view afterwards.
pub fn law_doubt_fits_where_it_stops()
    ensures { (net : Network) (w : World) (v octets : ℕ) (e : Effect) → AllFit net (view_of net w v) e.batch →
        AllFit net (view_of net (stopped w v octets e) v) ((stopped w v octets e).in_doubt v).batch }
{}

/// Before any start the view of a manager is empty.
pub fn law_first_view_is_empty()
    ensures { (net : Network) (v : ℕ) → view_of net first v ≡ empty_view net.site v }
{}
