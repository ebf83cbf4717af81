// When a lane of the program stands for a lane of the network.
ghost use Rattle.std.specs.Prelude.{◌≡◌, ◌≤◌, ◌==◌, ℕ, Bool, true, false, [], ◌∷◌, List};
ghost use Rattle.std.specs.List.{list_any};
ghost use Rattle.qkd_base.specs.declared.lane.Lane.{Lane as LaneValue};
ghost use Rattle.net_model.specs.declared.record.Record.{Record as RecordValue};
ghost use Rattle.net_model.specs.World.{Network, World, Entry};
ghost use Rattle.net_model.specs.Windows.{IsEntry};
ghost use Rattle.net_model.specs.Events.{is_lane};
ghost use Rattle.net_model.specs.Action.{Action, Environment};
ghost use Rattle.net_model.specs.Site.{is_incident};
ghost use Rattle.net_model.specs.Handle.{take_block};
ghost use Rattle.net_model.specs.Start.{resolved};
ghost use Rattle.net_model.specs.Step.{step};
ghost use Rattle.lane_sender.specs.Lane.{LaneForm};
ghost use Rattle.world_nodes.specs.LaneStands.{IsRunning, LaneStands};
ghost use Rattle.world_nodes.specs.Taking.{TakesOrStays};
ghost use Rattle.world_nodes.specs.Going.{GoesOn, IsReplayed, brings, made};

use source_devices::Wire;

/// If a lane of the network goes on unchanged, the lane of the program stands for it as before.
pub fn law_lane_goes_on<X: Wire>()
    ensures { (net : Network) (w w' : World) (l : LaneValue) (side : LaneForm X) → IsRunning net w → is_lane net.site l ≡ true → GoesOn w w' l →
        LaneStands X.Wire net w l side → LaneStands X.Wire net w' l side }
{}

/// A lane goes on unchanged in an action that keeps the lane's blocks, owners and wire, and doesn't lower its lease.
pub fn law_step_goes_on()
    ensures { (net : Network) (w : World) (a : Action) (l : LaneValue) → (step net w a).0.durable.blocks l ≡ w.durable.blocks l →
        (step net w a).0.durable.own l ≡ w.durable.own l → w.durable.lease l ≤ (step net w a).0.durable.lease l → (step net w a).0.wire l ≡ w.wire l →
        GoesOn w (step net w a).0 l }
{}

/// When a node makes a batch durable, each lane to which the batch brings no block goes on unchanged.
pub fn law_batch_goes_on()
    ensures { (net : Network) (w w' : World) (v : ℕ) (batch : List RecordValue) (l : LaneValue) → IsReplayed net w w' v batch →
        list_any (brings net.site v l) batch ≡ false → GoesOn w w' l }
{}

/// When a start resolves a batch in doubt, this batch is made durable, or nothing is.
pub fn law_resolved_is_made()
    ensures { (net : Network) (w : World) (v : ℕ) (committed : Bool) → IsRunning net w → IsReplayed net w (resolved net.site w v committed) v (made w v committed) }
{}

/// An entry of a node's window stays an entry after any action.
pub fn law_entry_stays()
    ensures { (net : Network) (w : World) (a : Action) (v : ℕ) (e : Entry) → IsRunning net w → IsEntry net w v e → IsEntry net (step net w a).0 v e }
{}

/// A node that takes the next block of a link makes it durable. Whatever else the node answers, no lane changes.
pub fn law_block_is_made()
    ensures { (net : Network) (w : World) (v link : ℕ) (environment : Environment) → IsRunning net w → is_incident net.site v link ≡ true →
        TakesOrStays net w v link (take_block net w v link environment) }
{}
