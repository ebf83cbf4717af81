// The history of a lane's desk, as a history of the lane.
ghost use Rattle.std.specs.Prelude.{◌≡◌, List};
ghost use Rattle.turnstile.specs.Turns.{turn_of, Leads};
ghost use Rattle.lane_shares.specs.declared.shares.Shares.{Shares as SharesValue};
ghost use Rattle.lane_shares.specs.Names.{lane_cap};
ghost use Rattle.lane_sender.specs.Lane.{LaneForm};
ghost use Rattle.par_lanes.specs.declared.ask.LaneAsk.{LaneAsk as Ask};
ghost use Rattle.par_lanes.specs.declared.ask.LaneAnswer.{LaneAnswer as Answer};
ghost use Rattle.par_lanes.specs.Asking.{MayAsk};
ghost use Rattle.par_lanes.specs.Turns.{Turns, desk_charter, DeskTurns};
ghost use Rattle.par_lanes.specs.Following.{ClaimsFollow};

use source_devices::Wire;

/// The history of a lane's desk is a history of the lane: each call changes the lane as its request and its answer say. The
/// claims of all callers take consecutive ranges, below the cap of what may be issued. The lane, its bytes and the shares are
/// the same at the end.
pub fn law_desks_lead_their_lanes<D, X: Wire>()
    ensures turns { (side : D → LaneForm X) (shares : D → SharesValue) (first last : D) (log : List (Ask × Answer)) →
        Leads (turn_of (desk_charter side shares) MayAsk (DeskTurns X.Wire side shares)) first log last →
        Leads (Turns X.Wire (lane_cap (shares first))) (side first) log (side last) }
    ensures claims { (side : D → LaneForm X) (shares : D → SharesValue) (first last : D) (log : List (Ask × Answer)) →
        Leads (turn_of (desk_charter side shares) MayAsk (DeskTurns X.Wire side shares)) first log last →
        ClaimsFollow (lane_cap (shares first)) (side first).ledger.used (side last).ledger.used log }
    ensures charter { (side : D → LaneForm X) (shares : D → SharesValue) (first last : D) (log : List (Ask × Answer)) →
        Leads (turn_of (desk_charter side shares) MayAsk (DeskTurns X.Wire side shares)) first log last →
        desk_charter side shares last ≡ desk_charter side shares first }
{}
