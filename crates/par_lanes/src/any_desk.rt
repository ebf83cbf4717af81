// The desks of lanes.
ghost use Rattle.std.specs.Prelude.{◌≡◌};
ghost use Rattle.turnstile.specs.Turns.{turn_of};
ghost use Rattle.lane_sender.specs.Lane.{LaneForm};
ghost use Rattle.lane_shares.specs.declared.shares.Shares.{Shares};
ghost use Rattle.par_lanes.specs.declared.ask.LaneAsk.{LaneAsk as Ask};
ghost use Rattle.par_lanes.specs.declared.ask.LaneAnswer.{LaneAnswer as Answer};
ghost use Rattle.par_lanes.specs.Asking.{MayAsk};
ghost use Rattle.par_lanes.specs.Turns.{desk_charter, DeskTurns};

use crate::{LaneAnswer, LaneAsk, LaneDesk};
use source_devices::Wire;
use turnstile::Machine;

/// A machine that is the desk of a lane.
pub trait Desk: Machine<Request = LaneAsk, Reply = LaneAnswer> {
    /// The lane's wire.
    type Line: Wire;

    /// The desk's lane.
    ghost side: { Self → LaneForm Self.Line };

    /// The shares of the lane's bytes.
    ghost shares: { Self → Shares };

    /// The desk takes each request that its lane takes.
    ghost asks: { (d : Self) (ask : Ask) → MayAsk (desk_charter side shares d) ask → Self.takes (Self.charter d) ask };

    /// A turn of the desk is a turn of its lane.
    ghost leads: { (d : Self) (ask : Ask) (answer : Answer) (n : Self) → turn_of Self.charter Self.takes Self.turns d ask answer n →
        turn_of (desk_charter side shares) MayAsk (DeskTurns Self.Line.Wire side shares) d ask answer n };
}

impl<X: Wire> Desk for LaneDesk<'_, X> {
    type Line = X;

    ghost side = { λ d. d.side };

    ghost shares = { λ d. d.shares.now };

    ghost asks = { λ d ask may. may };

    ghost leads = { λ d ask answer n turned. turned };
}
