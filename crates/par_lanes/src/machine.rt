// The desk as a machine that answers one request at a time.
ghost use Rattle.std.specs.Prelude.{◌≡◌, ◌+◌, ◌≤◌, ◌<◌, IsErrOf, MatchResult, take};
ghost use Rattle.lane_shares.specs.Names.{lane_cap};
ghost use Rattle.source_devices.specs.Frames.{TakesFrame};
ghost use Rattle.lane_sender.specs.Sending.{TakesNumbered};
ghost use Rattle.par_lanes.specs.Asking.{MayAsk};
ghost use Rattle.par_lanes.specs.Grants.{IsShareOf};
ghost use Rattle.par_lanes.specs.Turns.{Claims, desk_charter, DeskTurns};

use crate::{LaneAnswer, LaneAsk, LaneCharter, LaneDesk};
use lane_sender::Claimed;
use lane_shares::Share;
use source_devices::Wire;
use turnstile::Machine;

impl<X: Wire> LaneDesk<'_, X> {
    // Adds the grant to the desk's share, and claims as many bytes.
    fn claim(&mut self, need: u64, grant: Share) -> Claimed
        requires some { 0 < need }
        requires short { need ≤ 600 }
        requires grant { IsShareOf self.old.shares.now need grant }
        ensures claims { Claims (lane_cap self.old.shares.now) self.old.side self.new.side need result }
        ensures shares { self.new.shares ≡ self.old.shares }
    {
        let shares = self.shares;
        shares.join(&mut self.share, grant);
        shares.look(&mut self.share);
        self.side.claim_raised(need)
    }
}

impl<'a, X: Wire> Machine for LaneDesk<'a, X> {
    type Request = LaneAsk;

    type Reply = LaneAnswer;

    type Charter = LaneCharter;

    ghost charter = { desk_charter (λ d. d.side) (λ d. d.shares.now) };

    ghost takes = { MayAsk };

    ghost turns = { DeskTurns X.Wire (λ d. d.side) (λ d. d.shares.now) };

    fn turn(&mut self, request: LaneAsk) -> LaneAnswer {
        match request {
            LaneAsk::Claim { need, grant } => LaneAnswer::Claimed {
                claimed: self.claim(need, grant),
            },
            LaneAsk::Put { frame, length } => LaneAnswer::Placed {
                answer: self.side.put(&frame, length),
            },
            LaneAsk::Again {
                number,
                frame,
                length,
            } => LaneAnswer::Placed {
                answer: self.side.put_again(number, &frame, length),
            },
        }
    }
}
