// The calls of each desk as frames are sent.
ghost use Rattle.std.specs.Prelude.{◌≡◌, ◌+◌, ◌<◌, ℕ, [], List, map, length};
ghost use Rattle.net_model.specs.Tick.{Emission};
ghost use Rattle.shared_objects.specs.declared.either.Either.{Either};
ghost use Rattle.shared_objects.specs.Said.{Said, said_on};
ghost use Rattle.lane_sender.specs.Lane.{LaneForm};
ghost use Rattle.par_lanes.specs.declared.ask.LaneAsk.{LaneAsk};
ghost use Rattle.par_lanes.specs.declared.ask.LaneAnswer.{LaneAnswer};
ghost use Rattle.par_lanes.specs.declared.emitted.Emitted.{Emitted};
ghost use Rattle.par_lanes.specs.Wants.{turns_at};
ghost use Rattle.par_lanes.specs.Saying.{IsDesk, SayAllBy, IsCalledFor};

/// If frames were sent by calls of their lanes' desks, then each desk got exactly the calls of its own lane's frames, in
/// order. The machines before the desks were not called. Each desk was called as often as its lane's frames take turns.
pub fn law_desks_are_called_for_their_frames<M, D, X, Q, A>()
    ensures lanes { (machines : List (Either M D)) (side : D → LaneForm X) (first place : ℕ) (desk : D) (outs : List (Emission × Emitted)) (said : List (Said (Either Q LaneAsk) (Either A LaneAnswer))) →
        SayAllBy machines side first outs said → IsDesk machines (first + place) desk → IsCalledFor (side desk) (first + place) place outs said }
    ensures others { (machines : List (Either M D)) (side : D → LaneForm X) (first other : ℕ) (outs : List (Emission × Emitted)) (said : List (Said (Either Q LaneAsk) (Either A LaneAnswer))) →
        SayAllBy machines side first outs said → other < first → said_on other said ≡ [] }
    ensures turns { (machines : List (Either M D)) (side : D → LaneForm X) (first place : ℕ) (outs : List (Emission × Emitted)) (said : List (Said (Either Q LaneAsk) (Either A LaneAnswer))) →
        SayAllBy machines side first outs said → length (said_on (first + place) said) ≡ turns_at place (map (λ x. x.0) outs) }
{}
