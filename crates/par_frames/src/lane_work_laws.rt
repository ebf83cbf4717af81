// Laws of a block's lanes: what the workers' calls and their records of frames say of the state in which each lane is left.
ghost use Rattle.std.specs.Prelude.{◌≡◌, ◌≤◌, ◌==◌, ℕ, Bool, List, [], ◌++◌, filter, length, map, slice_get, Some, true};
ghost use Rattle.std.specs.List.{AllByRecursion, flat_map};
ghost use Rattle.std.specs.List.Sorted.{IsPermutation, IsNonDecreasingBy};
ghost use Rattle.qkd_base.specs.Lane.{lane_place};
ghost use Rattle.qkd_base.specs.declared.lane.Lane.{Lane as LaneValue};
ghost use Rattle.net_model.specs.Site.{Site};
ghost use Rattle.net_model.specs.World.{Network, World};
ghost use Rattle.net_model.specs.Premises.{IsNetwork};
ghost use Rattle.net_model.specs.Events.{is_lane};
ghost use Rattle.net_model.specs.Tick.{Emission};
ghost use Rattle.run_model.specs.Lines.{all_lanes};
ghost use Rattle.run_model.specs.Works.{Work, flat, done_from};
ghost use Rattle.run_ops.specs.Quiet.{IsQuiet};
ghost use Rattle.run_ops.specs.declared.job.Job.{Job as JobValue};
ghost use Rattle.turnstile.specs.Turns.{Leads};
ghost use Rattle.shared_objects.specs.declared.either.Either.{Either};
ghost use Rattle.shared_objects.specs.Said.{Said, said_on};
ghost use Rattle.lane_sender.specs.Lane.{LaneForm};
ghost use Rattle.par_lanes.specs.declared.ask.LaneAsk.{LaneAsk};
ghost use Rattle.par_lanes.specs.declared.ask.LaneAnswer.{LaneAnswer};
ghost use Rattle.par_lanes.specs.Turns.{Turns};
ghost use Rattle.world_state.specs.Passed.{IsRunning, LaneStands};
ghost use Rattle.shared_objects.specs.Rising.{together};
ghost use Rattle.law_parallel.specs.Putting.{wanted_by};
ghost use Rattle.law_parallel.specs.InOrder.{turns_over};
ghost use Rattle.law_parallel.specs.Logs.{Deed, wanted_on};
ghost use Rattle.law_parallel.specs.Places.{numbered};
ghost use Rattle.law_parallel.specs.Calls.{IsOfWorkers, AreWorkersWorks};
ghost use Rattle.law_parallel.specs.Workers.{of_worker};
ghost use Rattle.par_lanes.specs.declared.emitted.Emitted.{Emitted};
ghost use Rattle.par_frames.specs.Sorting.{HasJust, IsOrderedWhere, IsSortedByBoth};
ghost use Rattle.par_frames.specs.LaneCalls.{deed_of, kept_in};
ghost use Rattle.par_lanes.specs.Calls.{IsOf, emitted_at};
ghost use Rattle.par_lanes.specs.Saying.{IsCalledFor};
ghost use Rattle.par_frames.specs.Desks.{IsDeskOf, DeskWorked};
ghost use Rattle.par_frames.specs.OneLine.{AreOfLine};
ghost use Rattle.par_frames.specs.Owning.{NodeTurn, wants_of, AreOwnTurns};
ghost use Rattle.par_frames.specs.Working.{IsOfItsLine, wanted_for, kept, HaveCalled, HaveDone};
ghost use Rattle.par_frames.specs.Leaving.{IsLeftBy};
ghost use Rattle.par_frames.specs.Telling.{on_lane, AreSorted, AreTold};
ghost use Rattle.par_frames.specs.Blocks.{AreTurns, LanesWorked, LanesLeft};

use source_devices::Wire;

/// Suppose that the history of a lane's machine is a merge of the calls by which workers sent frames. Then it is a log of
/// deeds, and each worker's deeds are just those that its frames take.
pub fn law_calls_are_deeds<X>()
    ensures { (side : LaneForm X) (outs : List (List (Emission × Emitted))) (calls : List (List (ℕ × (LaneAsk × LaneAnswer)))) (history : List (LaneAsk × LaneAnswer)) →
        HaveCalled side outs calls history → HaveDone side outs history }
{}

/// If each worker sent the frames that the plans of its own lines send on the lane, each worker did its own part of the log.
pub fn law_deeds_are_of_workers<X>()
    ensures { (side : LaneForm X) (outs : List (List (Emission × Emitted))) (history : List (LaneAsk × LaneAnswer)) (d : HaveDone side outs history) (workers : ℕ) (wanted : List (ℕ × Emission)) →
        length outs ≡ workers → ((k : ℕ) (xs : List (Emission × Emitted)) → slice_get outs k ≡ Some xs → map wanted_for xs ≡ of_worker workers k wanted) →
        IsOfWorkers workers wanted d.done (map deed_of d.log) }
{}

/// After the managers' turns, a lane of the program stood for a lane of the network. After its history, it stands for that
/// lane in the world that the block's logs leave. The workers' records of its frames say what is reported and noted of them.
pub fn law_lane_is_left<X: Wire>()
    ensures { (net : Network) (workers : ℕ) (w : World) (jobs : List JobValue) (histories : List (List Work)) (calls : LaneValue → List (List (ℕ × Deed)))
        (logs : LaneValue → List Deed) → 1 ≤ workers → IsRunning net w → IsQuiet w → AreWorkersWorks net workers w jobs histories calls logs →
        (l : LaneValue) → is_lane net.site l ≡ true → (cap : ℕ) (outs : List (List (Emission × Emitted))) (history : List (LaneAsk × LaneAnswer)) (old new : LaneForm X) →
        LaneStands X.Wire net (turns_over net w histories) l old → Leads (Turns X.Wire cap) old history new →
        (d : HaveDone old outs history) → logs l ≡ map deed_of d.log →
        IsLeftBy X.Wire net (turns_over net w histories) (λ k. numbered (logs k)) l d.log old new }
{}

/// All workers' records of a lane's frames, in order of their places in its history, are those that its log has.
pub fn law_kept_are_in_order<X>()
    ensures { (side : LaneForm X) (outs : List (List (Emission × Emitted))) (history : List (LaneAsk × LaneAnswer)) (d : HaveDone side outs history) (sorted : List Emitted) →
        HasJust (together (map kept outs)) sorted → IsNonDecreasingBy (λ (e : Emitted). e.at) sorted → sorted ≡ kept_in d.log }
{}

/// The whole block. Suppose that, after the managers' turns, each lane's history has the calls by which the workers sent
/// their plans' frames there. Then the workers may do this block, and it leaves each lane as the lane's history does.
pub fn law_lanes_are_left<X: Wire>()
    ensures { (net : Network) (workers : ℕ) (w : World) (jobs : List JobValue) (histories : List (List Work)) → 1 ≤ workers → IsRunning net w → IsQuiet w →
        AreTurns net workers w jobs histories → (lanes : LanesWorked X.Wire net workers w histories) →
        LanesLeft X.Wire net workers w jobs histories lanes }
{}

/// All workers' records of a block's frames, sorted by lane and place, say what is reported of the frames and what each
/// manager is to note, lane by lane.
pub fn law_sorted_frames_are_told<X: Wire>()
    ensures { (net : Network) (workers : ℕ) (w : World) (jobs : List JobValue) (histories : List (List Work)) (lanes : LanesWorked X.Wire net workers w histories)
        (left : LanesLeft X.Wire net workers w jobs histories lanes) (outs : List (List (Emission × Emitted))) (sorted : List Emitted) →
        AreSorted X.Wire net workers w histories lanes outs sorted → AreTold net w histories left.logs sorted }
{}

/// Sorted frames are grouped by lane.
pub fn law_sorted_frames_stand_lane_by_lane()
    ensures { (s : Site) (sorted : List Emitted) → AllByRecursion (λ (e : Emitted). is_lane s e.lane ≡ true) sorted →
        IsSortedByBoth (λ (e : Emitted). lane_place e.lane) (λ (e : Emitted). e.at) sorted → flat_map (λ l. on_lane l sorted) (all_lanes s) ≡ sorted }
{}

/// A permutation of a list has the same members, each as often.
pub fn law_permutation_has_just<A>()
    ensures { (xs ys : List A) → IsPermutation xs ys → HasJust xs ys }
{}

/// If two lists have the same members, so have their parts that pass a test.
pub fn law_part_has_just<A>()
    ensures { (p : A → Bool) (xs ys : List A) → HasJust xs ys → HasJust (filter p xs) (filter p ys) }
{}

/// A list that is sorted by two numbers is in order of the second number wherever the first is the same.
pub fn law_sorted_is_in_order<A>()
    ensures { (place key : A → ℕ) (xs : List A) → IsSortedByBoth place key xs → (n : ℕ) → IsOrderedWhere (λ x. place x == n) key xs }
{}

/// If the keys of a list's elements that pass a test don't fall, the part that passes is in order.
pub fn law_part_is_in_order<A>()
    ensures { (p : A → Bool) (key : A → ℕ) (xs : List A) → IsOrderedWhere p key xs → IsNonDecreasingBy key (filter p xs) }
{}

/// The calls of a lane's desk in one job, followed by those in another, are the calls that send the frames of both jobs. A
/// worker that called only other machines sent no frames there.
pub fn law_desks_are_called_on<X, Q, A>()
    ensures both { (side : LaneForm X) (machine place : ℕ) (xs ys : List (Emission × Emitted)) (said later : List (Said (Either Q LaneAsk) (Either A LaneAnswer))) →
        IsCalledFor side machine place xs said → IsCalledFor side machine place ys later → IsCalledFor side machine place (xs ++ ys) (said ++ later) }
    ensures none { (side : LaneForm X) (machine place : ℕ) (said : List (Said (Either Q LaneAsk) (Either A LaneAnswer))) →
        said_on machine said ≡ [] → IsCalledFor side machine place [] said }
{}

/// Each frame that is sent for a line's plan is recorded with that line's place.
pub fn law_frames_are_of_their_line()
    ensures { (line : ℕ) (wants : List Emission) (outs : List (Emission × Emitted)) → map (λ (x : Emission × Emitted). x.0) outs ≡ wants →
        AllByRecursion (λ (x : Emission × Emitted). IsOf line x.0 x.1) outs → AreOfLine line wants outs }
{}

/// Of all frames that the plans of a block send on a lane, a worker is to send just those of its own turns, in their order.
/// If it sent the frames of its own turns, it sent these on the lane.
pub fn law_own_turns_are_wanted()
    ensures { (net : Network) (workers : ℕ) (w : World) (histories : List (List Work)) (own : List (List NodeTurn)) → IsNetwork net →
        AreOwnTurns net workers w histories own → (l : LaneValue) → is_lane net.site l ≡ true → (k : ℕ) (turns : List NodeTurn) → slice_get own k ≡ Some turns →
        (outs : List (Emission × Emitted)) → map wanted_for outs ≡ flat_map wants_of turns →
        map wanted_for (emitted_at (lane_place l) outs) ≡ of_worker workers k (wanted_on l (wanted_by (done_from net w (flat histories)))) }
{}

/// All workers' records of a lane's frames are those for this lane among their records of all frames.
pub fn law_kept_are_on_their_lanes()
    ensures { (l : LaneValue) (outs : List (List (Emission × Emitted))) → AllByRecursion (AllByRecursion IsOfItsLine) outs →
        together (map kept (map (emitted_at (lane_place l)) outs)) ≡ filter (λ (e : Emitted). lane_place e.lane == lane_place l) (together (map kept outs)) }
{}

/// Suppose that a lane's desk is one of several machines, and that each worker called it just to send its frames of the lane.
/// Then the desk's history is one of workers that send these frames.
pub fn law_desks_worked<X, Q, A>()
    ensures { (side : LaneForm X) (machine place : ℕ) (outs : List (List (Emission × Emitted))) (said : List (List (Said (Either Q LaneAsk) (Either A LaneAnswer)))) (history : List (LaneAsk × LaneAnswer)) →
        IsDeskOf side machine place outs said history → DeskWorked side place outs history }
{}
