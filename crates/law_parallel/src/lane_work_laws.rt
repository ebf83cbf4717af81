// Laws of blocks whose lanes do their work in any order: workers side by side may do just the same.
ghost use Rattle.std.specs.Prelude.{◌≡◌, ◌<◌, ◌≤◌, ℕ, List, map, true};
ghost use Rattle.std.specs.List.{AllByRecursion};
ghost use Rattle.qkd_base.specs.declared.lane.Lane.{Lane as LaneValue};
ghost use Rattle.net_model.specs.World.{Network, World};
ghost use Rattle.net_model.specs.Premises.{IsNetwork};
ghost use Rattle.net_model.specs.Invariant.{Conserved};
ghost use Rattle.net_model.specs.Events.{is_lane};
ghost use Rattle.net_model.specs.Tick.{Emission};
ghost use Rattle.net_model.specs.Action.{Environment};
ghost use Rattle.net_model.specs.BlockOrder.{IsMerge};
ghost use Rattle.run_model.specs.Works.{Work};
ghost use Rattle.run_ops.specs.Quiet.{IsQuiet};
ghost use Rattle.run_ops.specs.declared.job.Job.{Job as JobValue};
ghost use Rattle.law_parallel.specs.Putting.{Putting};
ghost use Rattle.law_parallel.specs.InOrder.{IsInOrder, turns_over};
ghost use Rattle.law_parallel.specs.Logs.{Deed, claims_put, HaveTheSame};
ghost use Rattle.law_parallel.specs.Puts.{LaneFrame, frames_put};
ghost use Rattle.law_parallel.specs.LaneWorks.{AreLaneWorks, IsLaneBlock};
ghost use Rattle.law_parallel.specs.Places.{claimed_at, numbered, IsNumbered};
ghost use Rattle.law_parallel.specs.Calls.{placed_from, AreWorkersWorks, IsSealed};
ghost use Rattle.law_parallel.specs.Beside.{at_its_place, HasLog};
ghost use Rattle.law_parallel.specs.Workers.{of_worker, logs_in_order};

/// If each lane does exactly what the plans order on it, each deed once and in any order, the result is a block that
/// its workers may do. Claims and puts may alternate. Premises: `IsNetwork`, `Conserved` and `IsQuiet` hold before.
pub fn law_lane_works_are_one_block()
    ensures { (net : Network) (workers : ℕ) (w : World) (jobs : List JobValue) (histories : List (List Work)) (logs : LaneValue → List Deed) → 1 ≤ workers →
        IsNetwork net → Conserved net w → IsQuiet w → AreLaneWorks net workers w jobs histories logs →
        IsLaneBlock net workers w jobs histories logs }
{}

/// In a log, puts may name their claims by the claims' places in the log. The same log with numbers in place of
/// places has the same claims, repeats and answers. If the first log puts the frame of each claim once, so does the
/// second.
pub fn law_claims_have_numbers()
    ensures { (log : List Deed) → HaveTheSame (claims_put log) (claimed_at 0 log) → IsNumbered log }
{}

/// If each worker does on a lane what the plans of its own lines order there, in their order, then all workers together
/// do exactly what all plans order there.
pub fn law_each_worker_does_its_own()
    ensures { (workers : ℕ) (done wanted : List (ℕ × Emission)) → 1 ≤ workers →
        ((k : ℕ) → k < workers → of_worker workers k done ≡ of_worker workers k wanted) → HaveTheSame done wanted }
{}

/// Doing a block in sequence, node by node and lane by lane, with each order claimed and put at once, is one way in
/// which lanes may do what the plans order.
pub fn law_in_order_is_lane_works()
    ensures { (net : Network) (workers : ℕ) (w : World) (jobs : List JobValue) (histories : List (List Work)) (ps : List Putting) →
        IsInOrder net workers w jobs histories ps → AreLaneWorks net workers w jobs histories (logs_in_order net.site ps) }
{}

/// The log of each lane is a merge of what the workers did there, and puts name their claims by their places in the
/// log. If each worker did what the plans of its own lines order, in their order, then each lane has done exactly what
/// all plans order.
pub fn law_workers_works_are_lane_works()
    ensures { (net : Network) (workers : ℕ) (w : World) (jobs : List JobValue) (histories : List (List Work)) (calls : LaneValue → List (List (ℕ × Deed)))
        (logs : LaneValue → List Deed) → 1 ≤ workers → AreWorkersWorks net workers w jobs histories calls logs →
        AreLaneWorks net workers w jobs histories (λ l. numbered (logs l)) }
{}

/// Each frame that is put in this way is one that a plan orders on the lane, and has the octets given for it. For a
/// new order these are its payload, sealed with the lane's bytes at the frame's offset. A repeat carries its octets.
/// Premises: as for the block.
pub fn law_frames_have_octets_given()
    ensures { (net : Network) (workers : ℕ) (w : World) (jobs : List JobValue) (histories : List (List Work)) (calls : LaneValue → List (List (ℕ × Deed)))
        (logs : LaneValue → List Deed) → 1 ≤ workers → IsNetwork net → Conserved net w → IsQuiet w → AreWorkersWorks net workers w jobs histories calls logs →
        (l : LaneValue) → is_lane net.site l ≡ true →
        AllByRecursion (λ (p : LaneFrame × Environment). IsSealed net (turns_over net w histories) l p.0) (frames_put (turns_over net w histories) l (numbered (logs l))) }
{}

/// Each caller of a lane's machine keeps, of each of its calls, the entry in the history of all calls and the deed
/// that the call was. Then the deeds form a log, in the order of the history, which is a merge of what each caller
/// did.
pub fn law_deeds_are_a_log<E, P>()
    ensures { (entry : P → E) (deed : P → Deed) (kept : List (List (ℕ × P))) (history : List E) →
        IsMerge (map (map (at_its_place entry)) kept) (placed_from 0 history) → HasLog entry deed kept history }
{}
