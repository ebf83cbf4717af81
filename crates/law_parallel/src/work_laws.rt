// Laws of blocks that are done in sequence, node by node and then lane by lane: workers side by side may do just the
ghost use Rattle.std.specs.Prelude.{◌≡◌, ◌≤◌, ℕ, List, map, true};
ghost use Rattle.std.specs.List.{list_all};
ghost use Rattle.net_model.specs.Site.{Site as NetworkSite, count_up};
ghost use Rattle.net_model.specs.World.{Network, World};
ghost use Rattle.net_model.specs.Premises.{IsNetwork};
ghost use Rattle.net_model.specs.Invariant.{Conserved};
ghost use Rattle.net_model.specs.BlockOrder.{IsMerge};
ghost use Rattle.run_model.specs.Works.{Work, Works};
ghost use Rattle.run_ops.specs.Quiet.{IsQuiet};
ghost use Rattle.run_ops.specs.declared.job.Job.{Job as JobValue};
ghost use Rattle.run_ops.specs.Jobs.{is_job, asked_by, asked_in_order};
ghost use Rattle.run_ops.specs.Together.{AreWorks};
ghost use Rattle.law_parallel.specs.Putting.{Putting};
ghost use Rattle.law_parallel.specs.InOrder.{IsInOrder, IsOneBlock};

/// What a single worker asks of a manager, job by job, is a merge of what several workers ask of it, whatever their
/// number.
pub fn law_in_order_is_a_merge()
    ensures { (site : NetworkSite) (workers v : ℕ) (jobs : List JobValue) → 1 ≤ workers →
        IsMerge (map (λ k. asked_by site workers k v 0 jobs) (count_up workers)) (asked_in_order site v jobs) }
{}

/// A block is done in sequence: first node by node, where each manager does some merge of what the workers ask of it,
/// and then lane by lane. The result is a block that these workers may do. Premises: `IsNetwork`, `Conserved` and
/// `IsQuiet` hold before, and a block may have these jobs.
pub fn law_in_order_is_one_block()
    ensures { (net : Network) (workers : ℕ) (w : World) (jobs : List JobValue) (histories : List (List Work)) (ps : List Putting) → 1 ≤ workers →
        IsNetwork net → Conserved net w → IsQuiet w → list_all (is_job net.site) jobs ≡ true → IsInOrder net workers w jobs histories ps →
        IsOneBlock net workers w jobs histories ps }
{}

/// What one worker does alone is what any number of workers may do.
pub fn law_one_works_for_many()
    ensures { (net : Network) (workers : ℕ) (w : World) (jobs : List JobValue) (works : Works) → 1 ≤ workers → AreWorks net 1 w jobs works → AreWorks net workers w jobs works }
{}
