// Worked scenarios (rows) of the network model, computed from its definitions: each has the stated report and only legal actions.
ghost use Rattle.model_examples.specs.TickRows.{OneKey, EmptyLanes, HeardAgain, AnyOrder, FullLane, ShortLane, FewBytes, RefusedPut, Ages, ManyRepeats, DownLink};
ghost use Rattle.model_examples.specs.RelayRows.{Relay, RelayCrash};
ghost use Rattle.model_examples.specs.KeyRows.{Pools, Faults, Entitled, NotReady, ShownKeys, ShortEntropy, FullPool};
ghost use Rattle.model_examples.specs.StreamRows.{Streams, Joining, FedByAnyName};
ghost use Rattle.model_examples.specs.StartRows.{Leases, PlanCommitted, PlanLost, HandingCommitted, HandingLost, DrawnStays, NewLife, OwnCounts};
ghost use Rattle.model_examples.specs.GroupRows.{GroupKey, GroupWaits, GroupNames, TwoAtHome};
ghost use Rattle.model_examples.specs.FrameRows.{Tampered, ForgedFrames, Blocks, FrameRefusals};
ghost use Rattle.model_examples.specs.JournalRows.{Checkpoints, CheckpointInDoubt, Migration, CheckpointOnce, FullJournal, HandingRuns, UsedKeys, BlankOfVersion1};
ghost use Rattle.model_examples.specs.WorldRows.{Resting, SameFrame, Ownership, FirstStarts, FirstForeign, Legal, Illegal};
ghost use Rattle.model_examples.specs.ManagerRows.{KeysFollowed, StreamsFollowed, GroupsFollowed, RelayFollowed};
ghost use Rattle.model_examples.specs.RunRows.{StoppedStart, ForeignStart, NoMemoryAtStart, DownInSettle, RefusedInSettle, LossInSettle, Refusals, FullLink, ForgedRefusals, RefusedReplies, ForgedRun, GroupOrder, Requests};
ghost use Rattle.model_examples.specs.BlockRows.{TwoWorkers, MergedHistory, Parts, PutByLine, NoMemoryInBlock, RefusedInBlock, ThreeManagers, InBlocks, ShortRun, BatchesFold, FoundBatches, Left};
ghost use Rattle.model_examples.specs.LoadRows.{SiteOfLoad, LoadOfOne, LaterRound};
ghost use Rattle.model_examples.specs.PartRows.{TwoPlans, AckedMeanwhile, FullPools, AskedElsewhere, Walks, LaneBytes};

/// Proves the rows about frames over one link: ticks, acknowledgements, repeats, and ticks that run short of bytes.
pub fn tick_rows()
    ensures one_key { OneKey }
    ensures empty_lanes { EmptyLanes }
    ensures heard_again { HeardAgain }
    ensures any_order { AnyOrder }
    ensures full_lane { FullLane }
    ensures short_lane { ShortLane }
    ensures few_bytes { FewBytes }
    ensures refused_put { RefusedPut }
    ensures ages { Ages }
    ensures many_repeats { ManyRepeats }
    ensures down_link { DownLink }
{}

/// Proves the rows about a key over a relay node, also if that node crashes.
pub fn relay_rows()
    ensures relay { Relay }
    ensures relay_crash { RelayCrash }
{}

/// Proves the rows about keys of one master and one slave.
pub fn key_rows()
    ensures pools { Pools }
    ensures faults { Faults }
    ensures entitled { Entitled }
    ensures not_ready { NotReady }
    ensures shown_keys { ShownKeys }
    ensures short_entropy { ShortEntropy }
    ensures full_pool { FullPool }
{}

/// Proves the rows about streams.
pub fn stream_rows()
    ensures streams { Streams }
    ensures joining { Joining }
    ensures fed_by_any_name { FedByAnyName }
{}

/// Proves the rows about crashes, stops and starts.
pub fn start_rows()
    ensures leases { Leases }
    ensures plan_committed { PlanCommitted }
    ensures plan_lost { PlanLost }
    ensures handing_committed { HandingCommitted }
    ensures handing_lost { HandingLost }
    ensures drawn_stays { DrawnStays }
    ensures new_life { NewLife }
    ensures own_counts { OwnCounts }
{}

/// Proves the rows about group keys.
pub fn group_rows()
    ensures group_key { GroupKey }
    ensures group_waits { GroupWaits }
    ensures group_names { GroupNames }
    ensures two_at_home { TwoAtHome }
{}

/// Proves the rows about changed and invented frames, and about blocks of devices.
pub fn frame_rows()
    ensures tampered { Tampered }
    ensures forged_frames { ForgedFrames }
    ensures blocks { Blocks }
    ensures frame_refusals { FrameRefusals }
{}

/// Proves the rows about journals and their checkpoints.
pub fn journal_rows()
    ensures checkpoints { Checkpoints }
    ensures checkpoint_in_doubt { CheckpointInDoubt }
    ensures migration { Migration }
    ensures checkpoint_once { CheckpointOnce }
    ensures blank_of_version_1 { BlankOfVersion1 }
    ensures full_journal { FullJournal }
    ensures handing_runs { HandingRuns }
    ensures used_keys { UsedKeys }
{}

/// Proves the rows about managers that are down, the owners of a lane's bytes, first starts, and actions that are not enabled.
pub fn world_rows()
    ensures resting { Resting }
    ensures same_frame { SameFrame }
    ensures ownership { Ownership }
    ensures first_starts { FirstStarts }
    ensures first_foreign { FirstForeign }
    ensures legal { Legal }
    ensures illegal { Illegal }
{}

/// Proves for some runs that a manager's next view depends on its own view alone, and that its checkpoint restores it.
pub fn manager_rows()
    ensures keys_followed { KeysFollowed }
    ensures streams_followed { StreamsFollowed }
    ensures groups_followed { GroupsFollowed }
    ensures relay_followed { RelayFollowed }
{}

/// Proves the rows about single parts: plans whose bytes nobody claimed yet, full pools, routes, lane bytes.
pub fn part_rows()
    ensures two_plans { TwoPlans }
    ensures acked_meanwhile { AckedMeanwhile }
    ensures full_pools { FullPools }
    ensures asked_elsewhere { AskedElsewhere }
    ensures walks { Walks }
    ensures lane_bytes { LaneBytes }
{}

/// Proves the rows about runs in which the environment fails, nodes are down, or frames are forged.
pub fn run_rows()
    ensures stopped_start { StoppedStart }
    ensures foreign_start { ForeignStart }
    ensures no_memory_at_start { NoMemoryAtStart }
    ensures down_in_settle { DownInSettle }
    ensures refused_in_settle { RefusedInSettle }
    ensures loss_in_settle { LossInSettle }
    ensures refusals { Refusals }
    ensures full_link { FullLink }
    ensures forged_refusals { ForgedRefusals }
    ensures refused_replies { RefusedReplies }
    ensures forged_run { ForgedRun }
    ensures group_order { GroupOrder }
    ensures requests { Requests }
{}

/// Proves the rows about blocks of several workers and managers, and about the results of runs.
pub fn block_rows()
    ensures two_workers { TwoWorkers }
    ensures merged_history { MergedHistory }
    ensures parts { Parts }
    ensures put_by_line { PutByLine }
    ensures no_memory_in_block { NoMemoryInBlock }
    ensures refused_in_block { RefusedInBlock }
    ensures three_managers { ThreeManagers }
    ensures in_blocks { InBlocks }
    ensures short_run { ShortRun }
    ensures batches_fold { BatchesFold }
    ensures found_batches { FoundBatches }
    ensures left { Left }
{}

/// Proves the rows about the generated load of one round.
pub fn load_rows()
    ensures site_of_load { SiteOfLoad }
    ensures load_of_one { LoadOfOne }
    ensures later_round { LaterRound }
{}
