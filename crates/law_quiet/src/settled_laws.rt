// Laws of scenarios: between lines the network is quiet, and a `settle` line that reports nothing is a silent round.
ghost use Rattle.std.specs.Prelude.{◌≡◌, ◌<◌, ◌≤◌, ◌++◌, ℕ, List, [], true, false, Some, length, take};
ghost use Rattle.std.specs.List.{list_all};
ghost use Rattle.qkd_base.specs.Name.{Name, has};
ghost use Rattle.net_model.specs.declared.fact.Fact.{Fact as FactValue};
ghost use Rattle.net_model.specs.declared.event.Event.TheVariants.{Enc, Dec, EncGroup};
ghost use Rattle.net_model.specs.Table.{fact_at, is_secret, was_handed};
ghost use Rattle.net_model.specs.Pools.{hand_to, pool, unhanded};
ghost use Rattle.net_model.specs.Groups.{group, unhanded_group};
ghost use Rattle.net_model.specs.Knowledge.{AllDiffer};
ghost use Rattle.net_model.specs.Needed.{view_of};
ghost use Rattle.net_model.specs.Handle.{handle};
ghost use Rattle.net_model.specs.World.{Network, World, first};
ghost use Rattle.net_model.specs.Premises.{IsNetwork};
ghost use Rattle.net_model.specs.Action.{Action, Ok};
ghost use Rattle.run_model.specs.Turn.{HttpTexts};
ghost use Rattle.run_model.specs.Lines.{settle};
ghost use Rattle.run_model.specs.Play.{Whole, IsPlay, play};
ghost use Rattle.run_model.specs.Report.{Task, Performed, report, IsRunOf};
ghost use Rattle.law_locality.specs.Quiet.{IsQuiet};
ghost use Rattle.law_safety.specs.Room.{HasRoomAt};
ghost use Rattle.law_safety.specs.Truth.{IsAnswered};
ghost use Rattle.law_quiet.specs.Between.{AskRequests};
ghost use Rattle.law_quiet.specs.Chains.{IsAllUp};
ghost use Rattle.law_quiet.specs.Delivered.{IsDelivered, IsBack};
ghost use Rattle.law_quiet.specs.Raised.{EndsRaised};
ghost use Rattle.law_quiet.specs.Settled.{EndsSilent, IsKeyOf, world_before, world_after};
ghost use Rattle.law_quiet.specs.Silent.{AreSilent, NoneAwaits, IsOpen};

/// After each task of a scenario's run no frame waits for its wire, and no manager awaits what became of one. Premises: the
/// tasks so far came to their end, and `http` lines ask only for what GS QKD 014 has.
pub fn law_lines_leave_quiet()
    ensures { (http : HttpTexts) (net : Network) (workers : ℕ) (tasks : List Task) (done : List Performed) → IsNetwork net → AskRequests http tasks →
        IsRunOf http net workers first tasks done → (report http net first tasks done).ending ≡ Whole →
        IsQuiet (report http net first tasks done).world × NoneAwaits (report http net first tasks done).world }
{}

/// A `settle` line that reports nothing was one silent round, however many it might have had. There are no premises on the
/// world.
pub fn law_silent_settle_is_a_round()
    ensures { (net : Network) (w : World) (number rounds : ℕ) (actions : List Action) → 0 < rounds → IsPlay net w (settle net.site rounds) actions →
        (play net number w (settle net.site rounds) actions).ending ≡ Whole → (play net number w (settle net.site rounds) actions).items ≡ [] →
        AreSilent 1 net w (play net number w (settle net.site rounds) actions).world }
{}

/// Every node and every link is up after `start` lines of all nodes and `link-up` lines of all links, with any `settle` lines
/// among them, if each start told `started` or `up` and no settle told `stopped`.
pub fn law_lines_raise_all()
    ensures { (http : HttpTexts) (net : Network) (workers : ℕ) (earlier raising : List Task) (done more : List Performed) →
        EndsRaised http net workers earlier raising done more → IsAllUp net (world_after http net earlier raising done more) }
{}

/// If the last four lines of a scenario are `settle` lines that report nothing, each fact whose route was open before them
/// is delivered after them, and each such key, chunk or part is confirmed at its origin. Where every node and every link was
/// up, this is so of all facts.
pub fn law_settled_is_delivered()
    ensures arrives { (http : HttpTexts) (net : Network) (workers : ℕ) (earlier settles : List Task) (done rest : List Performed) (n : Name) (f : FactValue) → IsNetwork net →
        AskRequests http earlier → EndsSilent http net workers 4 earlier settles done rest → fact_at (world_before http net earlier done).durable.facts n ≡ Some f →
        IsOpen net (world_before http net earlier done) f → IsDelivered (world_after http net earlier settles done rest) n f }
    ensures returns { (http : HttpTexts) (net : Network) (workers : ℕ) (earlier settles : List Task) (done rest : List Performed) (n : Name) (f : FactValue) → IsNetwork net →
        AskRequests http earlier → EndsSilent http net workers 4 earlier settles done rest → fact_at (world_before http net earlier done).durable.facts n ≡ Some f →
        is_secret f ≡ true → IsOpen net (world_before http net earlier done) f → IsBack net (world_after http net earlier settles done rest) n f }
    ensures every { (http : HttpTexts) (net : Network) (workers : ℕ) (earlier settles : List Task) (done rest : List Performed) (n : Name) (f : FactValue) → IsNetwork net →
        AskRequests http earlier → EndsSilent http net workers 4 earlier settles done rest → IsAllUp net (world_before http net earlier done) →
        fact_at (world_after http net earlier settles done rest).durable.facts n ≡ Some f →
        IsDelivered (world_after http net earlier settles done rest) n f × (is_secret f ≡ true → IsBack net (world_after http net earlier settles done rest) n f) }
{}

/// An operator's way: start every node, put every link up, and settle until four `settle` lines report nothing. Then all that
/// was made has come, and is confirmed.
pub fn law_raised_and_settled_is_delivered()
    ensures { (http : HttpTexts) (net : Network) (workers : ℕ) (earlier raising settles : List Task) (done more rest : List Performed) (n : Name) (f : FactValue) → IsNetwork net →
        AskRequests http (earlier ++ raising) → EndsRaised http net workers earlier raising done more →
        EndsSilent http net workers 4 (earlier ++ raising) settles (done ++ more) rest →
        fact_at (world_after http net (earlier ++ raising) settles (done ++ more) rest).durable.facts n ≡ Some f →
        IsDelivered (world_after http net (earlier ++ raising) settles (done ++ more) rest) n f ×
        (is_secret f ≡ true → IsBack net (world_after http net (earlier ++ raising) settles (done ++ more) rest) n f) }
{}

/// Where every node and every link was up, the next request of a master is then answered with the first keys of its pool,
/// which has just the keys that the master hasn't got. So it is with group keys. A slave gets those that it names and hasn't
/// got. Premises: the pairs are allowed, and the marks fit into the manager's journal.
pub fn law_settled_keys_are_given()
    ensures enc { (http : HttpTexts) (net : Network) (workers : ℕ) (earlier settles : List Task) (done rest : List Performed) (m t n bits : ℕ) → IsNetwork net →
        AskRequests http earlier → EndsSilent http net workers 4 earlier settles done rest → IsAllUp net (world_before http net earlier done) → net.site.allowed m t ≡ true →
        (length (pool (view_of net (world_after http net earlier settles done rest) (net.site.home m)) m t bits) ≡
        unhanded (view_of net (world_after http net earlier settles done rest) (net.site.home m)) m t bits) ×
        (n ≤ unhanded (view_of net (world_after http net earlier settles done rest) (net.site.home m)) m t bits →
        HasRoomAt (world_after http net earlier settles done rest) (net.site.home m)
        (hand_to m (take n (pool (view_of net (world_after http net earlier settles done rest) (net.site.home m)) m t bits))) →
        IsAnswered (world_after http net earlier settles done rest).durable.facts m
        (take n (pool (view_of net (world_after http net earlier settles done rest) (net.site.home m)) m t bits))
        (handle net (world_after http net earlier settles done rest) (net.site.home m) (Enc m t n bits) Ok).1) }
    ensures group { (http : HttpTexts) (net : Network) (workers : ℕ) (earlier settles : List Task) (done rest : List Performed) (m : ℕ) (slaves : List ℕ) (n bits : ℕ) → IsNetwork net →
        AskRequests http earlier → EndsSilent http net workers 4 earlier settles done rest → IsAllUp net (world_before http net earlier done) →
        list_all (λ t. net.site.allowed m t) slaves ≡ true → 0 < length slaves →
        (length (group (view_of net (world_after http net earlier settles done rest) (net.site.home m)) m slaves bits) ≡
        unhanded_group (view_of net (world_after http net earlier settles done rest) (net.site.home m)) m slaves bits) ×
        (n ≤ unhanded_group (view_of net (world_after http net earlier settles done rest) (net.site.home m)) m slaves bits →
        HasRoomAt (world_after http net earlier settles done rest) (net.site.home m)
        (hand_to m (take n (group (view_of net (world_after http net earlier settles done rest) (net.site.home m)) m slaves bits))) →
        IsAnswered (world_after http net earlier settles done rest).durable.facts m
        (take n (group (view_of net (world_after http net earlier settles done rest) (net.site.home m)) m slaves bits))
        (handle net (world_after http net earlier settles done rest) (net.site.home m) (EncGroup m slaves n bits) Ok).1) }
    ensures dec { (http : HttpTexts) (net : Network) (workers : ℕ) (earlier settles : List Task) (done rest : List Performed) (m t : ℕ) (names : List Name) → IsNetwork net →
        AskRequests http earlier → EndsSilent http net workers 4 earlier settles done rest → IsAllUp net (world_before http net earlier done) → net.site.allowed m t ≡ true →
        AllDiffer names → ((n : Name) → has names n ≡ true → IsKeyOf (world_after http net earlier settles done rest) m t n) →
        ((n : Name) → has names n ≡ true → was_handed (world_after http net earlier settles done rest).durable.handed n t ≡ false) →
        HasRoomAt (world_after http net earlier settles done rest) (net.site.home t) (hand_to t names) →
        IsAnswered (world_after http net earlier settles done rest).durable.facts t names
        (handle net (world_after http net earlier settles done rest) (net.site.home t) (Dec t m names) Ok).1 }
{}
