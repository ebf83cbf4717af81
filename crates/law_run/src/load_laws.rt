// Laws of the generated load: how many keys it hands to masters and to slaves, and that it writes only its ledgers.
ghost use Rattle.std.specs.Prelude.{◌≡◌, ℕ, ◌+◌, true, false, List, [], ◌++◌};
ghost use Rattle.std.specs.List.{list_all};
ghost use Rattle.qkd_base.specs.Name.{Name};
ghost use Rattle.qkd_base.specs.declared.lane.Lane.{Lane};
ghost use Rattle.net_model.specs.Premises.{IsNetwork};
ghost use Rattle.net_model.specs.Site.{Site};
ghost use Rattle.net_model.specs.World.{Network, World, first};
ghost use Rattle.net_model.specs.Action.{Action};
ghost use Rattle.net_model.specs.Step.{run, IsRun};
ghost use Rattle.net_model.specs.Deliveries.{deliveries};
ghost use Rattle.run_types.specs.declared.command.Command.{Command};
ghost use Rattle.run_types.specs.declared.command.Command.TheVariants as commands;
ghost use Rattle.run_model.specs.Turn.{HttpTexts};
ghost use Rattle.run_model.specs.Lines.{script_of, begins};
ghost use Rattle.run_model.specs.Play.{Whole, play, IsPlay};
ghost use Rattle.run_model.specs.Report.{Task, Performed, report, actions_of, IsRunOf};
ghost use Rattle.run_model.specs.Left.{to_masters, to_slaves};
ghost use Rattle.run_model.specs.Load.{load_scenario};
ghost use Rattle.run_model.specs.Course.{tasks_of};
ghost use Rattle.law_run.specs.Handed.{enc_keys, dec_keys, asks_no_key, is_of_pairs, keys_told};
ghost use Rattle.law_run.specs.Kinds.{is_of_load, is_unhanding, is_ledger_line, is_load_entry, is_load_task, has_no_ledger, is_ledger_task};
ghost use Rattle.law_run.specs.Ledgers.{ledgers_of};

/// In a run that asks for no group key and no chunk, masters got the keys that `enc` handed out, and slaves got those
/// that `dec` handed out. The run begins before any start, since a load does: of a later world it isn't said that its
/// table has each name once.
pub fn law_masters_and_slaves()
    ensures masters { (net : Network) (actions : List Action) → IsNetwork net → IsRun net first actions → list_all is_of_pairs actions ≡ true →
        to_masters (run net first actions) (deliveries net first actions) ≡ enc_keys net first actions }
    ensures slaves { (net : Network) (actions : List Action) → IsNetwork net → IsRun net first actions → list_all is_of_pairs actions ≡ true →
        to_slaves (run net first actions) (deliveries net first actions) ≡ dec_keys net first actions }
{}

/// The keys handed out in two runs in sequence add up. A run that asks for no key hands out none.
pub fn law_keys_add_up()
    ensures enc { (net : Network) (w : World) (xs ys : List Action) → enc_keys net w (xs ++ ys) ≡ enc_keys net w xs + enc_keys net (run net w xs) ys }
    ensures dec { (net : Network) (w : World) (xs ys : List Action) → dec_keys net w (xs ++ ys) ≡ dec_keys net w xs + dec_keys net (run net w xs) ys }
    ensures no_enc { (net : Network) (w : World) (actions : List Action) → list_all asks_no_key actions ≡ true → enc_keys net w actions ≡ 0 }
    ensures no_dec { (net : Network) (w : World) (actions : List Action) → list_all asks_no_key actions ≡ true → dec_keys net w actions ≡ 0 }
{}

/// Starts, link bytes, new keys, settles and ledgers ask for no key. An `enc` line hands a master the keys that it
/// reports, and a `dec` line does so for a slave.
pub fn law_lines_hand_out()
    ensures begins { (net : Network) (w : World) (v : ℕ) (actions : List Action) → IsPlay net w (begins v) actions → list_all asks_no_key actions ≡ true }
    ensures others { (http : HttpTexts) (net : Network) (w : World) (site : Site) (command : Command) (actions : List Action) → is_unhanding command ≡ true →
        IsPlay net w (script_of http site command) actions → list_all asks_no_key actions ≡ true }
    ensures enc { (http : HttpTexts) (net : Network) (number : ℕ) (w : World) (site : Site) (v m s n bits : ℕ) (actions : List Action) →
        IsPlay net w (script_of http site (commands.Enc v m s n bits)) actions →
        enc_keys net w actions ≡ keys_told (play net number w (script_of http site (commands.Enc v m s n bits)) actions).items }
    ensures enc_alone { (http : HttpTexts) (net : Network) (w : World) (site : Site) (v m s n bits : ℕ) (actions : List Action) →
        IsPlay net w (script_of http site (commands.Enc v m s n bits)) actions → dec_keys net w actions ≡ 0 }
    ensures dec { (http : HttpTexts) (net : Network) (number : ℕ) (w : World) (site : Site) (v s m : ℕ) (names : List Name) (actions : List Action) →
        IsPlay net w (script_of http site (commands.Dec v s m names)) actions →
        dec_keys net w actions ≡ keys_told (play net number w (script_of http site (commands.Dec v s m names)) actions).items }
    ensures dec_alone { (http : HttpTexts) (net : Network) (w : World) (site : Site) (v s m : ℕ) (names : List Name) (actions : List Action) →
        IsPlay net w (script_of http site (commands.Dec v s m names)) actions → enc_keys net w actions ≡ 0 }
{}

/// The lines of a load ask only for keys of pairs.
pub fn law_loads_are_of_pairs()
    ensures begins { (net : Network) (w : World) (v : ℕ) (actions : List Action) → IsPlay net w (begins v) actions → list_all is_of_pairs actions ≡ true }
    ensures line { (http : HttpTexts) (net : Network) (w : World) (site : Site) (command : Command) (actions : List Action) → is_of_load command ≡ true →
        IsPlay net w (script_of http site command) actions → list_all is_of_pairs actions ≡ true }
    ensures tasks { (http : HttpTexts) (net : Network) (workers : ℕ) (w : World) (tasks : List Task) (done : List Performed) → list_all is_load_task tasks ≡ true →
        IsRunOf http net workers w tasks done → list_all is_of_pairs (actions_of net done) ≡ true }
{}

/// Only a ledger line reports ledgers, and it reports nothing else.
pub fn law_lines_of_ledgers()
    ensures begins { (net : Network) (number : ℕ) (w : World) (v : ℕ) (actions : List Action) → ledgers_of (play net number w (begins v) actions).items ≡ [] }
    ensures others { (http : HttpTexts) (net : Network) (number : ℕ) (w : World) (site : Site) (command : Command) (actions : List Action) → is_ledger_line command ≡ false →
        ledgers_of (play net number w (script_of http site command) actions).items ≡ [] }
    ensures ledger { (http : HttpTexts) (net : Network) (number : ℕ) (w : World) (site : Site) (lane : Lane) (actions : List Action) →
        ledgers_of (play net number w (script_of http site (commands.Ledger lane)) actions).items ≡ (play net number w (script_of http site (commands.Ledger lane)) actions).items }
{}

/// A task without a ledger line reports no ledger, and a task that is a ledger line reports nothing else. The ledgers
/// of tasks in sequence are the concatenation of their ledgers.
pub fn law_tasks_of_ledgers()
    ensures none { (http : HttpTexts) (net : Network) (w : World) (tasks : List Task) (done : List Performed) → list_all has_no_ledger tasks ≡ true →
        ledgers_of (report http net w tasks done).items ≡ [] }
    ensures alone { (http : HttpTexts) (net : Network) (w : World) (tasks : List Task) (done : List Performed) → list_all is_ledger_task tasks ≡ true →
        ledgers_of (report http net w tasks done).items ≡ (report http net w tasks done).items }
    ensures more { (http : HttpTexts) (net : Network) (workers : ℕ) (w : World) (xs ys : List Task) (ds es : List Performed) → IsRunOf http net workers w xs ds →
        (report http net w xs ds).ending ≡ Whole →
        ledgers_of (report http net w (xs ++ ys) (ds ++ es)).items ≡ ledgers_of (report http net w xs ds).items ++ ledgers_of (report http net (report http net w xs ds).world ys es).items }
{}

/// The entries of a load are single lines, not blocks. They are for link bytes, new keys, settles, keys for a master,
/// keys for a slave other than the master, and ledgers.
pub fn law_load_lines()
    ensures entries { (rounds : ℕ) → list_all is_load_entry (load_scenario rounds).entries ≡ true }
    ensures tasks { (rounds : ℕ) → list_all is_load_task (tasks_of (load_scenario rounds)) ≡ true }
{}
