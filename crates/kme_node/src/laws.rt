// Laws: steps keep their room, and batches from a journal may be replayed.
ghost use Rattle.std.specs.Prelude.{◌≡◌, ℕ, List};
ghost use Rattle.std.specs.List.{All};
ghost use Rattle.net_model.specs.declared.record.Record.{Record as RecordValue};
ghost use Rattle.net_model.specs.Formed.{IsWellFormedRecord};
ghost use Rattle.kme_base.specs.declared.step.Step.{Step};
ghost use Rattle.kme_base.specs.Random.{with_random};
ghost use Rattle.kme_node.specs.Holdings.{Holdings, Fits, HasRoom};
ghost use Rattle.kme_node.specs.Replayed.{AreWhole};

/// Proof only. If a manager has room for a step, or the step fits the manager, that stays true once drawn octets are
/// in the step's batch.
pub fn law_drawn_steps_apply()
    ensures room { (h : Holdings) (s : Step) (random : List ℕ) → HasRoom h s → HasRoom h (record s { batch = with_random random s.batch }) }
    ensures fits { (h : Holdings) (s : Step) (random : List ℕ) → Fits h s → Fits h (record s { batch = with_random random s.batch }) }
{}

/// Proof only. A batch of well-formed records may be replayed.
pub fn law_formed_batches_are_whole()
    ensures { (batch : List RecordValue) → All IsWellFormedRecord batch → AreWhole batch }
{}
