// The rules from 7 on, item by item.
ghost use Rattle.std.specs.Prelude.{◌≡◌, ◌≤◌, List, [], ◌∷◌, None, length, IfOk, IfSome};
ghost use Rattle.run_types.specs.declared.item.NumberedItem.{NumberedItem as Told};
ghost use Rattle.whole_audit.specs.Whole.{broken, break_of};
ghost use Rattle.whole_audit.specs.Kept.{IsJudgeOf};

use crate::findings::least;
use crate::order::Walk;
use crate::tables::Tables;
use qkd_base::Memory;
use run_types::{NumberedItem, Scenario};
use std::alloc::Global;

/// Where the items so far stand, and what they said.
#[derive(Drop)]
pub struct Judge {
    walk: Walk,
    tables: Tables,
}

impl Judge {
    /// Before the first item. The only error is that memory runs out.
    pub fn new(alloc: Global, scenario: &Scenario) -> Result<Self, Memory>
        ensures { IfOk result (λ judge. IsJudgeOf scenario.now judge []) }
    {
        Ok(Judge {
            walk: Walk::new(alloc),
            tables: Tables::new(alloc, scenario)?,
        })
    }

    /// Adds an item, and returns the least rule from 7 on that it breaks, if it breaks any. After an item that breaks one the
    /// judge must not be used again. The only error is that memory runs out.
    pub fn take(&mut self, scenario: &Scenario, told: &NumberedItem) -> Result<Option<u8>, Memory>
        ensures { (before : List Told) → IsJudgeOf scenario.now self.old before → IfOk result (λ rule. (rule ≡ broken scenario.now before told.now) × (rule ≡ None → IsJudgeOf scenario.now self.new (told.now ∷ before))) }
    {
        let owes = self.tables.owes(scenario, told);
        let stands = self.walk.take(scenario, told, owes)?;
        let inside = self.walk.is_in_block(scenario, stands);
        let findings = self.tables.findings(scenario, told, stands, inside);
        let rule = least(&findings);
        if rule.is_none() {
            self.tables.learn(scenario, told)?;
        }
        Ok(rule)
    }
}

/// The place of the first item that breaks a rule from 7 on, and the least such rule. A report that lacks something at its
/// end breaks rule 7 behind its last item. The only error is that memory runs out.
pub fn break_of(
    alloc: Global,
    scenario: &Scenario,
    items: &[NumberedItem],
) -> Result<Option<(usize, u8)>, Memory>
    ensures place { IfOk result (λ place. place ≡ break_of scenario.now items.now) }
    ensures within { IfOk result (λ place. IfSome place (λ b. b.0 ≤ length items.now)) }
{
    let mut judge = Judge::new(alloc, scenario)?;
    for (place, told) in items.iter().enumerate() {
        if let Some(rule) = judge.take(scenario, told)? {
            return Ok(Some((place, rule)));
        }
    }
    if judge.walk.may_end(scenario) {
        Ok(None)
    } else {
        Ok(Some((items.len(), 7)))
    }
}
