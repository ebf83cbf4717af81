// The audit of a report's items.
ghost use Rattle.std.specs.Prelude.{◌≡◌, ◌+◌, ◌<◌, ◌^◌, IfOk, length};
ghost use Rattle.run_audit.specs.Rules.{verdict_of, deliveries_in};

use crate::Verdict;
use crate::kinds::kinds_in;
use crate::record::Record;
use qkd_base::Memory;
use run_types::{NumberedItem, Scenario};
use std::alloc::Global;

/// Audits the items of a report, of which the first stands on line `first`. Lines, items and deliveries must be fewer than
/// 2^32 together. For n items the work grows as n log n. The only error is that memory runs out.
pub fn audit(
    alloc: Global,
    scenario: &Scenario,
    items: &[NumberedItem],
    first: u32,
) -> Result<Verdict, Memory>
    requires { first + length items.now + deliveries_in scenario.now items.now < 2 ^ 32 }
    ensures { IfOk result (λ verdict. verdict ≡ verdict_of scenario.now items.now first) }
{
    let kinds = kinds_in(alloc, scenario)?;
    let mut record = Record::new(alloc);
    for (place, told) in items.iter().enumerate() {
        if let Some(rule) = record.take(alloc, scenario, &kinds, told)? {
            return Ok(Verdict::No {
                line: first + place as u32,
                rule,
            });
        }
    }
    let (frames, deliveries, ledgers) = record.counts();
    Ok(Verdict::Yes {
        frames,
        deliveries,
        ledgers,
    })
}
