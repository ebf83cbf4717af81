// The verdict of all rules.
ghost use Rattle.std.specs.Prelude.{◌≡◌, ℕ, ◌+◌, ◌<◌, ◌^◌, IfOk, IfSome, length};
ghost use Rattle.run_audit.specs.Rules.{deliveries_in};
ghost use Rattle.whole_audit.specs.Whole.{with_break, whole_verdict_of};

use crate::judge::break_of;
use qkd_base::Memory;
use run_audit::{Verdict, audit};
use run_types::{NumberedItem, Scenario};
use std::alloc::Global;

// The verdict, or what is broken on an earlier line.
fn with_break(first: u32, place: Option<(usize, u8)>, verdict: Verdict) -> Verdict
    requires { IfSome place (λ (b : ℕ × ℕ). first + b.0 < 2 ^ 32) }
    ensures { result ≡ with_break first place verdict }
{
    match place {
        None => verdict,
        Some((place, rule)) => {
            let line = first + place as u32;
            match verdict {
                Verdict::Yes { .. } => Verdict::No { line, rule },
                Verdict::No { line: other, .. } => {
                    if line < other {
                        Verdict::No { line, rule }
                    } else {
                        verdict
                    }
                }
            }
        }
    }
}

/// Audits the items of a report by all rules. Its first item stands on line `first`. Lines, items and deliveries must be
/// fewer than 2^32 together. For n items the work grows as n log n, but in a block as the product of its lines and items.
/// The only error is that memory runs out.
pub fn whole_audit(
    alloc: Global,
    scenario: &Scenario,
    items: &[NumberedItem],
    first: u32,
) -> Result<Verdict, Memory>
    requires { first + length items.now + deliveries_in scenario.now items.now < 2 ^ 32 }
    ensures { IfOk result (λ verdict. verdict ≡ whole_verdict_of scenario.now items.now first) }
{
    let sound = audit(alloc, scenario, items, first)?;
    let place = break_of(alloc, scenario, items)?;
    Ok(with_break(first, place, sound))
}
