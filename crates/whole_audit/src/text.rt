// The whole audit of a text.
ghost use Rattle.std.specs.Prelude.{◌≡◌, MatchResult};
ghost use Rattle.audit_text.specs.Input.{IsBadLine, IsNotRead};
ghost use Rattle.whole_audit.specs.Whole.{IsWholeVerdict};

use crate::whole_verdict::whole_audit;
use audit_text::{AuditRefusal, read_input};
use run_audit::Verdict;
use std::alloc::Global;

/// Audits a text by all rules: a scenario up to its line `end`, and behind it a report. Errors: a line belongs to neither, or
/// memory runs out.
pub fn whole_text(alloc: Global, text: &[u8]) -> Result<Verdict, AuditRefusal>
    ensures { MatchResult result (λ verdict. IsWholeVerdict text.now verdict) (λ e. IsNotRead (IsBadLine text.now) e) }
{
    let input = read_input(alloc, text)?;
    Ok(whole_audit(alloc, &input.scenario, input.items.as_slice(), input.first)?)
}
