// The audit of a text, and the line that states its verdict.
ghost use Rattle.std.specs.Prelude.{◌≡◌, IfOk, MatchResult};
ghost use Rattle.audit_text.specs.Input.{IsBadLine, IsNotRead};
ghost use Rattle.audit_text.specs.Verdicts.{IsVerdict, verdict_text};

use crate::input::read_input;
use crate::refusal::AuditRefusal;
use qkd_base::{Memory, Octets};
use run_audit::{Verdict, audit};
use std::alloc::Global;

/// Audits a text: a scenario up to its line `end`, and behind it a report. Errors: a line belongs to neither, or memory runs
/// out.
pub fn audit_text(alloc: Global, text: &[u8]) -> Result<Verdict, AuditRefusal>
    ensures { MatchResult result (λ verdict. IsVerdict text.now verdict) (λ e. IsNotRead (IsBadLine text.now) e) }
{
    let input = read_input(alloc, text)?;
    Ok(audit(alloc, &input.scenario, input.items.as_slice(), input.first)?)
}

/// The line that states a verdict, with its LF. The only error is that memory runs out.
#[tactic(auto, unfolding(crate::specs::Verdicts::verdict_text))]
pub fn verdict_text(alloc: Global, verdict: Verdict) -> Result<Octets, Memory>
    ensures { IfOk result (λ text. text ≡ verdict_text verdict) }
{
    let line = match verdict {
        Verdict::Yes {
            frames,
            deliveries,
            ledgers,
        } => format!(in alloc; "audit yes {frames} {deliveries} {ledgers}\n")?,
        Verdict::No { line, rule } => format!(in alloc; "audit no {line} {rule}\n")?,
    };
    Octets::from_slice(alloc, line.as_str().as_bytes())
}
