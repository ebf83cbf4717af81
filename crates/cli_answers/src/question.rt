// The questions about a text.
ghost use Rattle.std.specs.Prelude.{◌≡◌, MatchResult, take};
ghost use Rattle.cli_answers.specs.Answers.{Asked, IsAnswer, IsRefused, IsUnanswered, Bounds, Audits, WholeAudits, Checks, Objects, asked_of, CanBeAsked};

use crate::answer::{Answer, AnswerRefusal, Verdict};
use audit_text::{audit_text, verdict_text};
use report_json::json_text;
use scenario_check::{check_text, checked_text};
use std::alloc::Global;
use tag_bound::{ShortText, bound_of, bound_text};
use whole_audit::whole_text;

/// A question about a text.
#[derive(Clone, Copy)]
pub enum Question {
    /// How many of the text's keys, one on each line, give two different texts a difference of hashes?
    Bound {
        a: ShortText,
        b: ShortText,
        difference: u64,
    },
    /// Does the report behind a scenario break a rule of the audit?
    Audit,
    /// Does it break a rule of the audit of the whole report?
    WholeAudit,
    /// Which lines of a scenario are refused, and why?
    Check,
    /// What are the items of the report behind a scenario, as JSON objects?
    Objects,
}

// The count of the keys that give the difference, with its bound.
fn count_of_keys(
    alloc: Global,
    a: &ShortText,
    b: &ShortText,
    difference: u64,
    text: &[u8],
) -> Result<Answer, AnswerRefusal>
    requires differ { ¬ (take a.now.size a.now.octets ≡ take b.now.size b.now.octets) }
    ensures { MatchResult result (λ answer. IsAnswer (Bounds (take a.now.size a.now.octets) (take b.now.size b.now.octets) difference) text.now answer)
        (λ e. IsUnanswered (IsRefused (Bounds (take a.now.size a.now.octets) (take b.now.size b.now.octets) difference) text.now) e) }
{
    let count = bound_of(alloc, a.as_slice(), b.as_slice(), difference, text)?;
    let text = bound_text(alloc, count)?;
    Ok(Answer {
        text,
        verdict: Verdict::Yes,
    })
}

// The verdict of the audit.
fn verdict_on(alloc: Global, text: &[u8]) -> Result<Answer, AnswerRefusal>
    ensures { MatchResult result (λ answer. IsAnswer Audits text.now answer) (λ e. IsUnanswered (IsRefused Audits text.now) e) }
{
    let verdict = audit_text(alloc, text)?;
    let text = verdict_text(alloc, verdict)?;
    Ok(Answer {
        text,
        verdict: Verdict::Yes,
    })
}

// The verdict of the audit of the whole report.
fn whole_verdict_on(alloc: Global, text: &[u8]) -> Result<Answer, AnswerRefusal>
    ensures { MatchResult result (λ answer. IsAnswer WholeAudits text.now answer) (λ e. IsUnanswered (IsRefused WholeAudits text.now) e) }
{
    let found = whole_text(alloc, text)?;
    let text = verdict_text(alloc, found)?;
    let verdict = match found {
        run_audit::Verdict::Yes { .. } => Verdict::Yes,
        run_audit::Verdict::No { .. } => Verdict::BrokenRule,
    };
    Ok(Answer { text, verdict })
}

// What a check says of a scenario.
fn faults_of(alloc: Global, text: &[u8]) -> Result<Answer, AnswerRefusal>
    ensures { MatchResult result (λ answer. IsAnswer Checks text.now answer) (λ e. IsUnanswered (IsRefused Checks text.now) e) }
{
    let checked = check_text(alloc, text)?;
    let text = checked_text(alloc, &checked)?;
    let verdict = match checked.first_refused() {
        None => Verdict::Yes,
        Some(line) => Verdict::BadLine(line),
    };
    Ok(Answer { text, verdict })
}

// The objects of a report's items.
fn objects_of(alloc: Global, text: &[u8]) -> Result<Answer, AnswerRefusal>
    ensures { MatchResult result (λ answer. IsAnswer Objects text.now answer) (λ e. IsUnanswered (IsRefused Objects text.now) e) }
{
    let text = json_text(alloc, text)?;
    Ok(Answer {
        text,
        verdict: Verdict::Yes,
    })
}

impl Question {
    /// Answers the question about this text. Errors: a line that the question has no place for, or memory runs out.
    pub fn answer(&self, alloc: Global, text: &[u8]) -> Result<Answer, AnswerRefusal>
        requires fit { CanBeAsked self.now }
        ensures { MatchResult result (λ answer. IsAnswer (asked_of self.now) text.now answer) (λ e. IsUnanswered (IsRefused (asked_of self.now) text.now) e) }
    {
        match self {
            Question::Bound { a, b, difference } => count_of_keys(alloc, a, b, *difference, text),
            Question::Audit => verdict_on(alloc, text),
            Question::WholeAudit => whole_verdict_on(alloc, text),
            Question::Check => faults_of(alloc, text),
            Question::Objects => objects_of(alloc, text),
        }
    }
}
