// The lines of a report, read as items.
ghost use Rattle.std.specs.Prelude.{◌≡◌, ◌+◌, ◌≤◌, ◌<◌, ◌^◌, ℕ, List, [], ◌∷◌, ◌++◌, MatchResult, length};
ghost use Rattle.scenario_text.specs.Text.{parts_of};
ghost use Rattle.audit_text.specs.Input.{IsLineOf, IsNoLine, AreLinesOf, IsFirstNoLine, IsNotRead};

use crate::lines::split_line;
use crate::refusal::AuditRefusal;
use declared_site::Site;
use qkd_base::Items;
use report_parser::{ReportRefusal, read_line};
use run_audit::is_on_link;
use run_types::{NumberedItem, NumberedItems};
use scenario_text::LINE_LIMIT;
use std::alloc::Global;

// The item of a line, given with its end. `left` octets of the text are still allowed.
fn told_on(
    alloc: Global,
    site: &Site,
    left: usize,
    number: u32,
    line: &[u8],
) -> Result<NumberedItem, AuditRefusal>
    requires { 0 < length line.now }
    ensures { (part : List ℕ) → line.now ≡ part ++ 10 ∷ [] →
        MatchResult result (λ told. IsLineOf site.now left part told) (λ e. IsNotRead (λ n. IsNoLine site.now left part × (n ≡ number)) e) }
{
    if left < line.len() || LINE_LIMIT < line.len() - 1 {
        return Err(AuditRefusal::BadLine(number));
    }
    match read_line(alloc, &site.nodes, line) {
        Ok(told) => {
            if is_on_link(&site.routes, &told.item) {
                Ok(told)
            } else {
                Err(AuditRefusal::BadLine(number))
            }
        }
        Err(ReportRefusal::NotALine(_)) => Err(AuditRefusal::BadLine(number)),
        Err(ReportRefusal::Memory) => Err(AuditRefusal::Memory),
    }
}

/// The items of a report. Its first line has the number `first`, and `left` octets are still allowed. Errors: a line is none
/// of a report, or memory runs out.
pub fn read_report(
    alloc: Global,
    site: &Site,
    left: usize,
    first: u32,
    text: &[u8],
) -> Result<NumberedItems, AuditRefusal>
    requires { first + length text.now < 2 ^ 32 }
    ensures { MatchResult result (λ items. AreLinesOf site.now left (parts_of text.now) items) (λ e. IsNotRead (λ n. IsFirstNoLine site.now left first (parts_of text.now) n) e) }
{
    let mut items = Items::new(alloc);
    let mut rest = text;
    let mut left = left;
    let mut number = first;
    while let Some((line, behind)) = split_line(rest) {
        let told = told_on(alloc, site, left, number, line)?;
        items.push(told)?;
        left -= line.len();
        number += 1;
        rest = behind;
    }
    if rest.is_empty() {
        Ok(items)
    } else {
        Err(AuditRefusal::BadLine(number))
    }
}
