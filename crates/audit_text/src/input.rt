// The input of an audit: a scenario with the report of a run.
ghost use Rattle.std.specs.Prelude.{◌≡◌, ◌+◌, ◌≤◌, ◌<◌, ◌^◌, length, IfOk, MatchResult};
ghost use Rattle.run_audit.specs.Rules.{deliveries_in};
ghost use Rattle.audit_text.specs.Input.{IsInput, IsInputOf, IsBadLine, IsBadLineOf, IsNotRead, refusal_of};

use crate::lines::scenario_end;
use crate::refusal::AuditRefusal;
use crate::report::read_report;
use run_types::{NumberedItems, Scenario};
use scenario_text::{ScenarioRefusal, TEXT_LIMIT, read_scenario};
use std::alloc::Global;

/// A scenario, and the items of the report behind it. The report's first line has the number `first`.
#[derive(Drop)]
pub struct Input {
    pub scenario: Scenario,
    pub items: NumberedItems,
    pub first: u32,
}

// The refusal of a scenario, as a refusal of the whole text.
fn refused(refusal: ScenarioRefusal) -> AuditRefusal
    ensures { result ≡ refusal_of refusal }
{
    match refusal {
        ScenarioRefusal::BadLine(number) => AuditRefusal::BadLine(number),
        ScenarioRefusal::Memory => AuditRefusal::Memory,
    }
}

/// Reads a scenario up to its line `end`, and behind it the report of a run. The limits on a scenario's length and on its
/// lines hold for the whole text. Of a longer text, only the first octet past the limit is read. Errors: a line belongs to
/// neither, or memory runs out.
pub fn read_input(alloc: Global, text: &[u8]) -> Result<Input, AuditRefusal>
    ensures input { MatchResult result (λ input. IsInput text.now input) (λ e. IsNotRead (IsBadLine text.now) e) }
    // There are fewer than 2^32 lines, items and deliveries in all, so 32 bits can count them.
    ensures few { IfOk result (λ input. input.first + length input.items + deliveries_in input.scenario input.items < 2 ^ 32) }
{
    if text.len() > TEXT_LIMIT + 1 {
        read_whole(alloc, &text[..TEXT_LIMIT + 1])
    } else {
        read_whole(alloc, text)
    }
}

// Reads a text of at most one octet past the limit.
fn read_whole(alloc: Global, text: &[u8]) -> Result<Input, AuditRefusal>
    requires { length text.now ≤ TEXT_LIMIT + 1 }
    ensures input { MatchResult result (λ input. IsInputOf text.now input) (λ e. IsNotRead (IsBadLineOf text.now) e) }
    ensures few { IfOk result (λ input. input.first + length input.items + deliveries_in input.scenario input.items < 2 ^ 32) }
{
    let (size, lines) = scenario_end(text);
    let scenario = match read_scenario(alloc, &text[..size]) {
        Ok(scenario) => scenario,
        Err(refusal) => return Err(refused(refusal)),
    };
    let first = lines + 1;
    let left = TEXT_LIMIT.saturating_sub(size);
    let items = read_report(alloc, &scenario.site, left, first, &text[size..])?;
    Ok(Input {
        scenario,
        items,
        first,
    })
}
