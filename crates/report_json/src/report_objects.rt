// Reading a report, and writing it as JSON.
ghost use Rattle.std.specs.Prelude.{MatchResult};
ghost use Rattle.audit_text.specs.Input.{IsBadLine, IsNotRead};
ghost use Rattle.report_json.specs.Reading.{IsJson};

use crate::text::json_of;
use audit_text::{AuditRefusal, read_input};
use qkd_base::Octets;
use std::alloc::Global;

/// Reads a scenario and the report behind it, as an audit does, and writes each item of the report as a JSON object on a line
/// of its own. Errors: a line belongs to neither, or memory runs out.
pub fn json_text(alloc: Global, text: &[u8]) -> Result<Octets, AuditRefusal>
    ensures { MatchResult result (IsJson text.now) (λ e. IsNotRead (IsBadLine text.now) e) }
{
    let input = read_input(alloc, text)?;
    Ok(json_of(alloc, &input.scenario.site.nodes, input.items.as_slice())?)
}
