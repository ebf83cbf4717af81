// How a whole line of a report is parsed.
ghost use Rattle.std.specs.Prelude.{◌≡◌, ◌≤◌, length, IfOk, IfErr};
ghost use Rattle.run_types.specs.declared.item.NumberedItem.{NumberedItem as Told};
ghost use Rattle.run_types.specs.Texts.{line_text};
ghost use Rattle.report_grammar.specs.Tellable.{CanTell, first_told};
ghost use Rattle.report_parser.specs.Misfit.{line_reach, AreNamed, IsFitted, IsReached, IsRead, IsMisfit};

use crate::ReportRefusal;
use crate::part::Part;
use crate::rows::item_reach;
use crate::walk::part;
use qkd_base::Texts;
use report_grammar::{LineRefusal, told_in};
use run_types::NumberedItem;
use std::alloc::Global;

// How many leading octets of a line fit a number and an item behind it.
#[tactic(auto, unfolding(crate::specs::Misfit::line_reach))]
fn line_reach(nodes: &Texts, line: &[u8]) -> usize
    ensures reach { result ≡ line_reach nodes.now line.now }
    ensures within { result ≤ length line.now }
{
    let reach = part(nodes, Part::Number, line);
    if reach.whole {
        reach.octets + item_reach(nodes, &line[reach.octets..])
    } else {
        reach.octets
    }
}

// The place of the first octet that fits no line of a report. It is the line's length if all octets fit but the line is cut.
fn first_misfit(nodes: &Texts, line: &[u8]) -> usize
    ensures fitted { IsFitted nodes.now line.now result }
    ensures reached { AreNamed nodes.now → IsReached nodes.now line.now result }
    ensures within { result ≤ length line.now }
{
    line_reach(nodes, line)
}

/// Reads a line of a report, with its LF. `nodes` are the names of the nodes. Errors: no item has this text, or memory
/// runs out.
pub fn read_line(alloc: Global, nodes: &Texts, line: &[u8]) -> Result<NumberedItem, ReportRefusal>
    // Writing what was read gives this line again, octet for octet.
    ensures told { IfOk result (λ told. line_text nodes.now told ≡ line.now) }
    // If the line was written from an item, it is read as the item of the first row with this text, and never refused.
    ensures read { (told : Told) → CanTell nodes.now told → line_text nodes.now told ≡ line.now → IsRead (first_told told) result }
    // No line of a report has the octets of a refused line up to and with this place. If all nodes have names that a line can
    // tell, some line has the octets before the place.
    ensures place { IfErr result (IsMisfit nodes.now line.now) }
{
    match told_in(alloc, nodes, line) {
        Ok(told) => Ok(told),
        Err(LineRefusal::NotALine) => Err(ReportRefusal::NotALine(first_misfit(nodes, line))),
        Err(LineRefusal::Memory) => Err(ReportRefusal::Memory),
    }
}
