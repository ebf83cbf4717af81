// How a whole line of a report is read.
ghost use Rattle.std.specs.Prelude.{◌≡◌, IfOk};
ghost use Rattle.run_types.specs.declared.item.NumberedItem.{NumberedItem as Told};
ghost use Rattle.run_types.specs.Texts.{item_text, line_text};
ghost use Rattle.report_grammar.specs.Gives.{Gives, IsRead};
ghost use Rattle.report_grammar.specs.Words.{without_end};
ghost use Rattle.report_grammar.specs.Rows.{line_at};
ghost use Rattle.report_grammar.specs.Tellable.{CanTell, first_told};

use crate::LineRefusal;
use crate::rows::item;
use crate::words::{behind, front};
use itoa::Buffer;
use qkd_base::{Memory, Octets, Texts};
use report_text::item_text;
use run_types::NumberedItem;
use scenario_text::words::{len_to, number};
use std::alloc::Global;

// All octets but the last one.
fn without_end(text: &[u8]) -> &[u8]
    ensures { result.now ≡ without_end text.now }
{
    if text.is_empty() {
        text
    } else {
        front(text, text.len() - 1)
    }
}

// What a line tells if it is a line of a report. The last octet isn't read here: the caller compares the whole text.
#[tactic(auto, unfolding(crate::specs::Rows::line_at))]
fn candidate(alloc: Global, nodes: &Texts, line: &[u8]) -> Result<NumberedItem, LineRefusal>
    ensures { Gives (line_at nodes.now line.now) result }
{
    let size = len_to(b' ', line);
    let number = number(front(line, size)).ok_or(LineRefusal::NotALine)?;
    let item = item(alloc, nodes, without_end(behind(line, size)))?;
    Ok(NumberedItem { number, item })
}

// The line that tells this.
#[tactic(auto, unfolding(run_types::specs::Texts::line_text))]
fn line_text(alloc: Global, nodes: &Texts, told: &NumberedItem) -> Result<Octets, Memory>
    ensures { IfOk result (λ text. text ≡ line_text nodes.now told.now) }
{
    let mut digits = Buffer::new();
    let mut line = Octets::from_slice(alloc, digits.format(told.number).as_bytes())?;
    let text = item_text(alloc, &told.item, nodes)?;
    line.push(b' ')?;
    line.extend(text.as_slice())?;
    line.push(b'\n')?;
    Ok(line)
}

/// Reads a line of a report, with its LF. `nodes` are the names of the nodes. Errors: no item has this text, or memory runs
/// out.
pub fn told_in(alloc: Global, nodes: &Texts, line: &[u8]) -> Result<NumberedItem, LineRefusal>
    // Writing what was read gives this line again, octet for octet.
    ensures told { IfOk result (λ told. line_text nodes.now told ≡ line.now) }
    // If the line was written from an item, it is read as the item of the first row with this text, and never refused.
    ensures read { (told : Told) → CanTell nodes.now told → line_text nodes.now told ≡ line.now → IsRead (first_told told) result }
{
    let told = candidate(alloc, nodes, line)?;
    let text = line_text(alloc, nodes, &told)?;
    if text.as_slice() == line {
        Ok(told)
    } else {
        Err(LineRefusal::NotALine)
    }
}
