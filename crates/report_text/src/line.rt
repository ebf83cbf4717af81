// How a whole line of a report is written.
ghost use Rattle.std.specs.Prelude.{◌≡◌, IfOk};
ghost use Rattle.run_types.specs.Texts.{item_text, line_text, handed_text, served_text};

use crate::item::item;
use crate::words::number;
use declared_site::Site;
use itoa::Buffer;
use qkd_base::{Memory, Octets, Texts};
use run_types::Item;
use std::alloc::Global;

// Octets that are enough for most lines of a report, so that a growing line is rarely moved in memory.
const ROOM: usize = 128;

/// The text of an item, without a line's number and without its end. `nodes` are the names of the nodes.
pub fn item_text(alloc: Global, told: &Item, nodes: &Texts) -> Result<Octets, Memory>
    ensures { IfOk result (λ text. text ≡ item_text nodes.now told.now) }
{
    let mut line = Octets::from_vec(Vec::with_capacity(alloc, ROOM)?);
    item(alloc, &mut line, nodes, told)?;
    Octets::from_slice(alloc, &line.as_slice()[1..])
}

/// A line of a report: the number of the scenario's line, a space, the item's text, and LF. Nodes have the names that the
/// site declares.
#[tactic(auto, unfolding(run_types::specs::Texts::line_text))]
pub fn line_text(alloc: Global, number: u32, told: &Item, site: &Site) -> Result<Octets, Memory>
    ensures { IfOk result (λ text. text ≡ line_text site.now.nodes (record { number = number; item = told.now })) }
{
    let mut digits = Buffer::new();
    let mut line = Octets::from_vec(Vec::with_capacity(alloc, ROOM)?);
    line.extend(digits.format(number).as_bytes())?;
    item(alloc, &mut line, &site.nodes, told)?;
    line.push(b'\n')?;
    Ok(line)
}

/// The line behind the report of a generated load: how many keys masters were handed, and how many keys slaves were.
#[tactic(auto, unfolding(run_types::specs::Texts::handed_text))]
pub fn handed_text(alloc: Global, masters: u64, slaves: u64) -> Result<Octets, Memory>
    ensures { IfOk result (λ text. text ≡ handed_text masters slaves) }
{
    let mut line = Octets::from_slice(alloc, b"handed")?;
    number(&mut line, masters)?;
    number(&mut line, slaves)?;
    line.push(b'\n')?;
    Ok(line)
}

/// The line behind the report of `serve`: how many connections were served.
#[tactic(auto, unfolding(run_types::specs::Texts::served_text))]
pub fn served_text(alloc: Global, count: u64) -> Result<Octets, Memory>
    ensures { IfOk result (λ text. text ≡ served_text count) }
{
    let mut line = Octets::from_slice(alloc, b"served")?;
    number(&mut line, count)?;
    line.push(b'\n')?;
    Ok(line)
}
