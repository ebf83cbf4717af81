// The text of a report as JSON.
ghost use Rattle.std.specs.Prelude.{◌≡◌, ◌<◌, ◌+◌, ◌++◌, ◌∷◌, [], ◌^◌, length, Some, IfOk};
ghost use Rattle.serde_json.specs.Read.{read};
ghost use Rattle.serde_json.specs.Written.{compact_text};
ghost use Rattle.report_json.specs.Objects.{object_of};
ghost use Rattle.report_json.specs.Lines.{json_line, json_of};

use crate::item::object_of;
use crate::place::Place;
use qkd_base::{Memory, Octets, Texts};
use run_types::NumberedItem;
use std::alloc::Global;

// The object of an item as a text.
fn object_text(
    alloc: Global,
    nodes: &Texts,
    round: u64,
    told: &NumberedItem,
) -> Result<Octets, Memory>
    ensures text { IfOk result (λ text. text ≡ compact_text (object_of nodes.now round told.now)) }
    // A reader of JSON gets the object back.
    ensures read { IfOk result (λ text. read text ≡ Some (object_of nodes.now round told.now)) }
{
    let value = object_of(alloc, nodes, round, told)?;
    Ok(Octets::from_vec(value.to_vec(alloc)?))
}

/// The line of an item, with its LF. `nodes` are the names of the nodes. The only error is that memory runs out.
#[tactic(auto, unfolding(crate::specs::Lines::json_line))]
pub fn json_line(
    alloc: Global,
    nodes: &Texts,
    round: u64,
    told: &NumberedItem,
) -> Result<Octets, Memory>
    ensures { IfOk result (λ line. line ≡ json_line nodes.now round told.now) }
{
    let mut line = object_text(alloc, nodes, round, told)?;
    line.push(b'\n')?;
    Ok(line)
}

/// The lines of a report's items. `nodes` are the names of the nodes. The only error is that memory runs out.
pub fn json_of(alloc: Global, nodes: &Texts, items: &[NumberedItem]) -> Result<Octets, Memory>
    requires { length items.now < 2 ^ 32 }
    ensures { IfOk result (λ text. text ≡ json_of nodes.now items.now) }
{
    let mut text = Octets::new(alloc);
    let mut place = Place::start();
    for told in items {
        let line = json_line(alloc, nodes, place.round_of(told), told)?;
        text.extend(line.as_slice())?;
        place = place.behind(told);
    }
    Ok(text)
}
