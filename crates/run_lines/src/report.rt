// Report items written to a sink.
ghost use Rattle.std.specs.Prelude.{◌∷◌, []};
ghost use Rattle.std.specs.Option.{option_to_list};
ghost use Rattle.run_model.specs.Play.{numbered};
ghost use Rattle.run_model.specs.Headline.{given_to, report_pieces};
ghost use Rattle.run_lines.specs.Reporting.{InLines, IsBlamed, IsItemLine, Wrote};

use crate::Stop;
use declared_site::Site;
use edge_io::{Failed, Sink};
use report_text::line_text;
use run_types::Item;
use std::alloc::Global;

/// Writes the text of an item, with its line's number, in one write. If the sink keeps nothing, no text is made.
#[tactic(auto, using(crate::proofs::Lines::stopped_unwritten))]
pub fn write_item<W: Sink>(
    alloc: Global,
    site: &Site,
    number: u32,
    item: &Item,
    sink: &mut W,
) -> Result<(), Stop>
    ensures wrote { Wrote result (given_to W.taken W.pieces sink.old) (given_to W.taken W.pieces sink.new) (report_pieces site.now.nodes (numbered number (item.now ∷ []))) }
    ensures blame { IsBlamed (W.faults sink.old) (W.faults sink.new) result }
    ensures lined { InLines W.taken W.pieces (IsItemLine site.now.nodes) sink.old sink.new result }
{
    if !sink.is_heard() {
        return Ok(());
    }
    let Ok(text) = line_text(alloc, number, item, site) else {
        return Err(Stop::Memory);
    };
    match sink.write_all(text.as_slice()) {
        Ok(()) => Ok(()),
        Err(Failed) => Err(Stop::WriteFault),
    }
}

/// Writes the text of an item, if there is one.
#[tactic(auto, using(crate::proofs::Lines::none_lined))]
pub fn write_some<W: Sink>(
    alloc: Global,
    site: &Site,
    number: u32,
    item: Option<Item>,
    sink: &mut W,
) -> Result<(), Stop>
    ensures wrote { Wrote result (given_to W.taken W.pieces sink.old) (given_to W.taken W.pieces sink.new) (report_pieces site.now.nodes (numbered number (option_to_list item))) }
    ensures blame { IsBlamed (W.faults sink.old) (W.faults sink.new) result }
    ensures lined { InLines W.taken W.pieces (IsItemLine site.now.nodes) sink.old sink.new result }
{
    match item {
        Some(item) => write_item(alloc, site, number, &item, sink),
        None => Ok(()),
    }
}

/// Writes the texts of items, one write for each. After an `Err`, the sink has only the first of them, and perhaps a part
/// of one more.
pub fn write_items<W: Sink>(
    alloc: Global,
    site: &Site,
    number: u32,
    items: &[Item],
    sink: &mut W,
) -> Result<(), Stop>
    ensures wrote { Wrote result (given_to W.taken W.pieces sink.old) (given_to W.taken W.pieces sink.new) (report_pieces site.now.nodes (numbered number items.now)) }
    ensures blame { IsBlamed (W.faults sink.old) (W.faults sink.new) result }
    ensures lined { InLines W.taken W.pieces (IsItemLine site.now.nodes) sink.old sink.new result }
{
    for item in items {
        write_item(alloc, site, number, item, sink)?;
    }
    Ok(())
}
