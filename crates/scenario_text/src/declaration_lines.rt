// The lines that declare nodes, links, applications and entitlements.
ghost use Rattle.std.specs.Prelude.{◌≡◌, ◌≤◌, Some, None, IfSome, IfNone, is_none, length, true, false};
ghost use Rattle.route_table.specs.Table.{AreApart};
ghost use Rattle.scenario_text.specs.Words.{words_of};
ghost use Rattle.scenario_text.specs.Declaring.{is_joined, declared_node, declared_link, declared_sae, declared_pair};
ghost use Rattle.scenario_text.specs.Gives.{Declares};

use crate::fields::{name_text, node, place_of, sae};
use crate::refusal::LineRefusal;
use crate::words::{one, two};
use declared_site::Site;
use qkd_base::{NodeNo, Text};
use route_table::RouteTable;
use sae_entitlements::AddRefusal;
use std::alloc::Global;

// These functions add to the site what the words after the line's first one declare. A line that is refused changes
// nothing.

#[tactic(auto, unfolding(crate::specs::Declaring::declared_node))]
pub fn node_line(alloc: Global, site: &mut Site, rest: &[u8]) -> Result<(), LineRefusal>
    ensures { Declares (declared_node site.old (words_of rest.now)) site.old site.new result }
{
    let word = one(rest).ok_or(LineRefusal::Refused)?;
    let name = name_text(32, word).ok_or(LineRefusal::Refused)?;
    if place_of(site.nodes.as_slice(), word).is_some() || 16 <= site.nodes.len() {
        return Err(LineRefusal::Refused);
    }
    let Ok(string) = String::from_str(alloc, name) else {
        return Err(LineRefusal::Memory);
    };
    match site.nodes.push(Text::from_string(string)) {
        Ok(()) => Ok(()),
        Err(_) => Err(LineRefusal::Memory),
    }
}

// Whether a link joins two nodes.
fn are_joined(routes: &RouteTable, a: NodeNo, b: NodeNo) -> bool
    ensures joined { result ≡ is_joined routes.now a b }
    ensures apart { result ≡ false → AreApart routes.now a b }
{
    match routes.link_between(a, b) {
        Some(_) => true,
        None => false,
    }
}

#[tactic(auto, unfolding(crate::specs::Declaring::declared_link))]
pub fn link_line(site: &mut Site, rest: &[u8]) -> Result<(), LineRefusal>
    ensures { Declares (declared_link site.old (words_of rest.now)) site.old site.new result }
{
    let (first, second) = two(rest).ok_or(LineRefusal::Refused)?;
    let a = node(site, first).ok_or(LineRefusal::Refused)?;
    let b = node(site, second).ok_or(LineRefusal::Refused)?;
    let link = site.routes.free_link().ok_or(LineRefusal::Refused)?;
    if a == b || are_joined(&site.routes, a, b) {
        return Err(LineRefusal::Refused);
    }
    site.routes.add_link(link, a, b);
    Ok(())
}

#[tactic(auto, unfolding(crate::specs::Declaring::declared_sae))]
pub fn sae_line(site: &mut Site, rest: &[u8]) -> Result<(), LineRefusal>
    ensures { Declares (declared_sae site.old (words_of rest.now)) site.old site.new result }
{
    let (word, node_word) = two(rest).ok_or(LineRefusal::Refused)?;
    let home = node(site, node_word).ok_or(LineRefusal::Refused)?;
    let id = name_text(64, word).ok_or(LineRefusal::Refused)?;
    match site.entitlements.add_sae(id, home) {
        Ok(_) => Ok(()),
        Err(AddRefusal::Known) => Err(LineRefusal::Refused),
        Err(AddRefusal::Full) => Err(LineRefusal::Refused),
        Err(AddRefusal::Memory) => Err(LineRefusal::Memory),
    }
}

#[tactic(auto, unfolding(crate::specs::Declaring::declared_pair))]
pub fn allow_line(site: &mut Site, rest: &[u8]) -> Result<(), LineRefusal>
    ensures { Declares (declared_pair site.old (words_of rest.now)) site.old site.new result }
{
    let (first, second) = two(rest).ok_or(LineRefusal::Refused)?;
    let master = sae(site, first).ok_or(LineRefusal::Refused)?;
    let slave = sae(site, second).ok_or(LineRefusal::Refused)?;
    let Ok(home) = site.entitlements.home(master) else {
        return Err(LineRefusal::Refused);
    };
    let Ok(other) = site.entitlements.home(slave) else {
        return Err(LineRefusal::Refused);
    };
    if home == other {
        return Err(LineRefusal::Refused);
    }
    site.entitlements.allow(master, slave);
    Ok(())
}
