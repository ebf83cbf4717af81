// The lines about links, lanes and frames.
ghost use Rattle.std.specs.Prelude.{◌≡◌};
ghost use Rattle.scenario_text.specs.Words.{words_of};
ghost use Rattle.scenario_text.specs.Commanding.{bits_at, pass_at, flip_at, forge_at, link_up_at, link_down_at, ledger_at};
ghost use Rattle.scenario_text.specs.Gives.{Gives};

use crate::fields::{ends, lane, link, octets};
use crate::refusal::LineRefusal;
use crate::words::{four, number, number_in, one, three, two};
use declared_site::Site;
use run_types::Command;
use std::alloc::Global;

// These functions answer what a line asks for, from the words after its first one.

#[tactic(auto, unfolding(crate::specs::Commanding::bits_at))]
pub fn bits_line(site: &Site, rest: &[u8]) -> Option<Command>
    ensures { result ≡ bits_at site.now (words_of rest.now) }
{
    let (link_word, ends_word, count_word) = three(rest)?;
    let link = link(site, link_word)?;
    let ends = ends(ends_word)?;
    let count = number_in(1, 1024, count_word)? as u16;
    Some(Command::Bits { link, ends, count })
}

#[tactic(auto, unfolding(crate::specs::Commanding::pass_at))]
pub fn pass_line(site: &Site, rest: &[u8]) -> Option<Command>
    ensures { result ≡ pass_at site.now (words_of rest.now) }
{
    let (link_word, way_word, number_word) = three(rest)?;
    let lane = lane(site, link_word, way_word)?;
    let number = number(number_word)?;
    Some(Command::Pass { lane, number })
}

#[tactic(auto, unfolding(crate::specs::Commanding::flip_at))]
pub fn flip_line(site: &Site, rest: &[u8]) -> Option<Command>
    ensures { result ≡ flip_at site.now (words_of rest.now) }
{
    let (link_word, way_word, number_word, bit_word) = four(rest)?;
    let lane = lane(site, link_word, way_word)?;
    let frame = number(number_word)?;
    let bit = number(bit_word)?;
    Some(Command::Flip {
        lane,
        number: frame,
        bit,
    })
}

#[tactic(auto, unfolding(crate::specs::Commanding::forge_at))]
pub fn forge_line(alloc: Global, site: &Site, rest: &[u8]) -> Result<Command, LineRefusal>
    ensures { Gives (forge_at site.now (words_of rest.now)) result }
{
    let (link_word, way_word, hex) = three(rest).ok_or(LineRefusal::Refused)?;
    let lane = lane(site, link_word, way_word).ok_or(LineRefusal::Refused)?;
    let octets = octets(alloc, 600, hex)?;
    Ok(Command::Forge { lane, octets })
}

#[tactic(auto, unfolding(crate::specs::Commanding::link_up_at))]
pub fn link_up_line(site: &Site, rest: &[u8]) -> Option<Command>
    ensures { result ≡ link_up_at site.now (words_of rest.now) }
{
    let word = one(rest)?;
    let link = link(site, word)?;
    Some(Command::LinkUp { link })
}

#[tactic(auto, unfolding(crate::specs::Commanding::link_down_at))]
pub fn link_down_line(site: &Site, rest: &[u8]) -> Option<Command>
    ensures { result ≡ link_down_at site.now (words_of rest.now) }
{
    let word = one(rest)?;
    let link = link(site, word)?;
    Some(Command::LinkDown { link })
}

#[tactic(auto, unfolding(crate::specs::Commanding::ledger_at))]
pub fn ledger_line(site: &Site, rest: &[u8]) -> Option<Command>
    ensures { result ≡ ledger_at site.now (words_of rest.now) }
{
    let (link_word, way_word) = two(rest)?;
    let lane = lane(site, link_word, way_word)?;
    Some(Command::Ledger { lane })
}
