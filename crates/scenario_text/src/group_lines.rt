// The lines that ask for group keys.
ghost use Rattle.std.specs.Prelude.{◌≡◌, ◌==◌};
ghost use Rattle.std.specs.List.{list_any};
ghost use Rattle.scenario_text.specs.Words.{words_of};
ghost use Rattle.scenario_text.specs.Commanding.{group_of, fill_group_at, enc_group_at};
ghost use Rattle.scenario_text.specs.Gives.{Gives};

use crate::fields::{node, sae, size};
use crate::refusal::LineRefusal;
use crate::words::{number_in, word};
use declared_site::Site;
use qkd_base::{SaeNo, Saes};
use run_types::Command;
use std::alloc::Global;

// Whether an application is in this list.
fn is_among(saes: &Saes, sae: SaeNo) -> bool
    ensures { result ≡ list_any (λ other. other == sae) saes.now }
{
    for other in saes.as_slice() {
        if *other == sae {
            return true;
        }
    }
    false
}

// The slaves that the words name: 2 to 5 different applications.
#[tactic(auto, unfolding(crate::specs::Commanding::group_of))]
fn slaves(alloc: Global, site: &Site, rest: &[u8]) -> Result<Saes, LineRefusal>
    ensures { Gives (group_of site.now (words_of rest.now)) result }
{
    let mut slaves = Saes::new(alloc);
    let mut left = rest;
    while let Some((id, others)) = word(left) {
        if slaves.len() == 5 {
            return Err(LineRefusal::Refused);
        }
        let slave = sae(site, id).ok_or(LineRefusal::Refused)?;
        if is_among(&slaves, slave) {
            return Err(LineRefusal::Refused);
        }
        match slaves.push(slave) {
            Ok(()) => {}
            Err(_) => return Err(LineRefusal::Memory),
        }
        left = others;
    }
    if slaves.len() < 2 {
        Err(LineRefusal::Refused)
    } else {
        Ok(slaves)
    }
}

// What a `fill-group` line asks for, from the words after its first one.
#[tactic(auto, unfolding(crate::specs::Commanding::fill_group_at))]
pub fn fill_group_line(alloc: Global, site: &Site, rest: &[u8]) -> Result<Command, LineRefusal>
    ensures { Gives (fill_group_at site.now (words_of rest.now)) result }
{
    let (master_word, rest) = word(rest).ok_or(LineRefusal::Refused)?;
    let (bits_word, rest) = word(rest).ok_or(LineRefusal::Refused)?;
    let (count_word, rest) = word(rest).ok_or(LineRefusal::Refused)?;
    let master = sae(site, master_word).ok_or(LineRefusal::Refused)?;
    let bits = size(bits_word).ok_or(LineRefusal::Refused)?;
    let count = number_in(1, 128, count_word).ok_or(LineRefusal::Refused)?;
    let slaves = slaves(alloc, site, rest)?;
    Ok(Command::FillGroup {
        master,
        bits,
        count: count as u16,
        slaves,
    })
}

// What an `enc-group` line asks for, from the words after its first one.
#[tactic(auto, unfolding(crate::specs::Commanding::enc_group_at))]
pub fn enc_group_line(alloc: Global, site: &Site, rest: &[u8]) -> Result<Command, LineRefusal>
    ensures { Gives (enc_group_at site.now (words_of rest.now)) result }
{
    let (node_word, rest) = word(rest).ok_or(LineRefusal::Refused)?;
    let (master_word, rest) = word(rest).ok_or(LineRefusal::Refused)?;
    let (count_word, rest) = word(rest).ok_or(LineRefusal::Refused)?;
    let (bits_word, rest) = word(rest).ok_or(LineRefusal::Refused)?;
    let node = node(site, node_word).ok_or(LineRefusal::Refused)?;
    let master = sae(site, master_word).ok_or(LineRefusal::Refused)?;
    let count = number_in(1, 128, count_word).ok_or(LineRefusal::Refused)?;
    let bits = size(bits_word).ok_or(LineRefusal::Refused)?;
    let slaves = slaves(alloc, site, rest)?;
    Ok(Command::EncGroup {
        node,
        master,
        count: count as u16,
        bits,
        slaves,
    })
}
