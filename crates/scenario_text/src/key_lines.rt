// The lines that ask for keys.
ghost use Rattle.std.specs.Prelude.{◌≡◌, ◌++◌, ◌≤◌, length, Some, IfSome, if◌then◌else◌};
ghost use Rattle.scenario_text.specs.Words.{words_of};
ghost use Rattle.scenario_text.specs.Commanding.{fill_at, feed_at, enc_at, names_of, few_names_of, dec_at, status_at, http_at};
ghost use Rattle.scenario_text.specs.Gives.{Gives};

use crate::fields::{name, node, octets, sae, size};
use crate::refusal::LineRefusal;
use crate::words::{five, four, number_in, three, two, word};
use declared_site::Site;
use qkd_base::Names;
use run_types::Command;
use std::alloc::Global;

// These functions answer what a line asks for, from the words after its first one.

#[tactic(auto, unfolding(crate::specs::Commanding::fill_at))]
pub fn fill_line(site: &Site, rest: &[u8]) -> Option<Command>
    ensures { result ≡ fill_at site.now (words_of rest.now) }
{
    let (master_word, slave_word, bits_word, count_word) = four(rest)?;
    let master = sae(site, master_word)?;
    let slave = sae(site, slave_word)?;
    let bits = size(bits_word)?;
    let count = number_in(1, 128, count_word)? as u16;
    Some(Command::Fill {
        master,
        slave,
        bits,
        count,
    })
}

#[tactic(auto, unfolding(crate::specs::Commanding::feed_at))]
pub fn feed_line(site: &Site, rest: &[u8]) -> Option<Command>
    ensures { result ≡ feed_at site.now (words_of rest.now) }
{
    let (stream_word, count_word) = two(rest)?;
    let stream = name(stream_word)?;
    let count = number_in(1, 128, count_word)? as u16;
    if usize::from(stream.node().get()) < site.nodes.len() {
        Some(Command::Feed { stream, count })
    } else {
        None
    }
}

#[tactic(auto, unfolding(crate::specs::Commanding::enc_at))]
pub fn enc_line(site: &Site, rest: &[u8]) -> Option<Command>
    ensures { result ≡ enc_at site.now (words_of rest.now) }
{
    let (node_word, master_word, slave_word, count_word, bits_word) = five(rest)?;
    let node = node(site, node_word)?;
    let master = sae(site, master_word)?;
    let slave = sae(site, slave_word)?;
    let count = number_in(1, 128, count_word)? as u16;
    let bits = size(bits_word)?;
    Some(Command::Enc {
        node,
        master,
        slave,
        count,
        bits,
    })
}

// The names that the words spell, 1 to 128 of them.
#[tactic(auto, unfolding(crate::specs::Commanding::few_names_of))]
fn names(alloc: Global, rest: &[u8]) -> Result<Names, LineRefusal>
    ensures { Gives (few_names_of (words_of rest.now)) result }
{
    let mut names = Names::new(alloc);
    let mut left = rest;
    while let Some((key, others)) = word(left) {
        if names.len() == 128 {
            return Err(LineRefusal::Refused);
        }
        let name = name(key).ok_or(LineRefusal::Refused)?;
        match names.push(name) {
            Ok(()) => {}
            Err(_) => return Err(LineRefusal::Memory),
        }
        left = others;
    }
    if names.is_empty() {
        Err(LineRefusal::Refused)
    } else {
        Ok(names)
    }
}

#[tactic(auto, unfolding(crate::specs::Commanding::dec_at))]
pub fn dec_line(alloc: Global, site: &Site, rest: &[u8]) -> Result<Command, LineRefusal>
    ensures { Gives (dec_at site.now (words_of rest.now)) result }
{
    let (node_word, rest) = word(rest).ok_or(LineRefusal::Refused)?;
    let (slave_word, rest) = word(rest).ok_or(LineRefusal::Refused)?;
    let (master_word, rest) = word(rest).ok_or(LineRefusal::Refused)?;
    let node = node(site, node_word).ok_or(LineRefusal::Refused)?;
    let slave = sae(site, slave_word).ok_or(LineRefusal::Refused)?;
    let master = sae(site, master_word).ok_or(LineRefusal::Refused)?;
    let names = names(alloc, rest)?;
    Ok(Command::Dec {
        node,
        slave,
        master,
        names,
    })
}

#[tactic(auto, unfolding(crate::specs::Commanding::status_at))]
pub fn status_line(site: &Site, rest: &[u8]) -> Option<Command>
    ensures { result ≡ status_at site.now (words_of rest.now) }
{
    let (node_word, master_word, slave_word) = three(rest)?;
    let node = node(site, node_word)?;
    let master = sae(site, master_word)?;
    let slave = sae(site, slave_word)?;
    Some(Command::Status {
        node,
        master,
        slave,
    })
}

#[tactic(auto, unfolding(crate::specs::Commanding::http_at))]
pub fn http_line(alloc: Global, site: &Site, rest: &[u8]) -> Result<Command, LineRefusal>
    ensures { Gives (http_at site.now (words_of rest.now)) result }
{
    let (node_word, hex) = two(rest).ok_or(LineRefusal::Refused)?;
    let node = node(site, node_word).ok_or(LineRefusal::Refused)?;
    let octets = octets(alloc, 73728, hex)?;
    Ok(Command::Http { node, octets })
}
