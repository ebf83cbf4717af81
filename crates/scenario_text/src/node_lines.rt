// The lines about nodes and their disks.
ghost use Rattle.std.specs.Prelude.{◌≡◌};
ghost use Rattle.scenario_text.specs.Words.{words_of};
ghost use Rattle.scenario_text.specs.Commanding.{tick_at, settle_at, crash_at, start_at, cut_at, fail_at, show_at};

use crate::fields::{image, name, node};
use crate::words::{number_in, one, three, two};
use declared_site::Site;
use run_types::Command;

// These functions answer what a line asks for, from the words after its first one.

#[tactic(auto, unfolding(crate::specs::Commanding::tick_at))]
pub fn tick_line(site: &Site, rest: &[u8]) -> Option<Command>
    ensures { result ≡ tick_at site.now (words_of rest.now) }
{
    let word = one(rest)?;
    let node = node(site, word)?;
    Some(Command::Tick { node })
}

#[tactic(auto, unfolding(crate::specs::Commanding::settle_at))]
pub fn settle_line(rest: &[u8]) -> Option<Command>
    ensures { result ≡ settle_at (words_of rest.now) }
{
    let word = one(rest)?;
    let rounds = number_in(1, 1000, word)? as u16;
    Some(Command::Settle { rounds })
}

#[tactic(auto, unfolding(crate::specs::Commanding::crash_at))]
pub fn crash_line(site: &Site, rest: &[u8]) -> Option<Command>
    ensures { result ≡ crash_at site.now (words_of rest.now) }
{
    let word = one(rest)?;
    let node = node(site, word)?;
    Some(Command::Crash { node })
}

#[tactic(auto, unfolding(crate::specs::Commanding::start_at))]
pub fn start_line(site: &Site, rest: &[u8]) -> Option<Command>
    ensures { result ≡ start_at site.now (words_of rest.now) }
{
    let word = one(rest)?;
    let node = node(site, word)?;
    Some(Command::Start { node })
}

#[tactic(auto, unfolding(crate::specs::Commanding::cut_at))]
pub fn cut_line(site: &Site, rest: &[u8]) -> Option<Command>
    ensures { result ≡ cut_at site.now (words_of rest.now) }
{
    let (node_word, call_word, image_word) = three(rest)?;
    let node = node(site, node_word)?;
    let call = number_in(1, 1000000, call_word)?;
    let image = image(image_word)?;
    Some(Command::Cut { node, call, image })
}

#[tactic(auto, unfolding(crate::specs::Commanding::fail_at))]
pub fn fail_line(site: &Site, rest: &[u8]) -> Option<Command>
    ensures { result ≡ fail_at site.now (words_of rest.now) }
{
    let (node_word, call_word) = two(rest)?;
    let node = node(site, node_word)?;
    let call = number_in(1, 1000000, call_word)?;
    Some(Command::Fail { node, call })
}

#[tactic(auto, unfolding(crate::specs::Commanding::show_at))]
pub fn show_line(site: &Site, rest: &[u8]) -> Option<Command>
    ensures { result ≡ show_at site.now (words_of rest.now) }
{
    let (node_word, key_word) = two(rest)?;
    let node = node(site, node_word)?;
    let name = name(key_word)?;
    Some(Command::Show { node, name })
}
