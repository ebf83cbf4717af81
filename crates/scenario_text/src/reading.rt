// What the lines so far said.
ghost use Rattle.std.specs.Prelude.{◌≡◌, ◌||◌, ◌^◌, ◌-◌, min, false};
ghost use Rattle.std.specs.List.{list_all};
ghost use Rattle.std.specs.Str.{bytes_eq};
ghost use Rattle.scenario_text.specs.Words.{words_of};
ghost use Rattle.scenario_text.specs.Line.{is_printable, is_comment, is_declaration, may_stand_in_block, rounds_with, command_at, further_command_at};
ghost use Rattle.scenario_text.specs.Gives.{Gives};

use crate::declaration_lines::{allow_line, link_line, node_line, sae_line};
use crate::group_lines::{enc_group_line, fill_group_line};
use crate::key_lines::{dec_line, enc_line, feed_line, fill_line, http_line, status_line};
use crate::link_lines::{
    bits_line, flip_line, forge_line, ledger_line, link_down_line, link_up_line, pass_line,
};
use crate::node_lines::{
    crash_line, cut_line, fail_line, settle_line, show_line, start_line, tick_line,
};
use crate::refusal::LineRefusal;
use crate::stream_lines::stream_line;
use crate::words::{begins_blank, ends_blank, is_blank, word};
use declared_site::Site;
use qkd_base::Items;
use route_table::RouteTable;
use run_types::{Command, Entries, Entry, Line, Lines, Scenario};
use sae_entitlements::Entitlements;
use std::alloc::Global;

/// The greatest number of rounds of all settles of a scenario.
pub const ROUND_LIMIT: u32 = 100000;

/// What the lines so far said: the site, the numbers of the `node` lines, whether the declarations are over, the rounds
/// of all settles, the entries, and the lines of the block that is open.
#[derive(Drop)]
pub struct Reading {
    pub site: Site,
    pub node_lines: Items<u32>,
    pub began: bool,
    pub rounds: u32,
    pub entries: Entries,
    pub block: Option<Lines>,
}

// Whether each octet is from 20 to 7E, in hexadecimal.
fn is_printable(line: &[u8]) -> bool
    ensures { result ≡ list_all is_printable line.now }
{
    for b in line {
        if *b < 32 || 126 < *b {
            return false;
        }
    }
    true
}

fn is_comment(line: &[u8]) -> bool
    ensures { result ≡ is_comment line.now }
{
    match line {
        [] => false,
        [first, ..] => *first == b'#',
    }
}

// Whether a line with this first word is a declaration.
fn is_declaration(word: &[u8]) -> bool
    ensures { result ≡ is_declaration word.now }
{
    word == b"node".as_slice()
        || word == b"link".as_slice()
        || word == b"sae".as_slice()
        || word == b"allow".as_slice()
}

// Whether a line may be in a block, whose lines workers do side by side.
fn may_stand_in_block(command: &Command) -> bool
    ensures { result ≡ may_stand_in_block command.now }
{
    matches!(
        command,
        Command::Fill { .. }
            | Command::Feed { .. }
            | Command::Tick { .. }
            | Command::Pass { .. }
            | Command::Enc { .. }
            | Command::Dec { .. }
            | Command::Status { .. }
            | Command::Http { .. }
            | Command::Stream { .. }
            | Command::FillGroup { .. }
            | Command::EncGroup { .. }
    )
}

// The rounds of all settles with those of this line, but at most `u32::MAX`.
fn rounds_with(rounds: u32, command: &Command) -> u32
    ensures { result ≡ min (rounds_with rounds command.now) (2 ^ 32 - 1) }
{
    match command {
        Command::Settle { rounds: more } => rounds.saturating_add(u32::from(*more)),
        _ => rounds,
    }
}

// The command, or a refusal if there is none.
fn given(command: Option<Command>) -> Result<Command, LineRefusal>
    ensures { Gives command result }
{
    match command {
        Some(command) => Ok(command),
        None => Err(LineRefusal::Refused),
    }
}

// What a line with one of these first words asks for.
#[tactic(auto, unfolding(crate::specs::Line::further_command_at))]
fn further_command(
    alloc: Global,
    site: &Site,
    word: &[u8],
    rest: &[u8],
) -> Result<Command, LineRefusal>
    ensures { Gives (further_command_at site.now word.now (words_of rest.now)) result }
{
    if word == b"link-up".as_slice() {
        given(link_up_line(site, rest))
    } else if word == b"link-down".as_slice() {
        given(link_down_line(site, rest))
    } else if word == b"enc".as_slice() {
        given(enc_line(site, rest))
    } else if word == b"dec".as_slice() {
        dec_line(alloc, site, rest)
    } else if word == b"status".as_slice() {
        given(status_line(site, rest))
    } else if word == b"http".as_slice() {
        http_line(alloc, site, rest)
    } else if word == b"q004".as_slice() {
        given(stream_line(site, rest))
    } else if word == b"show".as_slice() {
        given(show_line(site, rest))
    } else if word == b"ledger".as_slice() {
        given(ledger_line(site, rest))
    } else if word == b"fill-group".as_slice() {
        fill_group_line(alloc, site, rest)
    } else if word == b"enc-group".as_slice() {
        enc_group_line(alloc, site, rest)
    } else {
        Err(LineRefusal::Refused)
    }
}

// What a line with this first word asks for.
#[tactic(auto, unfolding(crate::specs::Line::command_at))]
fn command(alloc: Global, site: &Site, word: &[u8], rest: &[u8]) -> Result<Command, LineRefusal>
    ensures { Gives (command_at site.now word.now (words_of rest.now)) result }
{
    if word == b"bits".as_slice() {
        given(bits_line(site, rest))
    } else if word == b"fill".as_slice() {
        given(fill_line(site, rest))
    } else if word == b"feed".as_slice() {
        given(feed_line(site, rest))
    } else if word == b"tick".as_slice() {
        given(tick_line(site, rest))
    } else if word == b"settle".as_slice() {
        given(settle_line(rest))
    } else if word == b"pass".as_slice() {
        given(pass_line(site, rest))
    } else if word == b"flip".as_slice() {
        given(flip_line(site, rest))
    } else if word == b"forge".as_slice() {
        forge_line(alloc, site, rest)
    } else if word == b"crash".as_slice() {
        given(crash_line(site, rest))
    } else if word == b"start".as_slice() {
        given(start_line(site, rest))
    } else if word == b"cut".as_slice() {
        given(cut_line(site, rest))
    } else if word == b"fail".as_slice() {
        given(fail_line(site, rest))
    } else {
        further_command(alloc, site, word, rest)
    }
}

impl Reading {
    ghost use Rattle.std.specs.Prelude.{◌≡◌};
    ghost use Rattle.scenario_text.specs.Words.{words_of};
    ghost use Rattle.scenario_text.specs.Gives.{Reads};
    ghost use Rattle.scenario_text.specs.Line.{nothing_read, declaration_at, commanded, opened, closed, ended, words_at, line_at};
    ghost use Rattle.scenario_text.specs.Text.{scenario_in, Takes};

    /// What was said before the first line: nothing.
    pub fn new(alloc: Global) -> Self
        ensures { result ≡ nothing_read }
    {
        Reading {
            site: Site {
                nodes: Items::new(alloc),
                routes: RouteTable::new(),
                entitlements: Entitlements::new(alloc),
            },
            node_lines: Items::new(alloc),
            began: false,
            rounds: 0,
            entries: Items::new(alloc),
            block: None,
        }
    }

    /// The scenario that the lines say.
    pub fn into_scenario(self) -> Scenario
        ensures { result ≡ scenario_in self }
    {
        Scenario {
            site: self.site,
            node_lines: self.node_lines,
            entries: self.entries,
        }
    }

    // Reads a declaration with this first word.
    #[tactic(auto, unfolding(crate::specs::Line::declaration_at))]
    fn declare(
        &mut self,
        alloc: Global,
        number: u32,
        word: &[u8],
        rest: &[u8],
    ) -> Result<(), LineRefusal>
        ensures { Reads (declaration_at self.old number word.now (words_of rest.now)) self.old self.new result }
    {
        if self.began {
            return Err(LineRefusal::Refused);
        }
        if word == b"node".as_slice() {
            node_line(alloc, &mut self.site, rest)?;
            match self.node_lines.push(number) {
                Ok(()) => Ok(()),
                Err(_) => Err(LineRefusal::Memory),
            }
        } else if word == b"link".as_slice() {
            link_line(&mut self.site, rest)
        } else if word == b"sae".as_slice() {
            sae_line(&mut self.site, rest)
        } else if word == b"allow".as_slice() {
            allow_line(&mut self.site, rest)
        } else {
            Err(LineRefusal::Refused)
        }
    }

    // Adds a line that asks for this command.
    #[tactic(auto, unfolding(crate::specs::Line::commanded))]
    fn ask(&mut self, number: u32, command: Command) -> Result<bool, LineRefusal>
        ensures { Takes (commanded self.old number command) self.old self.new result }
    {
        let line = Line { number, command };
        match &mut self.block {
            Some(lines) => {
                if !may_stand_in_block(&line.command) {
                    return Err(LineRefusal::Refused);
                }
                match lines.push(line) {
                    Ok(()) => Ok(false),
                    Err(_) => Err(LineRefusal::Memory),
                }
            }
            None => {
                let rounds = rounds_with(self.rounds, &line.command);
                if ROUND_LIMIT < rounds {
                    return Err(LineRefusal::Refused);
                }
                self.rounds = rounds;
                self.began = true;
                match self.entries.push(Entry::Line(line)) {
                    Ok(()) => Ok(false),
                    Err(_) => Err(LineRefusal::Memory),
                }
            }
        }
    }

    // Opens a block, at `together`.
    #[tactic(auto, unfolding(crate::specs::Line::opened))]
    fn open_block(&mut self, alloc: Global, rest: &[u8]) -> Result<bool, LineRefusal>
        ensures { Takes (opened self.old (words_of rest.now)) self.old self.new result }
    {
        if !is_blank(rest) || self.block.is_some() {
            return Err(LineRefusal::Refused);
        }
        self.began = true;
        self.block = Some(Items::new(alloc));
        Ok(false)
    }

    // Closes the block that is open, at `apart`.
    #[tactic(auto, unfolding(crate::specs::Line::closed))]
    fn close_block(&mut self, rest: &[u8]) -> Result<bool, LineRefusal>
        ensures { Takes (closed self.old (words_of rest.now)) self.old self.new result }
    {
        if !is_blank(rest) {
            return Err(LineRefusal::Refused);
        }
        match self.block.take() {
            Some(lines) => match self.entries.push(Entry::Block(lines)) {
                Ok(()) => Ok(false),
                Err(_) => Err(LineRefusal::Memory),
            },
            None => Err(LineRefusal::Refused),
        }
    }

    // Ends the scenario, at `end`.
    #[tactic(auto, unfolding(crate::specs::Line::ended))]
    fn end(&self, rest: &[u8]) -> Result<bool, LineRefusal>
        ensures { Takes (ended self.now (words_of rest.now)) self.now self.now result }
    {
        if is_blank(rest) && self.block.is_none() {
            Ok(true)
        } else {
            Err(LineRefusal::Refused)
        }
    }

    // Reads a line with this first word.
    #[tactic(auto, unfolding(crate::specs::Line::words_at))]
    fn take_words(
        &mut self,
        alloc: Global,
        number: u32,
        word: &[u8],
        rest: &[u8],
    ) -> Result<bool, LineRefusal>
        ensures { Takes (words_at self.old number word.now (words_of rest.now)) self.old self.new result }
    {
        if is_declaration(word) {
            self.declare(alloc, number, word, rest)?;
            Ok(false)
        } else if word == b"together".as_slice() {
            self.open_block(alloc, rest)
        } else if word == b"apart".as_slice() {
            self.close_block(rest)
        } else if word == b"end".as_slice() {
            self.end(rest)
        } else {
            let command = command(alloc, &self.site, word, rest)?;
            self.ask(number, command)
        }
    }

    /// Reads a line without its end. The answer is whether it was the last line. A refused line leaves what was read as it
    /// was.
    #[tactic(auto, unfolding(crate::specs::Line::line_at))]
    pub fn take(&mut self, alloc: Global, number: u32, line: &[u8]) -> Result<bool, LineRefusal>
        ensures { Takes (line_at self.old number line.now) self.old self.new result }
    {
        if !is_printable(line) {
            return Err(LineRefusal::Refused);
        }
        if is_blank(line) || is_comment(line) {
            return Ok(false);
        }
        if begins_blank(line) || ends_blank(line) {
            return Err(LineRefusal::Refused);
        }
        match word(line) {
            Some((first, rest)) => self.take_words(alloc, number, first, rest),
            None => Err(LineRefusal::Refused),
        }
    }
}
