// The check of a whole text.
ghost use Rattle.std.specs.Prelude.{◌≡◌, ℕ, ◌+◌, ◌≤◌, List, [], ◌∷◌, ◌++◌, length, IfOk, OnOk};
ghost use Rattle.std.specs.Str.Lines.{strip_carriage_return};
ghost use Rattle.scenario_text.specs.Line.{line_at};
ghost use Rattle.scenario_text.specs.Text.{within, parts_of};
ghost use Rattle.scenario_check.specs.Check.{link_count, counts_of, refusal, at_end, Judges, checked_of};

use crate::reason::{Reason, reason_for};
use crate::refusal::{Checked, Counts, Refusal};
use declared_site::Site;
use qkd_base::{Items, Memory, Octets, SaeNo};
use route_table::RouteTable;
use sae_entitlements::Entitlements;
use scenario_text::{LINE_LIMIT, LineRefusal, Reading, TEXT_LIMIT, split_line, without_return};
use std::alloc::Global;

/// The greatest number of refused lines that are told.
const MOST_TOLD: usize = 10;

// What became of a line.
#[derive(Drop)]
enum Judged {
    More,
    Last,
    Refused(Reason),
}

// The number of links: they are numbered from 0.
fn link_count(routes: &RouteTable) -> usize
    ensures { result ≡ link_count routes.now }
{
    match routes.free_link() {
        Some(link) => usize::from(link.get()),
        None => 32,
    }
}

// The number of applications: they are numbered from 0, and there are at most 256.
fn sae_count(entitlements: &Entitlements) -> usize
    ensures { result ≡ length entitlements.now.saes }
{
    // What it finds doesn't matter: its contract says that there are at most 256.
    let _found = entitlements.find("");
    for number in 0..256u16 {
        let is_known = match SaeNo::new(number) {
            Some(sae) => entitlements.id(sae).is_some(),
            None => false,
        };
        if !is_known {
            return usize::from(number);
        }
    }
    256
}

fn counts_of(site: &Site, lines: u32) -> Counts
    ensures { result ≡ counts_of site.now lines }
{
    Counts {
        nodes: site.nodes.len(),
        links: link_count(&site.routes),
        applications: sae_count(&site.entitlements),
        lines,
    }
}

// Reads a line, which has `all` octets with its end.
#[tactic(auto, unfolding(scenario_text::specs::Text::within))]
fn judge(
    alloc: Global,
    reading: &mut Reading,
    left: usize,
    number: u32,
    all: usize,
    line: &[u8],
) -> Result<Judged, Memory>
    ensures { Judges (within left all (length line.now) (line_at reading.old number line.now)) reading.old left all line.now reading.new result }
{
    if all <= left && line.len() <= LINE_LIMIT {
        match reading.take(alloc, number, line) {
            Ok(true) => return Ok(Judged::Last),
            Ok(false) => return Ok(Judged::More),
            Err(LineRefusal::Memory) => return Err(Memory),
            Err(LineRefusal::Refused) => {}
        }
    }
    let reason = reason_for(alloc, reading, left, all, line)?;
    Ok(Judged::Refused(reason))
}

// The first line of a text, without its end.
fn first_line(text: &[u8]) -> &[u8]
    ensures { (part : List ℕ) (parts : List (List ℕ)) → parts_of text.now ≡ part ∷ parts → result.now ≡ strip_carriage_return part }
{
    match split_line(text) {
        Some((line, _)) => without_return(line),
        None => without_return(text),
    }
}

// Adds a refused line.
fn refuse(
    alloc: Global,
    found: &mut Items<Refusal>,
    number: u32,
    line: &[u8],
    reason: Reason,
) -> Result<(), Memory>
    ensures { OnOk result (found.new ≡ found.old ++ refusal number line.now reason ∷ []) }
{
    let line = Octets::from_slice(alloc, line)?;
    found.push(Refusal {
        number,
        line,
        reason,
    })
}

// What is said where the text is over, and its last line is `end`.
fn at_end(found: Items<Refusal>, site: &Site, lines: u32) -> Checked
    ensures { result ≡ at_end found site.now lines }
{
    if found.is_empty() {
        Checked::Fine(counts_of(site, lines))
    } else {
        Checked::Refused(found)
    }
}

/// What is said of a text: the counts of the scenario that it is, or its refused lines with their reasons. Each line is
/// read as if the refused ones before it were left out. At most ten are told. Nothing is told behind a line with which
/// the text is too long, behind `end`, and behind the last line where it is refused. The only error is that memory runs
/// out.
pub fn check_text(alloc: Global, octets: &[u8]) -> Result<Checked, Memory>
    ensures { IfOk result (λ checked. checked ≡ checked_of octets.now) }
{
    if octets.len() > TEXT_LIMIT + 1 {
        check_parts(alloc, &octets[..TEXT_LIMIT + 1])
    } else {
        check_parts(alloc, octets)
    }
}

// What is said of a text that is at most one octet longer than the limit.
fn check_parts(alloc: Global, octets: &[u8]) -> Result<Checked, Memory>
    requires { length octets.now ≤ TEXT_LIMIT + 1 }
    ensures { IfOk result (λ checked. checked ≡ checked_of octets.now) }
{
    let mut reading = Reading::new(alloc);
    let mut found = Items::new(alloc);
    let mut rest = octets;
    let mut left = TEXT_LIMIT;
    let mut number = 1u32;
    while let Some((line, behind)) = split_line(rest) {
        let own = without_return(line);
        let all = line.len() + 1;
        match judge(alloc, &mut reading, left, number, all, own)? {
            Judged::More => {}
            Judged::Last => {
                if behind.is_empty() {
                    return Ok(at_end(found, &reading.site, number));
                }
                let next = first_line(behind);
                refuse(alloc, &mut found, number + 1, next, Reason::BehindEnd)?;
                return Ok(Checked::Refused(found));
            }
            Judged::Refused(reason) => {
                refuse(alloc, &mut found, number, own, reason)?;
                if left < all || found.len() == MOST_TOLD {
                    return Ok(Checked::Refused(found));
                }
            }
        }
        left = left.saturating_sub(all);
        number += 1;
        rest = behind;
    }
    match judge(alloc, &mut reading, left, number, rest.len(), rest)? {
        Judged::More => {
            refuse(alloc, &mut found, number, rest, Reason::NoEnd)?;
            Ok(Checked::Refused(found))
        }
        Judged::Last => Ok(at_end(found, &reading.site, number)),
        Judged::Refused(reason) => {
            refuse(alloc, &mut found, number, rest, reason)?;
            Ok(Checked::Refused(found))
        }
    }
}
