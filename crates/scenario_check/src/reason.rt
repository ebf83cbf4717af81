// Why a line is refused.
ghost use Rattle.std.specs.Prelude.{◌≡◌, IfOk};
ghost use Rattle.scenario_text.specs.Words.{words_of, first_of};
ghost use Rattle.scenario_text.specs.Line.{is_declaration};
ghost use Rattle.scenario_check.specs.Reasons.{stray_of, stray_reason, misfit, node_reason, link_reason, sae_reason, rest_reason, words_reason, line_reason, reason_for};

use crate::field::{Field, fits};
use crate::form::{field_at, fields_of, more_of};
use declared_site::Site;
use qkd_base::{Memory, Octets};
use scenario_text::words::{begins_blank, ends_blank, one, two, word};
use scenario_text::{LINE_LIMIT, Reading, node, sae};
use std::alloc::Global;

/// Why a line is refused.
#[derive(Debug, Drop)]
pub enum Reason {
    /// The text has more octets than a scenario may have, and the first one past that is in this line.
    TextTooLong,
    /// The line has more octets than a line may have.
    LineTooLong,
    /// The line begins with a byte order mark.
    ByteOrderMark,
    /// A tab is the first octet that isn't printable ASCII.
    Tab,
    /// A carriage return is that octet.
    CarriageReturn,
    /// This is that octet.
    OtherOctet { octet: u8 },
    /// A space stands before the first word.
    BlankFirst,
    /// A space stands behind the last word.
    BlankLast,
    /// A declaration stands behind a line that is none.
    LateDeclaration,
    /// No line begins with this word.
    UnknownWord { word: Octets },
    /// The line has too few or too many words.
    NotTheForm,
    /// This is the first word that isn't what its field wants.
    NotTheField { field: Field, word: Octets },
    /// The name is declared already.
    NameTaken,
    /// As many nodes are declared as may be.
    TooManyNodes,
    /// Both words name one node.
    SameNode,
    /// As many links are declared as may be.
    TooManyLinks,
    /// A link joins the nodes already.
    LinkThere,
    /// As many applications are declared as may be.
    TooManyApplications,
    /// Both applications have one home.
    SameHome,
    /// An application is named twice.
    SlaveTwice,
    /// The line may not stand in a block.
    NotInBlock,
    /// All settles have more rounds than they may have.
    TooManyRounds,
    /// A block is open.
    BlockOpen,
    /// No block is open.
    NoBlockOpen,
    /// The text is over, and had no `end`.
    NoEnd,
    /// The line stands behind `end`.
    BehindEnd,
}

// The first octet that isn't printable ASCII.
fn stray(line: &[u8]) -> Option<u8>
    ensures { result ≡ stray_of line.now }
{
    for b in line {
        if *b < 32 || 126 < *b {
            return Some(*b);
        }
    }
    None
}

// Why a line with this octet is refused.
#[tactic(auto, unfolding(crate::specs::Reasons::stray_reason))]
fn stray_reason(line: &[u8], octet: u8) -> Reason
    ensures { result ≡ stray_reason line.now octet }
{
    if line.starts_with(b"\xef\xbb\xbf") {
        Reason::ByteOrderMark
    } else if octet == b'\t' {
        Reason::Tab
    } else if octet == b'\r' {
        Reason::CarriageReturn
    } else {
        Reason::OtherOctet { octet }
    }
}

// The first word that isn't what its field wants, or that there are too few or too many words.
fn misfit(
    alloc: Global,
    site: &Site,
    fields: &[Field],
    more: usize,
    rest: &[u8],
) -> Result<Option<Reason>, Memory>
    ensures { IfOk result (λ reason. reason ≡ misfit site.now fields.now more (words_of rest.now) 0) }
{
    let mut place = 0usize;
    let mut left = rest;
    while let Some((next, others)) = word(left) {
        let Some(field) = field_at(fields, more, place) else {
            return Ok(Some(Reason::NotTheForm));
        };
        if !fits(alloc, site, field, next)? {
            let word = Octets::from_slice(alloc, next)?;
            return Ok(Some(Reason::NotTheField { field, word }));
        }
        place += 1;
        left = others;
    }
    if place < fields.len() {
        Ok(Some(Reason::NotTheForm))
    } else {
        Ok(None)
    }
}

fn node_reason(site: &Site, rest: &[u8]) -> Reason
    ensures { result ≡ node_reason site.now (words_of rest.now) }
{
    match one(rest) {
        Some(name) => {
            if node(site, name).is_some() {
                Reason::NameTaken
            } else {
                Reason::TooManyNodes
            }
        }
        None => Reason::NotTheForm,
    }
}

fn link_reason(site: &Site, rest: &[u8]) -> Reason
    ensures { result ≡ link_reason site.now (words_of rest.now) }
{
    match two(rest) {
        Some((first, second)) => {
            if first == second {
                Reason::SameNode
            } else if site.routes.free_link().is_none() {
                Reason::TooManyLinks
            } else {
                Reason::LinkThere
            }
        }
        None => Reason::NotTheForm,
    }
}

fn sae_reason(site: &Site, rest: &[u8]) -> Reason
    ensures { result ≡ sae_reason site.now (words_of rest.now) }
{
    match two(rest) {
        Some((id, _)) => {
            if sae(site, id).is_some() {
                Reason::NameTaken
            } else {
                Reason::TooManyApplications
            }
        }
        None => Reason::NotTheForm,
    }
}

// Why a line is refused whose words are what its fields want.
#[tactic(auto, unfolding(crate::specs::Reasons::rest_reason))]
fn rest_reason(reading: &Reading, word: &[u8], rest: &[u8]) -> Reason
    ensures { result ≡ rest_reason reading.now word.now (words_of rest.now) }
{
    if word == b"node".as_slice() {
        node_reason(&reading.site, rest)
    } else if word == b"link".as_slice() {
        link_reason(&reading.site, rest)
    } else if word == b"sae".as_slice() {
        sae_reason(&reading.site, rest)
    } else if word == b"allow".as_slice() {
        Reason::SameHome
    } else if word == b"together".as_slice() || word == b"end".as_slice() {
        Reason::BlockOpen
    } else if word == b"apart".as_slice() {
        Reason::NoBlockOpen
    } else if word == b"fill-group".as_slice() || word == b"enc-group".as_slice() {
        Reason::SlaveTwice
    } else if reading.block.is_some() {
        Reason::NotInBlock
    } else {
        Reason::TooManyRounds
    }
}

fn is_declaration(word: &[u8]) -> bool
    ensures { result ≡ is_declaration word.now }
{
    word == b"node".as_slice()
        || word == b"link".as_slice()
        || word == b"sae".as_slice()
        || word == b"allow".as_slice()
}

// Why a line with this first word is refused.
#[tactic(auto, unfolding(crate::specs::Reasons::words_reason))]
fn words_reason(
    alloc: Global,
    reading: &Reading,
    word: &[u8],
    rest: &[u8],
) -> Result<Reason, Memory>
    ensures { IfOk result (λ reason. reason ≡ words_reason reading.now word.now (words_of rest.now)) }
{
    if reading.began && is_declaration(word) {
        return Ok(Reason::LateDeclaration);
    }
    let Some(fields) = fields_of(word, rest) else {
        let word = Octets::from_slice(alloc, word)?;
        return Ok(Reason::UnknownWord { word });
    };
    match misfit(alloc, &reading.site, fields, more_of(word), rest)? {
        Some(reason) => Ok(reason),
        None => Ok(rest_reason(reading, word, rest)),
    }
}

// Why a line is refused that is short enough.
#[tactic(auto, unfolding(crate::specs::Reasons::line_reason))]
fn line_reason(alloc: Global, reading: &Reading, line: &[u8]) -> Result<Reason, Memory>
    ensures { IfOk result (λ reason. reason ≡ line_reason reading.now line.now) }
{
    if let Some(octet) = stray(line) {
        return Ok(stray_reason(line, octet));
    }
    if begins_blank(line) {
        return Ok(Reason::BlankFirst);
    }
    if ends_blank(line) {
        return Ok(Reason::BlankLast);
    }
    match word(line) {
        Some((first, rest)) => words_reason(alloc, reading, first, rest),
        None => Ok(Reason::NotTheForm),
    }
}

/// Why a line is refused, which has `all` octets with its end, where `left` octets of the text are still allowed: the first
/// rule that it breaks.
#[tactic(auto, unfolding(crate::specs::Reasons::reason_for))]
pub fn reason_for(
    alloc: Global,
    reading: &Reading,
    left: usize,
    all: usize,
    line: &[u8],
) -> Result<Reason, Memory>
    ensures { IfOk result (λ reason. reason ≡ reason_for reading.now left all line.now) }
{
    if left < all {
        Ok(Reason::TextTooLong)
    } else if LINE_LIMIT < line.len() {
        Ok(Reason::LineTooLong)
    } else {
        line_reason(alloc, reading, line)
    }
}
