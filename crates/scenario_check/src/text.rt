// The lines in which a check is told. Each call adds to the end of a text.
ghost use Rattle.std.specs.Prelude.{◌≡◌, ◌++◌, ◌∷◌, [], map, take, IfOk, OnOk};
ghost use Rattle.std.specs.Fmt.{decimal};
ghost use Rattle.std.specs.List.{flat_map};
ghost use Rattle.hex.specs.Hex.{encode_lower};
ghost use Rattle.scenario_check.specs.Texts.{mark, shown, field_word, fault_words, fault_bounds, field_fault, form_words, form_text, reason_words, reason_subject, reason_text, line_shown, refusal_text, counts_text, checked_text};

use crate::field::Field;
use crate::form::{fields_of, more_of};
use crate::reason::Reason;
use crate::refusal::{Checked, Counts, Refusal};
use itoa::Buffer;
use qkd_base::{Memory, Octets};
use scenario_text::words::word;
use std::alloc::Global;

// How many octets of a line or a word are shown.
const SHOWN: usize = 60;

fn number(text: &mut Octets, number: u64) -> Result<(), Memory>
    ensures { OnOk result (text.new ≡ text.old ++ decimal number) }
{
    let mut digits = Buffer::new();
    text.extend(digits.format(number).as_bytes())
}

// Adds octets, those that aren't printable ASCII as question marks.
fn marked(text: &mut Octets, octets: &[u8]) -> Result<(), Memory>
    ensures { OnOk result (text.new ≡ text.old ++ map mark octets.now) }
{
    for octet in octets {
        if *octet < 32 || 126 < *octet {
            text.push(b'?')?;
        } else {
            text.push(*octet)?;
        }
    }
    Ok(())
}

// Adds the first octets of a line or a word, and two dots where there are more.
fn shown(text: &mut Octets, octets: &[u8]) -> Result<(), Memory>
    ensures { OnOk result (text.new ≡ text.old ++ shown octets.now) }
{
    if SHOWN < octets.len() {
        marked(text, &octets[..SHOWN])?;
        text.extend(b"..")
    } else {
        marked(text, octets)
    }
}

// What stands for a field in a form.
#[tactic(auto, unfolding(crate::specs::Texts::field_word))]
fn field_word(field: Field) -> &'static [u8]
    ensures { result.now ≡ field_word field }
{
    match field {
        Field::NewName { .. } => b"NAME",
        Field::Node => b"NODE",
        Field::Application => b"ID",
        Field::Link => b"LINK",
        Field::Way => b"up|down",
        Field::Ends => b"low|high|both",
        Field::Image => b"lost|kept|torn",
        Field::Name => b"NAME",
        Field::GivenName => b"NAME",
        Field::Stream => b"STREAM",
        Field::StreamOrHyphen => b"-|STREAM",
        Field::Call => b"CALL",
        Field::Size => b"BITS",
        Field::Number { .. } => b"NUMBER",
        Field::Hexadecimal { .. } => b"HEX",
    }
}

// Why a word isn't what its field wants, up to the bounds of the field.
#[tactic(auto, unfolding(crate::specs::Texts::fault_words))]
fn fault_words(field: Field) -> &'static [u8]
    ensures { result.now ≡ fault_words field }
{
    match field {
        Field::NewName { .. } => b"no name of 1 to ",
        Field::Node => b"no node ",
        Field::Application => b"no application ",
        Field::Link => b"no link ",
        Field::Way => b"neither up nor down: ",
        Field::Ends => b"none of low, high and both: ",
        Field::Image => b"none of lost, kept and torn: ",
        Field::Name => b"no name of a key, stream or note: ",
        Field::GivenName => b"no name that a declared node gives: ",
        Field::Stream => b"no name of a stream: ",
        Field::StreamOrHyphen => b"neither - nor the name of a stream: ",
        Field::Call => b"none of OPEN_CONNECT, GET_KEY and CLOSE: ",
        Field::Size => b"no size from 64 to 4096 in steps of 8: ",
        Field::Number { .. } => b"no number from ",
        Field::Hexadecimal { .. } => b"no pairs of hexadecimal digits, 1 to ",
    }
}

// The bounds of a field.
#[tactic(auto, unfolding(crate::specs::Texts::fault_bounds))]
fn fault_bounds(alloc: Global, field: Field) -> Result<Octets, Memory>
    ensures { IfOk result (λ text. text ≡ fault_bounds field) }
{
    let bounds = match field {
        Field::NewName { most } => format!(in alloc; "{most} letters, digits, _, - and .: ")?,
        Field::Number { least, most } => format!(in alloc; "{least} to {most}: ")?,
        Field::Hexadecimal { most } => format!(in alloc; "{most}: ")?,
        _ => return Ok(Octets::new(alloc)),
    };
    Octets::from_slice(alloc, bounds.as_str().as_bytes())
}

// Adds why a word isn't what its field wants; the word stands behind it.
fn field_fault(alloc: Global, text: &mut Octets, field: Field) -> Result<(), Memory>
    ensures { OnOk result (text.new ≡ text.old ++ field_fault field) }
{
    let bounds = fault_bounds(alloc, field)?;
    text.extend(fault_words(field))?;
    text.extend(bounds.as_slice())
}

// Adds what the fields of a form want.
fn form_words(text: &mut Octets, fields: &[Field]) -> Result<(), Memory>
    ensures { OnOk result (text.new ≡ text.old ++ form_words fields.now) }
{
    for field in fields {
        text.extend(b" ")?;
        text.extend(field_word(*field))?;
    }
    Ok(())
}

// Adds the form of a line with this line's first word.
#[tactic(auto, unfolding(crate::specs::Texts::form_text, crate::specs::Texts::form_of_word))]
fn form(text: &mut Octets, line: &[u8]) -> Result<(), Memory>
    ensures { OnOk result (text.new ≡ text.old ++ form_text line.now) }
{
    let Some((first, rest)) = word(line) else {
        return Ok(());
    };
    shown(text, first)?;
    let Some(fields) = fields_of(first, rest) else {
        return Ok(());
    };
    form_words(text, fields)?;
    if 0 < more_of(first) {
        text.extend(b" ..")
    } else {
        Ok(())
    }
}

// Why a line is refused, up to what stands behind these words.
#[tactic(auto, unfolding(crate::specs::Texts::reason_words))]
fn reason_words(reason: &Reason) -> &'static [u8]
    ensures { result.now ≡ reason_words reason.now }
{
    match reason {
        Reason::TextTooLong => b"more than 4194304 octets in all",
        Reason::LineTooLong => b"more than 150000 octets",
        Reason::ByteOrderMark => b"a byte order mark",
        Reason::Tab => b"a tab",
        Reason::CarriageReturn => b"a carriage return",
        Reason::OtherOctet { .. } => b"no printable ASCII: octet ",
        Reason::BlankFirst => b"a blank before the first word",
        Reason::BlankLast => b"a blank behind the last word",
        Reason::LateDeclaration => b"a declaration behind other lines",
        Reason::UnknownWord { .. } => b"no line begins with ",
        Reason::NotTheForm => b"the form is: ",
        Reason::NotTheField { .. } => b"",
        Reason::NameTaken => b"the name is declared already",
        Reason::TooManyNodes => b"16 nodes are declared already",
        Reason::SameNode => b"both are one node",
        Reason::TooManyLinks => b"32 links are declared already",
        Reason::LinkThere => b"a link joins them already",
        Reason::TooManyApplications => b"256 applications are declared already",
        Reason::SameHome => b"both are at one node",
        Reason::SlaveTwice => b"an application is named twice",
        Reason::NotInBlock => b"not in a block",
        Reason::TooManyRounds => b"more than 100000 rounds in all",
        Reason::BlockOpen => b"a block is open",
        Reason::NoBlockOpen => b"no block is open",
        Reason::NoEnd => b"no end",
        Reason::BehindEnd => b"a line behind end",
    }
}

// Adds what a reason is about.
#[tactic(auto, unfolding(crate::specs::Texts::reason_subject))]
fn reason_subject(
    alloc: Global,
    text: &mut Octets,
    line: &[u8],
    reason: &Reason,
) -> Result<(), Memory>
    ensures { OnOk result (text.new ≡ text.old ++ reason_subject line.now reason.now) }
{
    match reason {
        Reason::OtherOctet { octet } => {
            let digits = hex::encode(alloc, &[*octet])?;
            text.extend(digits.as_str().as_bytes())
        }
        Reason::UnknownWord { word } => shown(text, word.as_slice()),
        Reason::NotTheForm => form(text, line),
        Reason::NotTheField { field, word } => {
            field_fault(alloc, text, *field)?;
            shown(text, word.as_slice())
        }
        _ => Ok(()),
    }
}

// Adds why a line is refused.
fn reason_text(alloc: Global, text: &mut Octets, line: &[u8], reason: &Reason) -> Result<(), Memory>
    ensures { OnOk result (text.new ≡ text.old ++ reason_text line.now reason.now) }
{
    text.extend(reason_words(reason))?;
    reason_subject(alloc, text, line, reason)
}

// Adds the octets of a line and a colon, where it has some.
#[tactic(auto, unfolding(crate::specs::Texts::line_shown))]
fn line_shown(text: &mut Octets, line: &[u8]) -> Result<(), Memory>
    ensures { OnOk result (text.new ≡ text.old ++ line_shown line.now) }
{
    match line {
        [] => Ok(()),
        _ => {
            shown(text, line)?;
            text.extend(b": ")
        }
    }
}

#[tactic(auto, unfolding(crate::specs::Texts::refusal_text))]
fn refusal_text(alloc: Global, text: &mut Octets, refusal: &Refusal) -> Result<(), Memory>
    ensures { OnOk result (text.new ≡ text.old ++ refusal_text refusal.now) }
{
    text.extend(b"line ")?;
    number(text, u64::from(refusal.number))?;
    text.extend(b": ")?;
    line_shown(text, refusal.line.as_slice())?;
    reason_text(alloc, text, refusal.line.as_slice(), &refusal.reason)?;
    text.push(b'\n')
}

fn refusals_text(alloc: Global, text: &mut Octets, refusals: &[Refusal]) -> Result<(), Memory>
    ensures { OnOk result (text.new ≡ text.old ++ flat_map refusal_text refusals.now) }
{
    for refusal in refusals {
        refusal_text(alloc, text, refusal)?;
    }
    Ok(())
}

#[tactic(auto, unfolding(crate::specs::Texts::counts_text))]
fn counts_text(alloc: Global, counts: Counts) -> Result<Octets, Memory>
    ensures { IfOk result (λ text. text ≡ counts_text counts) }
{
    let Counts {
        nodes,
        links,
        applications,
        lines,
    } = counts;
    let line = format!(in alloc;
        "fine: nodes {nodes}, links {links}, applications {applications}, lines {lines}\n"
    )?;
    Octets::from_slice(alloc, line.as_str().as_bytes())
}

/// The lines in which a check is told: one with the counts of a scenario, or one for each refused line. The only error is
/// that memory runs out.
#[tactic(auto, unfolding(crate::specs::Texts::checked_text))]
pub fn checked_text(alloc: Global, checked: &Checked) -> Result<Octets, Memory>
    ensures { IfOk result (λ text. text ≡ checked_text checked.now) }
{
    match checked {
        Checked::Fine(counts) => counts_text(alloc, *counts),
        Checked::Refused(refusals) => {
            let mut text = Octets::new(alloc);
            refusals_text(alloc, &mut text, refusals.as_slice())?;
            Ok(text)
        }
    }
}
