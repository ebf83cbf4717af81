// The forms of the program's words.
ghost use Rattle.std.specs.Prelude.{◌≡◌, ◌≤◌, Ok, Err, MatchResult, IfOk, IfSome, drop, take, length, slice_get};
ghost use Rattle.std.specs.Option.{option_map, option_and_then};
ghost use Rattle.tag_bound.specs.Words.{number_of, text_of};
ghost use Rattle.scenario_text.specs.Words.{number_in};
ghost use Rattle.kme_serve.specs.Endless.{endless};
ghost use Rattle.qkd_network.specs.Forms.{asked_by, question_form, alone, run_form, quiet_form, load_form, serve_form, connections_form, connections_in, port_form, bound_form, second_form, third_form, audit_form, wanted_of, AreServable, IsInRange};

use kme_serve::Connections;
use qkd_base::Texts;
use scenario_text::words::number_in;
use tag_bound::{ShortText, number};

/// What the words ask for.
#[derive(Clone, Copy)]
pub enum Form {
    /// Runs a scenario. `workers` workers do its blocks.
    Run {
        workers: u32,
    },
    /// Runs a scenario, as `Run`, and writes the lines that a person asked for alone.
    Quiet {
        workers: u32,
    },
    /// Runs the generated load of `rounds` rounds.
    Load {
        rounds: u32,
    },
    /// Runs a scenario, whose blocks `workers` workers do. Then each worker serves `connections` connections (1 to 10,000, or 2^48 for ever) at the port of its node, which
    /// is `port` plus the node's number.
    Serve {
        workers: u32,
        connections: u64,
        port: u16,
    },
    /// Runs a scenario, and counts the frames on its wires and the lane bytes that differ under other keys.
    Veil,
    /// Counts the keys, given line by line, that give two different texts a difference of hashes.
    Bound {
        a: ShortText,
        b: ShortText,
        difference: u64,
    },
    /// Audits the report of a scenario.
    Audit,
    /// Audits the whole report of a scenario, by more rules.
    WholeAudit,
    /// Tells which lines of a scenario are refused, and why.
    Check,
    /// Writes the items of a report as JSON objects.
    Json,
}

/// Reads the words as a form. `Err` has the index of the first word that fits no form, or the number of words if one is missing.
#[tactic(auto, unfolding(crate::specs::Forms::asked_by))]
pub fn read_form(words: &Texts) -> Result<Form, usize>
    ensures form { MatchResult result (λ form. asked_by words.now ≡ Ok (wanted_of form)) (λ place. asked_by words.now ≡ Err place) }
    ensures range { IfOk result IsInRange }
{
    let first = words.get(0).ok_or(0usize)?;
    if first.as_str() == "run" {
        return run_form(words);
    }
    if first.as_str() == "load" {
        return load_form(words);
    }
    if first.as_str() == "serve" {
        return serve_form(words);
    }
    question_form(words, first.as_str())
}

// Reads the form of a question, whose first word is `word`.
#[tactic(auto, unfolding(crate::specs::Forms::question_form))]
fn question_form(words: &Texts, word: &str) -> Result<Form, usize>
    requires { 1 ≤ length words.now }
    ensures form { MatchResult result (λ form. question_form word.now (drop 1 words.now) ≡ Ok (wanted_of form)) (λ place. question_form word.now (drop 1 words.now) ≡ Err place) }
    ensures range { IfOk result IsInRange }
{
    if word == "veil" {
        return alone(words, Form::Veil);
    }
    if word == "bound" {
        return bound_form(words);
    }
    if word == "audit" {
        return audit_form(words);
    }
    if word == "check" {
        return alone(words, Form::Check);
    }
    if word == "json" {
        return alone(words, Form::Json);
    }
    Err(0)
}

// Reads the form of `audit`, which is the first word.
#[tactic(auto, unfolding(crate::specs::Forms::audit_form))]
fn audit_form(words: &Texts) -> Result<Form, usize>
    requires { 1 ≤ length words.now }
    ensures form { MatchResult result (λ form. audit_form (drop 1 words.now) ≡ Ok (wanted_of form)) (λ place. audit_form (drop 1 words.now) ≡ Err place) }
    ensures range { IfOk result IsInRange }
{
    let Some(word) = words.get(1) else {
        return Ok(Form::Audit);
    };
    if word.as_str() != "whole" {
        return Err(1);
    }
    if words.len() > 2 {
        return Err(2);
    }
    Ok(Form::WholeAudit)
}

// Reads a form that has no further word.
fn alone(words: &Texts, form: Form) -> Result<Form, usize>
    requires word { 1 ≤ length words.now }
    requires range { IsInRange form }
    ensures form { MatchResult result (λ read. alone 1 (wanted_of form) (drop 1 words.now) ≡ Ok (wanted_of read)) (λ place. alone 1 (wanted_of form) (drop 1 words.now) ≡ Err place) }
    ensures range { IfOk result IsInRange }
{
    if words.len() > 1 {
        return Err(1);
    }
    Ok(form)
}

// Reads the form of `run`, which is the first word.
#[tactic(auto, unfolding(crate::specs::Forms::run_form))]
fn run_form(words: &Texts) -> Result<Form, usize>
    requires { 1 ≤ length words.now }
    ensures form { MatchResult result (λ form. run_form (drop 1 words.now) ≡ Ok (wanted_of form)) (λ place. run_form (drop 1 words.now) ≡ Err place) }
    ensures range { IfOk result IsInRange }
{
    let workers = count_at(words, 1, 1, 32).ok_or(1usize)?;
    quiet_form(words, workers)
}

// Reads the words behind the number of workers of `run`.
#[tactic(auto, unfolding(crate::specs::Forms::quiet_form))]
fn quiet_form(words: &Texts, workers: u32) -> Result<Form, usize>
    requires words { 2 ≤ length words.now }
    requires workers { (1 ≤ workers) × (workers ≤ 32) }
    ensures form { MatchResult result (λ form. quiet_form workers (drop 2 words.now) ≡ Ok (wanted_of form)) (λ place. quiet_form workers (drop 2 words.now) ≡ Err place) }
    ensures range { IfOk result IsInRange }
{
    let Some(word) = words.get(2) else {
        return Ok(Form::Run { workers });
    };
    if word.as_str() != "--quiet" {
        return Err(2);
    }
    if words.len() > 3 {
        return Err(3);
    }
    Ok(Form::Quiet { workers })
}

// Reads the form of `load`, which is the first word.
#[tactic(auto, unfolding(crate::specs::Forms::load_form))]
fn load_form(words: &Texts) -> Result<Form, usize>
    requires { 1 ≤ length words.now }
    ensures form { MatchResult result (λ form. load_form (drop 1 words.now) ≡ Ok (wanted_of form)) (λ place. load_form (drop 1 words.now) ≡ Err place) }
    ensures range { IfOk result IsInRange }
{
    let rounds = count_at(words, 1, 1, 500).ok_or(1usize)?;
    if words.len() > 2 {
        return Err(2);
    }
    Ok(Form::Load { rounds })
}

// The number that a word spells, if it is in the range from `least` to `most`.
fn count_at(words: &Texts, place: usize, least: u32, most: u32) -> Option<u32>
    ensures number { result ≡ option_and_then (number_in least most) (slice_get words.now place) }
    ensures bounds { IfSome result (λ n. (least ≤ n) × (n ≤ most)) }
{
    match words.get(place) {
        None => None,
        Some(word) => number_in(least, most, word.as_str().as_bytes()),
    }
}

// How many connections a word asks for.
#[tactic(auto, unfolding(crate::specs::Forms::connections_in))]
fn connections_at(words: &Texts, place: usize) -> Option<u64>
    ensures number { result ≡ option_and_then connections_in (slice_get words.now place) }
    ensures bounds { IfSome result AreServable }
{
    let word = words.get(place)?;
    if word.as_str() == "forever" {
        return Some(Connections::forever().count());
    }
    let count = number_in(1, 10_000, word.as_str().as_bytes())?;
    Some(u64::from(count))
}

/// The connections of a form.
pub(crate) fn connections_of(count: u64) -> Connections
    requires { AreServable count }
    ensures number { result ≡ count }
    ensures few { result ≤ endless }
{
    if count <= 10_000 {
        Connections::new(count as u32)
    } else {
        Connections::forever()
    }
}

// Reads the form of `serve`, which is the first word.
#[tactic(auto, unfolding(crate::specs::Forms::serve_form, crate::specs::Forms::connections_form, crate::specs::Forms::port_form))]
fn serve_form(words: &Texts) -> Result<Form, usize>
    requires { 1 ≤ length words.now }
    ensures form { MatchResult result (λ form. serve_form (drop 1 words.now) ≡ Ok (wanted_of form)) (λ place. serve_form (drop 1 words.now) ≡ Err place) }
    ensures range { IfOk result IsInRange }
{
    let workers = count_at(words, 1, 1, 32).ok_or(1usize)?;
    let connections = connections_at(words, 2).ok_or(2usize)?;
    let port = count_at(words, 3, 1, 65_520).ok_or(3usize)?;
    if words.len() > 4 {
        return Err(4);
    }
    Ok(Form::Serve {
        workers,
        connections,
        port: port as u16,
    })
}

// The text of a word in hexadecimal digits.
fn text_at(words: &Texts, place: usize) -> Option<ShortText>
    ensures { option_map (λ t. take t.size t.octets) result ≡ option_and_then text_of (slice_get words.now place) }
{
    match words.get(place) {
        None => None,
        Some(word) => ShortText::read(word.as_str().as_bytes()),
    }
}

// The number of a word of 16 hexadecimal digits.
fn number_at(words: &Texts, place: usize) -> Option<u64>
    ensures { result ≡ option_and_then number_of (slice_get words.now place) }
{
    match words.get(place) {
        None => None,
        Some(word) => number(word.as_str().as_bytes()),
    }
}

// Reads the form of `bound`, which is the first word.
#[tactic(auto, unfolding(crate::specs::Forms::bound_form, crate::specs::Forms::second_form, crate::specs::Forms::third_form))]
fn bound_form(words: &Texts) -> Result<Form, usize>
    requires { 1 ≤ length words.now }
    ensures form { MatchResult result (λ form. bound_form (drop 1 words.now) ≡ Ok (wanted_of form)) (λ place. bound_form (drop 1 words.now) ≡ Err place) }
    ensures range { IfOk result IsInRange }
{
    let a = text_at(words, 1).ok_or(1usize)?;
    let b = text_at(words, 2).ok_or(2usize)?;
    if a.as_slice() == b.as_slice() {
        return Err(2);
    }
    let difference = number_at(words, 3).ok_or(3usize)?;
    if words.len() > 4 {
        return Err(4);
    }
    Ok(Form::Bound { a, b, difference })
}
