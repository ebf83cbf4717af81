// Facts that are received.
ghost use Rattle.std.specs.Prelude.{◌≡◌, [], ◌∷◌, IfOk, IfSome, option_map, option_to_list};
ghost use Rattle.qkd_base.specs.declared.key_name.NameKind.TheVariants.{Note as NoteKind};
ghost use Rattle.net_model.specs.declared.record.Record.TheVariants.{Learned};
ghost use Rattle.net_model.specs.declared.reply.Reply.TheVariants.{HeardFact};
ghost use Rattle.net_model.specs.View.{View};
ghost use Rattle.net_model.specs.Decision.{Does, fresh_name};
ghost use Rattle.net_model.specs.Relay.{receive_fact, stored_note};
ghost use Rattle.kme_base.specs.Steps.{IsStep};
ghost use Rattle.kme_relay.specs.Knows.{Knows};

use kme_base::{Change, Step};
use net_model::{Fact, Record, Records, Reply};
use qkd_base::{KeyName, Lane, Memory, NameKind, Replica};
use relay_core::{Known, fact_name, fact_route, is_secret, kind_octet};
use std::alloc::Global;

// The name of the next note. `None` if its count isn't below 2^48.
fn next_note(known: &Known) -> Option<KeyName>
    ensures { IfSome result (λ name. (v : View) → Knows v known.now → name ≡ fresh_name v NoteKind 0) }
{
    KeyName::new(known.me(), NameKind::Note, known.last_count() + 1)
}

// The note that a fact has reached the last node of its route. `None` if this node isn't the last, or if the fact has
// no bytes.
fn stored_note(known: &Known, fact: &Fact) -> Result<Option<Fact>, Memory>
    ensures { IfOk result (λ note. (v : View) → Knows v known.now → option_to_list (option_map Learned note) ≡ stored_note v fact.now) }
{
    let route = fact_route(fact);
    if !is_secret(fact) || route.last() != known.me() {
        return Ok(None);
    }
    match next_note(known) {
        None => Err(Memory),
        Some(note) => Ok(Some(Fact::Stored {
            note,
            about: fact_name(fact),
            route: route.reversed(),
        })),
    }
}

// The records of a new fact: the fact, and the note that it has reached its last node, if there is one.
fn new_records(alloc: Global, known: &Known, fact: &Fact) -> Result<Records, Memory>
    ensures { IfOk result (λ records. (v : View) → Knows v known.now → records ≡ Learned fact.now ∷ stored_note v fact.now) }
{
    let note = stored_note(known, fact)?;
    let mut records = Records::new(alloc);
    records.push(Record::Learned { fact: fact.copy()? })?;
    match note {
        None => {}
        Some(note) => records.push(Record::Learned { fact: note })?,
    }
    Ok(records)
}

// What a node answers when it receives a fact.
fn answer(fresh: bool, kind: u8, name: KeyName) -> Reply
    ensures { result ≡ HeardFact fresh kind name }
{
    Reply::HeardFact { fresh, kind, name }
}

/// Decides about a fact, received on a lane at an offset.
pub fn heard_fact(
    alloc: Global,
    known: &Known,
    lane: Lane,
    offset: u64,
    fact: &Fact,
) -> Result<Step, Reply>
    ensures { (v : View) → Knows v known.now → IsStep v [] (Does (receive_fact v lane offset fact.now)) result }
{
    let name = fact_name(fact);
    let kind = kind_octet(fact);
    let change = Change::Received { lane, offset, name };
    if known.knows(name) {
        return Ok(Step {
            batch: Records::new(alloc),
            reply: answer(false, kind, name),
            change,
        });
    }
    match new_records(alloc, known, fact) {
        Err(_) => Err(Reply::Memory),
        Ok(batch) => Ok(Step {
            batch,
            reply: answer(true, kind, name),
            change,
        }),
    }
}
