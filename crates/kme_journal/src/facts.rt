// The facts of a checkpoint.
ghost use Rattle.std.specs.Prelude.{◌≡◌, ◌++◌, ◌&&◌, not, List, map, slice_get, Some, IfOk, OnOk};
ghost use Rattle.std.specs.List.{All};
ghost use Rattle.net_model.specs.declared.record.Record.{Record as RecordValue};
ghost use Rattle.net_model.specs.Facts.{IsWellFormedFact};
ghost use Rattle.net_model.specs.Formed.{IsWellFormedRecord};
ghost use Rattle.net_model.specs.Journal.{fact_record};
ghost use Rattle.net_model.specs.Table.{is_secret};
ghost use Rattle.net_model.specs.View.{View};
ghost use Rattle.net_model.specs.Needed.{is_needed};
ghost use Rattle.stream_core.specs.Kept.{Sees};
ghost use Rattle.kme_facts.specs.Needs.{IsMasked};
ghost use Rattle.kme_journal.specs.Batches.{Gathers};

use crate::batches::Batches;
use kme_facts::Kept;
use net_model::{Fact, Record};
use qkd_base::{Memory, Replica};
use relay_core::is_secret;

// Whether a fact is written without its bytes: it has bytes, but they are no longer needed.
fn is_bare(kept: &Kept, place: usize, fact: &Fact) -> bool
    requires { slice_get kept.now.ends.known.facts place ≡ Some fact.now }
    ensures { (v : View) → Sees v kept.now → result ≡ (is_secret fact.now && not (is_needed v fact.now)) }
{
    is_secret(fact) && !kept.is_needed(place)
}

// The record of a fact.
fn fact_record(kept: &Kept, place: usize, fact: &Fact) -> Result<Record, Memory>
    requires there { slice_get kept.now.ends.known.facts place ≡ Some fact.now }
    requires formed { IsWellFormedFact fact.now }
    requires masked { IsMasked kept.now }
    ensures spelled { (v : View) → Sees v kept.now → IfOk result (λ made. made ≡ fact_record v fact.now) }
    ensures formed { IfOk result IsWellFormedRecord }
{
    let is_bare = is_bare(kept, place, fact);
    let fact = fact.copy()?;
    if is_bare {
        return Ok(Record::Bare { fact });
    }
    Ok(Record::Learned { fact })
}

/// Appends the facts in the order in which they were learned.
pub fn list_facts(batches: &mut Batches, kept: &Kept) -> Result<(), Memory>
    requires { All IsWellFormedFact kept.now.ends.known.facts }
    ensures { (v : View) (rs : List RecordValue) → Sees v kept.now → Gathers batches.old rs → OnOk result (Gathers batches.new (rs ++ map (fact_record v) v.facts)) }
{
    let known = kept.streams().ends().known();
    for place in 0..known.len() {
        match known.at(place) {
            None => {}
            Some(fact) => batches.push(fact_record(kept, place, fact)?)?,
        }
    }
    Ok(())
}
