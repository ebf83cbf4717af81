// Batches as octets.
ghost use Rattle.std.specs.Prelude.{◌≡◌, ◌≤◌, IfOk, length};
ghost use Rattle.std.specs.List.{All};
ghost use Rattle.net_model.specs.Formed.{IsWellFormedRecord};
ghost use Rattle.net_model.specs.Journal.{body_len};
ghost use Rattle.journal_records.specs.Grammar.{IsBatch};
ghost use Rattle.kme_journal.specs.Spelled.{IsMade, IsSpelling, IsBody, added, body, version_named};

use crate::forms::are_made;
use journal_records::{spell_batch, spell_batch_2};
use net_model::Records;
use qkd_base::{Memory, Octets};
use std::alloc::Global;

// The octets of a batch in a format version.
fn spell(alloc: Global, batch: &Records, version: u8) -> Result<Octets, Memory>
    requires formed { All IsMade batch.now }
    requires some { 1 ≤ length batch.now }
    requires few { length batch.now ≤ 65535 }
    ensures { IfOk result (IsSpelling version batch.now) }
{
    if version == 1 {
        spell_batch(alloc, batch)
    } else {
        spell_batch_2(alloc, batch)
    }
}

/// The octets of a batch in a format version, or `None` if the batch is empty. A batch that no event can make is
/// refused as if memory had run out.
pub fn body_of(alloc: Global, batch: &Records, version: u8) -> Result<Option<Octets>, Memory>
    ensures { IfOk result (IsBody version batch.now) }
{
    if batch.is_empty() {
        return Ok(None);
    }
    if batch.len() > 65_535 || !are_made(batch.as_slice()) {
        return Err(Memory);
    }
    let octets = spell(alloc, batch, version)?;
    Ok(Some(octets))
}

/// The number of octets by which a body lengthens a journal.
pub fn added(body: &Option<Octets>) -> u64
    ensures { result ≡ added body.now }
{
    match body {
        None => 0,
        Some(octets) => octets.as_slice().len() as u64 + 5,
    }
}
