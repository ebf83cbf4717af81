// The batches of a journal, replayed.
ghost use Rattle.std.specs.Prelude.{◌≡◌, ◌⊎◌, ℕ, List, map, length, OnOk, IfOk, IfErr, take};
ghost use Rattle.std.specs.List.{All};
ghost use Rattle.net_model.specs.declared.record.Record.{Record as RecordValue};
ghost use Rattle.net_model.specs.Fold.{view_batch, view_batches};
ghost use Rattle.journal_records.specs.Grammar.{IsBatch};
ghost use Rattle.kme_node.specs.Holdings.{view};
ghost use Rattle.kme_node.specs.Replayed.{AreWhole};
ghost use Rattle.kme_journal.specs.Spelled.{body, version_named};
ghost use Rattle.kme_journal.specs.BatchRecovery.{IsReadAs, IsNoBatch, AreReadAs, Misreads};

use journal_records::{RecordRefusal, read_batch, read_batch_2};
use kme_node::Node;
use net_model::Records;
use qkd_base::Octets;
use std::alloc::Global;

// The batch that these octets stand for in a format version.
fn read(alloc: Global, octets: &[u8], version: u8) -> Result<Records, RecordRefusal>
    ensures found { IfOk result (IsReadAs version octets.now) }
    ensures whole { IfOk result AreWhole }
    ensures refused { IfErr result (IsNoBatch version octets.now) }
{
    if version == 1 {
        read_batch(alloc, octets)
    } else {
        read_batch_2(alloc, octets)
    }
}

// Applies the batch that these octets stand for.
fn take_back(
    alloc: Global,
    node: &mut Node,
    octets: &[u8],
    version: u8,
) -> Result<(), RecordRefusal>
    ensures site { node.new.site ≡ node.old.site }
    ensures taken { OnOk result ((batch : List RecordValue) × IsReadAs version octets.now batch × (view node.new ≡ view_batch (view node.old) batch)) }
    ensures refused { IfErr result (IsNoBatch version octets.now) }
{
    match read(alloc, octets, version) {
        Err(why) => Err(why),
        Ok(batch) => match node.replay(batch) {
            Err(_) => Err(RecordRefusal::Memory),
            Ok(()) => Ok(()),
        },
    }
}

/// Applies the batches of a journal to a manager, in order. An `Err` gives the place of the first body that is no
/// valid batch.
pub fn replay(
    alloc: Global,
    node: &mut Node,
    batches: &[Octets],
    version: u8,
) -> Result<(), (RecordRefusal, usize)>
    ensures site { node.new.site ≡ node.old.site }
    ensures taken { OnOk result ((story : List (List RecordValue)) × AreReadAs version batches.now story × (view node.new ≡ view_batches (view node.old) story)) }
    ensures refused { IfErr result (λ e. Misreads version batches.now e.0 e.1) }
{
    for (place, octets) in batches.iter().enumerate() {
        match take_back(alloc, node, octets.as_slice(), version) {
            Err(why) => return Err((why, place)),
            Ok(()) => {}
        }
    }
    Ok(())
}
