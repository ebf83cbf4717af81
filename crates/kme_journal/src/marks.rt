// The marks of a checkpoint: acknowledgements, handed-out keys and closed ends of streams.
ghost use Rattle.std.specs.Prelude.{◌≡◌, ◌++◌, List, map, OnOk};
ghost use Rattle.std.specs.List.{All};
ghost use Rattle.net_model.specs.declared.record.Record.{Record as RecordValue};
ghost use Rattle.net_model.specs.declared.record.Record.TheVariants.{Acked, Handed, Closed};
ghost use Rattle.kme_journal.specs.Formed.{IsOfStream};
ghost use Rattle.kme_journal.specs.Batches.{Gathers};

use crate::batches::Batches;
use net_model::Record;
use qkd_base::{KeyName, Memory, SaeNo};

/// Appends the acknowledgements in order.
pub fn list_acked(batches: &mut Batches, names: &[KeyName]) -> Result<(), Memory>
    ensures { (rs : List RecordValue) → Gathers batches.old rs → OnOk result (Gathers batches.new (rs ++ map (λ n. Acked n) names.now)) }
{
    for name in names {
        batches.push(Record::Acked { name: *name })?;
    }
    Ok(())
}

/// Appends the handed-out keys in order.
pub fn list_handed(batches: &mut Batches, pairs: &[(KeyName, SaeNo)]) -> Result<(), Memory>
    ensures { (rs : List RecordValue) → Gathers batches.old rs → OnOk result (Gathers batches.new (rs ++ map (λ h. Handed h.0 h.1) pairs.now)) }
{
    for (name, sae) in pairs {
        batches.push(Record::Handed {
            name: *name,
            sae: *sae,
        })?;
    }
    Ok(())
}

/// Appends the closed ends of streams in order.
pub fn list_closed(batches: &mut Batches, pairs: &[(KeyName, SaeNo)]) -> Result<(), Memory>
    requires { All IsOfStream pairs.now }
    ensures { (rs : List RecordValue) → Gathers batches.old rs → OnOk result (Gathers batches.new (rs ++ map (λ h. Closed h.0 h.1) pairs.now)) }
{
    for (stream, sae) in pairs {
        batches.push(Record::Closed {
            stream: *stream,
            sae: *sae,
        })?;
    }
    Ok(())
}
