// Owed answers: responses that are encoded and not written yet.
ghost use Rattle.std.specs.Prelude.{◌≡◌};
ghost use Rattle.kme_serve.specs.Owed.{IsPaid, IsOwed, IsGivenUp};

use edge_io::{Ended, Failed, Sink};
use qkd_base::Octets;
use std::alloc::Global;

// The most octets that are owed, unless a single answer has more.
const OWED_LIMIT: usize = 16_384;

/// Writes all owed octets with one call.
pub(crate) fn pay<W: Sink>(alloc: Global, sink: &mut W, owed: &mut Octets) -> Result<(), Failed>
    ensures { IsPaid (W.taken sink.old) (W.taken sink.new) (W.faults sink.old) (W.faults sink.new) owed.old owed.new result }
{
    if owed.is_empty() {
        return Ok(());
    }
    sink.write_all(owed.as_slice())?;
    *owed = Octets::new(alloc);
    Ok(())
}

/// Adds one more answer to the owed octets. If they would be too many, or memory runs out, the older ones are written first.
pub(crate) fn owe<W: Sink>(
    alloc: Global,
    sink: &mut W,
    owed: &mut Octets,
    octets: Octets,
) -> Result<(), Failed>
    ensures { IsOwed (W.taken sink.old) (W.taken sink.new) (W.faults sink.old) (W.faults sink.new) owed.old owed.new octets result }
{
    if joins(owed, &octets) && owed.extend(octets.as_slice()).is_ok() {
        return Ok(());
    }
    pay(alloc, sink, owed)?;
    *owed = octets;
    Ok(())
}

// Whether octets are added to the owed ones and written together with them.
fn joins(owed: &Octets, octets: &Octets) -> bool {
    !owed.is_empty() && octets.len() <= OWED_LIMIT - owed.len().min(OWED_LIMIT)
}

/// Ends a connection because memory ran out, after writing what is owed.
pub(crate) fn give_up<W: Sink>(alloc: Global, sink: &mut W, owed: &mut Octets) -> Ended
    ensures { IsGivenUp (W.taken sink.old) (W.taken sink.new) (W.faults sink.old) (W.faults sink.new) owed.old result }
{
    match pay(alloc, sink, owed) {
        Ok(()) => Ended::Memory,
        Err(Failed) => Ended::WriteFault,
    }
}
