// The memory that a step needs, reserved before the step is applied.
ghost use Rattle.std.specs.Prelude.{◌≡◌, ◌≤◌, ◌^◌, length, IfOk, OnOk, OnErr};
ghost use Rattle.kme_facts.specs.Needs.{kept_view};
ghost use Rattle.kme_facts.specs.Taken.{HasRoom as HasFactsRoom};
ghost use Rattle.kme_base.specs.declared.change.Change.TheVariants as changes;
ghost use Rattle.kme_node.specs.Holdings.{view, Fits, HasRoom, HasBatchRoom, HasWindowRoom};

use crate::Node;
use kme_base::{Change, Ports, Step};
use kme_facts::Kept;
use net_model::{Record, Reply};
use qkd_base::Memory;
use resend_window::Window;

// A number of items as a `u32`. An `Err` if it doesn't fit.
pub(crate) fn count_of(items: usize) -> Result<u32, Memory>
    ensures count { IfOk result (λ count. count ≡ items) }
    ensures large { OnErr result (2 ^ 32 ≤ items) }
{
    match u32::try_from(items) {
        Ok(count) => Ok(count),
        Err(_) => Err(Memory),
    }
}

// Reserves memory for the block of a batch, if it has one.
fn room_ports(ports: &mut Ports, batch: &[Record]) -> Result<(), Memory>
    ensures ports { ports.new.ports ≡ ports.old.ports }
    ensures ok { OnOk result (HasBatchRoom ports.new batch.now) }
{
    for change in batch {
        match change {
            Record::Block { link, .. } => return ports.room_block(*link),
            _ => {}
        }
    }
    Ok(())
}

// Reserves memory for what a plan orders.
fn room_plan(window: &mut Window, reply: &Reply) -> Result<(), Memory>
    ensures volatile { window.new.volatile ≡ window.old.volatile }
    ensures ok { OnOk result (HasWindowRoom window.new changes.Planned reply.now) }
{
    match reply {
        Reply::Planned { orders, .. } => {
            let count = count_of(orders.len())?;
            window.room_orders(count)
        }
        _ => Ok(()),
    }
}

// Reserves memory for what a step adds to the window.
fn room_window(window: &mut Window, step: &Step) -> Result<(), Memory>
    ensures volatile { window.new.volatile ≡ window.old.volatile }
    ensures ok { OnOk result (HasWindowRoom window.new step.now.change step.now.reply) }
{
    match step.change {
        Change::Same => Ok(()),
        Change::Received { .. } => window.room_received(1),
        Change::Acknowledged { .. } => Ok(()),
        Change::Planned => room_plan(window, &step.reply),
        Change::Noted => Ok(()),
    }
}

// Reserves memory in each part of a manager.
fn room_parts(
    kept: &mut Kept,
    ports: &mut Ports,
    window: &mut Window,
    step: &Step,
) -> Result<(), Memory>
    ensures kept { kept_view kept.new ≡ kept_view kept.old }
    ensures ports { ports.new.ports ≡ ports.old.ports }
    ensures volatile { window.new.volatile ≡ window.old.volatile }
    ensures facts { OnOk result (HasFactsRoom kept.new (length step.now.batch)) }
    ensures blocks { OnOk result (HasBatchRoom ports.new step.now.batch) }
    ensures life { OnOk result (HasWindowRoom window.new step.now.change step.now.reply) }
{
    let count = count_of(step.batch.len())?;
    kept.room(count)?;
    room_ports(ports, step.batch.as_slice())?;
    room_window(window, step)
}

impl Node {
    /// Reserves the memory that applying a step needs. An `Err` changes nothing but reserved memory.
    pub fn reserve(&mut self, step: &Step) -> Result<(), Memory>
        ensures site { self.new.site ≡ self.old.site }
        ensures view { view self.new ≡ view self.old }
        ensures fits { (s : Step) → Fits self.old s → Fits self.new s }
        ensures ok { OnOk result (HasRoom self.new step.now) }
    {
        room_parts(&mut self.kept, &mut self.ports, &mut self.window, step)
    }
}
