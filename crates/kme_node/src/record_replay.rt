// A manager that is recovered from its journal.
ghost use Rattle.std.specs.Prelude.{◌≡◌, map, OnOk, OnErr};
ghost use Rattle.net_model.specs.Fold.{view_batch, view_restarted};
ghost use Rattle.net_model.specs.View.{Port};
ghost use Rattle.kme_node.specs.Ports.{ports_by, ports_after};
ghost use Rattle.kme_node.specs.Holdings.{view};
ghost use Rattle.kme_node.specs.Replayed.{IsWhole, AreWhole};

use crate::Node;
use crate::step_memory::count_of;
use kme_base::Ports;
use kme_relay::Fronts;
use net_model::{Record, Records};
use qkd_base::Memory;

// Applies one record to the ends of links, and allocates the memory for it.
fn replay_record(ports: &mut Ports, change: &Record) -> Result<(), Memory>
    requires whole { IsWhole change.now }
    ensures ok { OnOk result (ports.new.ports ≡ ports_by change.now ports.old.ports) }
    ensures err { OnErr result (ports.new.ports ≡ ports.old.ports) }
{
    match change {
        Record::Block {
            link,
            number,
            bytes,
        } => {
            ports.room_block(*link)?;
            ports.take_block(*link, *number, bytes.as_slice());
        }
        Record::Lease { lane, end } => ports.raise_lease(*lane, *end),
        Record::Learned { .. } => {}
        Record::Acked { .. } => {}
        Record::Handed { .. } => {}
        Record::Closed { .. } => {}
        Record::Bare { .. } => {}
    }
    Ok(())
}

// Applies the records of a batch to the ends of links, in order.
fn replay_batch(ports: &mut Ports, batch: &[Record]) -> Result<(), Memory>
    requires whole { AreWhole batch.now }
    ensures lanes { map (λ (p : Port). p.lane) ports.new.ports ≡ map (λ (p : Port). p.lane) ports.old.ports }
    ensures ok { OnOk result (ports.new.ports ≡ ports_after batch.now ports.old.ports) }
{
    for change in batch {
        replay_record(ports, change)?;
    }
    Ok(())
}

impl Node {
    /// Applies a batch that was read from a journal. If memory runs out, some of its blocks and leases may be applied
    /// and nothing else, so the manager must not be used any more.
    pub fn replay(&mut self, batch: Records) -> Result<(), Memory>
        requires whole { AreWhole batch }
        ensures site { self.new.site ≡ self.old.site }
        ensures ok { OnOk result (view self.new ≡ view_batch (view self.old) batch) }
        ensures err { OnErr result (record (view self.new) { ports = (view self.old).ports } ≡ view self.old) }
    {
        let count = count_of(batch.len())?;
        self.kept.room(count)?;
        replay_batch(&mut self.ports, batch.as_slice())?;
        self.kept.apply(batch);
        Ok(())
    }

    /// Starts the manager: its window becomes empty, and each outgoing lane goes on at the end of its lease. It
    /// allocates nothing.
    pub fn restart(&mut self)
        ensures site { self.new.site ≡ self.old.site }
        ensures view { view self.new ≡ view_restarted (view self.old) }
    {
        self.window.clear();
        self.ports.restart();
        self.fronts = Fronts::new();
    }
}
