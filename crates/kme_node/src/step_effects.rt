// How a step changes a manager.
ghost use Rattle.std.specs.Prelude.{◌≡◌, ◌∷◌, [], List, map};
ghost use Rattle.net_model.specs.declared.record.Record.{Record as RecordValue};
ghost use Rattle.net_model.specs.Decision.{Effect};
ghost use Rattle.net_model.specs.Fold.{view_after, on_lane};
ghost use Rattle.net_model.specs.Window.{complete, complete_one};
ghost use Rattle.net_model.specs.World.{needs};
ghost use Rattle.kme_base.specs.declared.change.Change.TheVariants as changes;
ghost use Rattle.kme_base.specs.Steps.{IsEffect, changed, orders_of, placings_of, planned_by};
ghost use Rattle.kme_base.specs.Places.{with_planned};
ghost use Rattle.kme_node.specs.Ports.{ports_by, ports_after};
ghost use Rattle.kme_node.specs.Holdings.{Holdings, view, Fits, HasRoom, HasBatchRoom, HasBlocksAlone, HasOrdersWithin, HasWindowRoom};

use crate::Node;
use kme_base::{Change, Ports, Step};
use net_model::{Event, Placing, Record, Reply};
use relay_core::Known;
use resend_window::Window;

// Notes one placing. Whether its fact is acknowledged is looked up in `known`.
fn note_one(window: &mut Window, known: &Known, placing: &Placing)
    ensures { window.new.volatile ≡ complete_one known.now.acked window.old.volatile placing.now }
{
    let is_acked = placing.ack_of.is_none() && known.is_acknowledged(placing.name);
    window.completed(placing, is_acked);
}

// Notes placings in order.
fn note_all(window: &mut Window, known: &Known, placings: &[Placing])
    ensures { window.new.volatile ≡ complete known.now.acked window.old.volatile placings.now }
{
    for placing in placings {
        note_one(window, known, placing);
    }
}

// Notes the placings of an event, if it has any.
fn note_event(window: &mut Window, known: &Known, event: &Event)
    ensures { window.new.volatile ≡ complete known.now.acked window.old.volatile (placings_of event.now) }
{
    match event {
        Event::Note { placings } => note_all(window, known, placings.as_slice()),
        _ => {}
    }
}

// Records in the window that the orders and repeats of a plan are on their way.
fn plan_window(window: &mut Window, reply: &Reply)
    requires room { HasWindowRoom window.old changes.Planned reply.now }
    ensures { window.new.volatile ≡ planned_by reply.now window.old.volatile }
{
    match reply {
        Reply::Planned {
            orders,
            repeats,
            ..
        } => window.planned(orders.as_slice(), repeats.as_slice()),
        _ => {}
    }
}

// Changes the window as a step says. `known` has what was acknowledged before the step.
fn change_window(window: &mut Window, known: &Known, event: &Event, step: &Step)
    requires room { HasWindowRoom window.old step.now.change step.now.reply }
    ensures { window.new.volatile ≡ changed known.now.acked (placings_of event.now) step.now.reply step.now.change window.old.volatile }
{
    match step.change {
        Change::Same => {}
        Change::Received { lane, offset, name } => window.received(lane, offset, name),
        Change::Acknowledged { lane, name } => window.acknowledged(lane, name),
        Change::Planned => plan_window(window, &step.reply),
        Change::Noted => note_event(window, known, event),
    }
}

// Applies one record to the ends of links. If it is a block, it is the last record of its batch.
fn take_record(ports: &mut Ports, change: &Record)
    requires fits { HasBlocksAlone (change.now ∷ []) }
    requires room { HasBatchRoom ports.old (change.now ∷ []) }
    ensures ports { ports.new.ports ≡ ports_by change.now ports.old.ports }
    ensures rest { (rs : List RecordValue) → HasBlocksAlone (change.now ∷ rs) → HasBatchRoom ports.old (change.now ∷ rs) → HasBatchRoom ports.new rs }
{
    match change {
        Record::Block {
            link,
            number,
            bytes,
        } => ports.take_block(*link, *number, bytes.as_slice()),
        Record::Lease { lane, end } => ports.raise_lease(*lane, *end),
        Record::Learned { .. } => {}
        Record::Acked { .. } => {}
        Record::Handed { .. } => {}
        Record::Closed { .. } => {}
        Record::Bare { .. } => {}
    }
}

// Applies the records of a batch to the ends of links, in order.
fn take_batch(ports: &mut Ports, batch: &[Record])
    requires fits { HasBlocksAlone batch.now }
    requires room { HasBatchRoom ports.old batch.now }
    ensures { ports.new.ports ≡ ports_after batch.now ports.old.ports }
{
    for change in batch {
        take_record(ports, change);
    }
}

// Counts the bytes of a reply's orders as planned.
fn plan_reply(ports: &mut Ports, reply: &Reply)
    ensures { (h : Holdings) → h.ends.ports ≡ ports.old.ports → HasOrdersWithin h reply.now
        → ports.new.ports ≡ map (λ p. with_planned (needs h.kept.ends.known.facts (on_lane p.lane (orders_of reply.now))) p) ports.old.ports }
{
    match reply {
        Reply::Planned { orders, .. } => ports.plan_orders(orders.as_slice()),
        _ => {}
    }
}

impl Node {
    /// Applies a step: its batch, its change of the window, and the bytes that its orders plan. It needs only the
    /// memory that was reserved.
    pub fn apply(&mut self, event: &Event, step: Step) -> Reply
        requires fits { Fits self.old step }
        requires room { HasRoom self.old step }
        ensures reply { result ≡ step.reply }
        ensures site { self.new.site ≡ self.old.site }
        ensures view { (e : Effect) → IsEffect (view self.old) (placings_of event.now) e step → view self.new ≡ view_after (view self.old) e }
    {
        // The placings are noted first, since they depend on what was acknowledged before the step.
        let known = self.kept.streams().ends().known();
        change_window(&mut self.window, known, event, &step);
        take_batch(&mut self.ports, step.batch.as_slice());
        plan_reply(&mut self.ports, &step.reply);
        let Step {
            batch,
            reply,
            change,
        } = step;
        self.kept.apply(batch);
        let known = self.kept.streams().ends().known();
        self.fronts.follow(
            &self.site,
            known,
            &self.window,
            self.ports.as_slice(),
            &change,
        );
        reply
    }
}
