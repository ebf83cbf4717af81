// The decision on any event.
ghost use Rattle.std.specs.Prelude.{◌≡◌, ℕ, Bool, true, IfOk};
ghost use Rattle.declared_site.specs.SiteOf.{site_of};
ghost use Rattle.kme_base.specs.Up.{AreUp};
ghost use Rattle.kme_base.specs.Steps.{IsStep, placings_of};
ghost use Rattle.net_model.specs.Decide.{decide};
ghost use Rattle.net_model.specs.Events.{is_valid_event};
ghost use Rattle.net_model.specs.Sealing.{Sealing};
ghost use Rattle.kme_node.specs.Holdings.{view, IsPlain, Fits};

use crate::Node;
use kme_base::Step;
use kme_keys::GroupPool;
use kme_relay::note;
use net_model::{Event, Reply};
use qkd_base::PoolNo;
use std::alloc::Global;

impl Node {
    /// What the manager decides on an event. The result is a refusal, or a step: its durable changes, its answer, and
    /// its change of the window. If the decision is a refusal, it never fails for lack of memory. `random` has the
    /// octets that the event draws. Bit l of `up` says that link l is up. A frame isn't decided here: it must be
    /// opened first, and then goes to `heard`.
    pub fn step(&self, alloc: Global, event: &Event, random: &[u8], up: u32) -> Result<Step, Reply>
        requires plain { IsPlain event.now }
        requires valid { is_valid_event (site_of self.now.site) (view self.now).me event.now ≡ true }
        ensures step { (frames : Sealing) (is_up : ℕ → Bool) → AreUp up is_up
            → IsStep (view self.now) (placings_of event.now) (decide (site_of self.now.site) frames is_up (view self.now) random.now event.now) result }

        // The step fits the manager, so it may be applied.
        ensures fits { IfOk result (Fits self.now) }
    {
        match event {
            Event::Block {
                link,
                number,
                bytes,
            } => self.block(alloc, *link, *number, bytes.as_slice()),
            Event::Fill {
                master,
                slave,
                bits,
                count,
            } => {
                let pool = PoolNo {
                    master: *master,
                    slave: *slave,
                    bits: *bits,
                };
                self.fill(alloc, &pool, *count, random, up)
            }
            Event::Feed { stream, count } => self.feed(alloc, *stream, *count, random, up),
            Event::Plan => self.plan(alloc, up),
            Event::Heard { .. } => unreachable!(),
            Event::Enc {
                master,
                slave,
                number,
                bits,
            } => {
                let pool = PoolNo {
                    master: *master,
                    slave: *slave,
                    bits: *bits,
                };
                self.enc(alloc, &pool, *number)
            }
            Event::Dec {
                slave,
                master,
                names,
            } => self.dec(alloc, *slave, *master, names.as_slice()),
            Event::Status { master, slave } => self.status(alloc, *master, *slave),
            Event::Open { source, peer, bits } => self.open(alloc, *source, *peer, *bits, up),
            Event::Join {
                caller,
                other,
                stream,
                bits,
            } => self.join(alloc, *caller, *other, *stream, *bits),
            Event::Get {
                caller,
                stream,
                index,
            } => self.get(alloc, *caller, *stream, *index),
            Event::Close { caller, stream } => self.close(alloc, *caller, *stream),
            Event::Show { name } => self.show(alloc, *name),
            Event::Ledger { lane } => Ok(self.ledger(alloc, *lane)),
            Event::FillGroup {
                master,
                slaves,
                bits,
                count,
            } => {
                let pool = GroupPool {
                    master: *master,
                    slaves: slaves.as_slice(),
                    bits: *bits,
                };
                self.fill_group(alloc, &pool, *count, random, up)
            }
            Event::EncGroup {
                master,
                slaves,
                number,
                bits,
            } => {
                let pool = GroupPool {
                    master: *master,
                    slaves: slaves.as_slice(),
                    bits: *bits,
                };
                self.enc_group(alloc, &pool, *number)
            }
            Event::Note { .. } => Ok(note(alloc)),
        }
    }
}
