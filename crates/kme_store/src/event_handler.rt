// Handling events of a manager that is up.
ghost use Rattle.std.specs.Prelude.{◌≡◌, ◌≤◌, ℕ, Bool, IsTrue, IsSome, true};
ghost use Rattle.qkd_base.specs.Faults.{Rose};
ghost use Rattle.declared_site.specs.SiteOf.{site_of};
ghost use Rattle.net_model.specs.Events.{is_valid_event};
ghost use Rattle.kme_base.specs.Up.{AreUp};
ghost use Rattle.disk_model.specs.Images.{AtEachMoment};
ghost use Rattle.journal_snapshot.specs.Standing.{IsKept};
ghost use Rattle.kme_base.specs.Steps.{placings_of};
ghost use Rattle.kme_node.specs.Holdings.{view, Fits, HasRoom};
ghost use Rattle.kme_journal.specs.Drafts.{HasOctets, HasPlace, HoldsEither, with_octets};
ghost use Rattle.kme_store.specs.Manager.{Answers, HasDisk, WhereUp, WhereDown, IsTaken, IsToldBy};

use crate::Standing;
use crate::random_octets::draw;
use disk_model::Disk;
use journal_snapshot::Snapshots;
use kme_journal::{Draft, write};
use kme_keys::{law_fill_over_other_octets, law_group_fill_over_other_octets};
use kme_node::{Node, law_drawn_steps_apply};
use kme_streams::law_feed_over_other_octets;
use law_recovery::law_effect_is_given_back;
use net_model::{Event, Reply};
use source_devices::Entropy;
use std::alloc::Global;

// Writes a draft to the disk, and only then applies it to the manager.
fn finish<K: Disk>(
    node: &mut Node,
    journal: Snapshots<K>,
    event: &Event,
    draft: Draft,
) -> (Standing<K>, Reply)
    requires fits { Fits node.old draft.step }
    requires room { HasRoom node.old draft.step }
    requires some { HasOctets draft.body }
    requires place { HasPlace journal draft.body }
    ensures site { node.new.site ≡ node.old.site }
    ensures moments { HasDisk (λ disk. AtEachMoment K.moment K.image journal.disk disk (λ i. IsTrue (K.is_honest journal.disk) → HoldsEither journal draft.body i)) result.0 }
    ensures up { WhereUp (λ j. (j.live ≡ journal.live) × (j.batches ≡ with_octets journal.batches draft.body)) result.0 }
    ensures taken { WhereUp (λ j. IsTaken (view node.old) (placings_of event.now) draft.step (view node.new) result.1) result.0 }
    ensures down { WhereDown (λ disk. (result.1 ≡ Reply.Stopped) × IsSome draft.body × Rose (K.faults journal.disk) (K.faults disk)) result.0 }
    ensures left { WhereDown (λ disk. view node.new ≡ view node.old) result.0 }
    ensures kept { WhereUp (λ j. IsTrue (K.is_honest j.disk) → IsKept j.live j.batches (K.content j.disk) (K.image j.disk (K.moment j.disk))) result.0 }
    ensures same { HasDisk (λ disk. (K.is_honest disk ≡ K.is_honest journal.disk) × (K.armings disk ≡ K.armings journal.disk)) result.0 }
    ensures later { HasDisk (λ disk. K.faults journal.disk ≤ K.faults disk) result.0 }
    ensures calm { WhereUp (λ j. K.faults j.disk ≡ K.faults journal.disk) result.0 }
    ensures used { WhereDown (λ disk. (K.allowance disk).used ≤ 12) result.0 }
{
    let Draft { step, body, .. } = draft;
    match write(journal, body) {
        Err(disk) => (Standing::Down(disk), Reply::Stopped),
        Ok(journal) => {
            let reply = node.apply(event, step);
            (Standing::Up(journal), reply)
        }
    }
}

/// Handles an event, in this order: it decides, reserves all memory, draws the random octets, writes to the disk, and
/// then changes the manager.
pub fn handle<K: Disk, E: Entropy>(
    alloc: Global,
    node: &mut Node,
    mut journal: Snapshots<K>,
    entropy: &mut E,
    event: &Event,
    up: u32,
) -> (Standing<K>, Reply)
    requires { is_valid_event (site_of node.old.site) (view node.old).me event.now ≡ true }
    ensures site { node.new.site ≡ node.old.site }
    ensures answers { (is_up : ℕ → Bool) → AreUp up is_up
        → Answers K.Disk E.Entropy is_up event.now
        (record { site = node.old.site; view = view node.old; standing = Standing.Up journal; entropy = entropy.old }) journal
        (record { site = node.new.site; view = view node.new; standing = result.0; entropy = entropy.new }) result.1 }
    ensures kept { WhereUp (λ j. IsTrue (K.is_honest j.disk) → IsKept j.live j.batches (K.content j.disk) (K.image j.disk (K.moment j.disk))) result.0 }
    ensures same { HasDisk (λ disk. (K.is_honest disk ≡ K.is_honest journal.disk) × (K.armings disk ≡ K.armings journal.disk)) result.0 }
    ensures later { HasDisk (λ disk. K.faults journal.disk ≤ K.faults disk) result.0 }
    ensures drawn_later { E.faults entropy.old ≤ E.faults entropy.new }
    ensures used { WhereDown (λ disk. (K.allowance disk).used ≤ 12) result.0 }
    ensures told { IsToldBy node.old.site (view node.old) (Standing.Up journal) → IsToldBy node.new.site (view node.new) result.0 }
{
    journal.stands();
    law_effect_is_given_back();
    law_fill_over_other_octets();
    law_group_fill_over_other_octets();
    law_feed_over_other_octets();
    law_drawn_steps_apply();
    let mut draft = match Draft::new(alloc, node, &mut journal, event, up) {
        Err(reply) => return (Standing::Up(journal), reply),
        Ok(draft) => draft,
    };
    match draw(entropy, &mut draft.random) {
        Err(_) => return (Standing::Up(journal), Reply::NoRandom),
        Ok(()) => {}
    }
    draft.put_random(alloc);
    finish(node, journal, event, draft)
}
