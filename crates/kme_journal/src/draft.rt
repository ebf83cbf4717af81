// A step, with all memory that it needs reserved.
ghost use Rattle.std.specs.Prelude.{◌≡◌, ◌<◌, ◌≤◌, ◌+◌, ℕ, Bool, List, Ok, IfOk, IfErr, OnOk, OnErr, nat_lt, length, replicate, true};
ghost use Rattle.std.specs.List.{All};
ghost use Rattle.declared_site.specs.SiteOf.{site_of};
ghost use Rattle.net_model.specs.Decide.{decide, random_need};
ghost use Rattle.net_model.specs.Events.{is_valid_event};
ghost use Rattle.net_model.specs.Journal.{journal_limit};
ghost use Rattle.hop_frames.specs.Sealing.{hop_sealing};
ghost use Rattle.journal_records.specs.Grammar.{IsLearned};
ghost use Rattle.journal_snapshot.specs.Snapshots.{journal_of};
ghost use Rattle.kme_base.specs.Up.{AreUp};
ghost use Rattle.kme_base.specs.Steps.{IsStep, placings_of};
ghost use Rattle.kme_base.specs.Random.{with_random};
ghost use Rattle.kme_node.specs.Holdings.{Holdings, view};
ghost use Rattle.kme_journal.specs.Spelled.{IsSpelling, IsBody, HasBody, IsAsLong, MayRespell, added};
ghost use Rattle.kme_journal.specs.Drafts.{HasSpare, HasPlace, IsPrepared, IsHeldBack, IsRoomier};

use crate::event_change::decided_over_zeros;
use crate::forms::are_learned;
use crate::spelled::{added, body_of};
use disk_model::Disk;
use journal_records::{respell, spelled_is_read};
use journal_snapshot::Snapshots;
use kme_base::Step;
use kme_keys::{law_fill_over_other_octets, law_group_fill_over_other_octets};
use kme_node::Node;
use kme_streams::law_feed_over_other_octets;
use net_model::{Event, Records, Reply};
use qkd_base::{Memory, Octets};
use range_journal::MOST_OCTETS;
use std::alloc::Global;

/// What an event changes, the octets of its batch, and zeros in place of the random octets that it draws.
#[derive(Drop)]
pub struct Draft {
    pub step: Step,
    pub body: Option<Octets>,
    pub random: Vec<u8>,
}

// The octets of a batch in a format version. A batch with drawn octets has only learned facts, so it can be written
// again in the same memory.
fn body_for(
    alloc: Global,
    batch: &Records,
    version: u8,
    draws: bool,
) -> Result<Option<Octets>, Memory>
    ensures body { IfOk result (IsBody version batch.now) }
    ensures learned { draws ≡ true → IfOk result (λ body. All IsLearned batch.now) }
{
    if draws && !are_learned(batch.as_slice()) {
        return Err(Memory);
    }
    body_of(alloc, batch, version)
}

// Whether `more` further octets exceed the limit of a journal.
fn is_past(length: u64, more: u64) -> bool
    ensures { result ≡ nat_lt journal_limit (length + more) }
{
    more > MOST_OCTETS || length > MOST_OCTETS - more
}

// Reserves memory in the journal for a body.
fn room<K: Disk>(journal: &mut Snapshots<K>, body: &Option<Octets>) -> Result<(), Memory>
    requires within { (journal_of journal.old).length' + added body.now ≤ journal_limit }
    ensures roomier { IsRoomier K.is_honest K.content K.moment K.image K.faults K.armings journal.old journal.new }
    ensures ok { OnOk result (HasSpare journal.new.spare body.now) }
{
    match body {
        None => Ok(()),
        Some(octets) => journal.room(octets.len() as u32),
    }
}

// Decides on an event, and reserves all memory that the change needs, except in the journal.
fn prepared(
    alloc: Global,
    node: &mut Node,
    event: &Event,
    up: u32,
    version: u8,
) -> Result<Draft, Reply>
    requires { is_valid_event (site_of node.old.site) (view node.old).me event.now ≡ true }
    ensures site { node.new.site ≡ node.old.site }
    ensures view { view node.new ≡ view node.old }
    ensures zeros { IfOk result (λ d. d.random.items ≡ replicate (random_need (view node.old) event.now) 0) }
    ensures step { (is_up : ℕ → Bool) → AreUp up is_up
        → IfOk result (λ d. IsStep (view node.old) (placings_of event.now) (decide (site_of node.old.site) hop_sealing is_up (view node.old) d.random.items event.now) (Ok d.step)) }
    ensures ready { IfOk result (λ d. IsPrepared node.new version (length d.random.items) d) }
    ensures refused { (is_up : ℕ → Bool) (random : List ℕ) → AreUp up is_up
        → IfErr result (λ reply. IsStep (view node.old) (placings_of event.now) (decide (site_of node.old.site) hop_sealing is_up (view node.old) random event.now) (Err reply)) }
{
    let (step, random) = decided_over_zeros(alloc, node, event, up)?;
    match node.reserve(&step) {
        Err(_) => return Err(Reply::Memory),
        Ok(()) => {}
    }
    match body_for(alloc, &step.batch, version, !random.is_empty()) {
        Err(_) => Err(Reply::Memory),
        Ok(body) => Ok(Draft { step, body, random }),
    }
}

impl Draft {
    /// Decides on an event, and reserves all memory that the change needs. An `Err` changes nothing but reserved
    /// memory.
    pub fn new<K: Disk>(
        alloc: Global,
        node: &mut Node,
        journal: &mut Snapshots<K>,
        event: &Event,
        up: u32,
    ) -> Result<Draft, Reply>
        requires { is_valid_event (site_of node.old.site) (view node.old).me event.now ≡ true }
        ensures site { node.new.site ≡ node.old.site }
        ensures view { view node.new ≡ view node.old }
        ensures journal { IsRoomier K.is_honest K.content K.moment K.image K.faults K.armings journal.old journal.new }
        ensures zeros { IfOk result (λ d. d.random.items ≡ replicate (random_need (view node.old) event.now) 0) }
        ensures step { (is_up : ℕ → Bool) → AreUp up is_up
            → IfOk result (λ d. IsStep (view node.old) (placings_of event.now) (decide (site_of node.old.site) hop_sealing is_up (view node.old) d.random.items event.now) (Ok d.step)) }
        ensures ready { IfOk result (λ d. IsPrepared node.new journal.new.live.version (length d.random.items) d) }
        ensures place { IfOk result (λ d. HasPlace journal.new d.body) }
        ensures refused { (is_up : ℕ → Bool) (random : List ℕ) → AreUp up is_up → length random ≡ random_need (view node.old) event.now
            → IfErr result (λ reply. IsHeldBack (journal_of journal.old) (decide (site_of node.old.site) hop_sealing is_up (view node.old) random event.now) reply) }
    {
        law_fill_over_other_octets();
        law_group_fill_over_other_octets();
        law_feed_over_other_octets();
        let draft = prepared(alloc, node, event, up, journal.version())?;
        let more = added(&draft.body);
        if is_past(journal.length(), more) {
            return Err(Reply::JournalFull {
                length: journal.length(),
                need: more,
            });
        }
        match room(journal, &draft.body) {
            Err(_) => Err(Reply::Memory),
            Ok(()) => Ok(draft),
        }
    }

    /// Puts the drawn octets in place of the zeros. It allocates nothing.
    pub fn put_random(&mut self, alloc: Global)
        requires spelled { HasBody self.old.step.batch self.old.body }
        requires learned { 0 < length self.old.random.items → All IsLearned self.old.step.batch }
        ensures random { self.new.random ≡ self.old.random }
        ensures step { self.new.step ≡ record self.old.step { batch = with_random self.old.random.items self.old.step.batch } }
        ensures added { added self.new.body ≡ added self.old.body }
        ensures spare { (spare : ℕ) → HasSpare spare self.old.body → HasSpare spare self.new.body }
        ensures body { (version : ℕ) → IsBody version self.old.step.batch self.old.body → IsBody version self.new.step.batch self.new.body }
    {
        if self.random.as_slice().is_empty() {
            return;
        }
        self.step.put_random(alloc, &self.random);
        respell_body(alloc, &self.step.batch, &mut self.body);
    }
}

// Writes a batch of learned facts again, over the same number of octets.
fn respell_body(alloc: Global, batch: &Records, body: &mut Option<Octets>)
    requires { MayRespell batch.now body.old }
    ensures added { added body.new ≡ added body.old }
    ensures spare { (spare : ℕ) → HasSpare spare body.old → HasSpare spare body.new }
    ensures body { (version : ℕ) → IsBody version batch.now body.new }
{
    match body {
        None => {}
        Some(octets) => respell_octets(alloc, batch, octets),
    }
}

// Writes a batch of learned facts again, over these octets.
fn respell_octets(alloc: Global, batch: &Records, octets: &mut Octets)
    requires { IsAsLong batch.now octets.old }
    ensures size { length octets.new ≡ length octets.old }
    ensures spelled { (version : ℕ) → IsSpelling version batch.now octets.new }
{
    spelled_is_read();
    respell(alloc, batch, octets);
}
