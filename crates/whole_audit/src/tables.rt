// What the items so far said, as tables, and the rules that look at these.
ghost use Rattle.std.specs.Prelude.{◌≡◌, List, [], ◌∷◌, IfOk, OnOk};
ghost use Rattle.run_types.specs.declared.item.NumberedItem.{NumberedItem as Told};
ghost use Rattle.whole_audit.specs.Order.{rule_7};
ghost use Rattle.whole_audit.specs.Rests.{owes_behind};
ghost use Rattle.whole_audit.specs.Claims.{is_up, link_set, may_use, rule_10};
ghost use Rattle.whole_audit.specs.Sums.{rule_11};
ghost use Rattle.whole_audit.specs.Shorts.{rule_17};
ghost use Rattle.whole_audit.specs.Tracks.{in_block, has_no_gap};
ghost use Rattle.whole_audit.specs.Whole.{findings};
ghost use Rattle.whole_audit.specs.Kept.{number_entry, AreSpots, AreCounted, AreDown, AreStarted, AreTracks, AreTablesOf};

use crate::arrivals::Arrivals;
use crate::blocks::Counts;
use crate::findings::Findings;
use crate::frames::Frames;
use crate::handings::Handings;
use crate::knowledge::Knowledge;
use crate::lines::Spots;
use crate::managers::{burns, is_so, learn_manager, learn_start, learn_stop, was_started_at};
use crate::names::Names;
use crate::order::number_entry;
use crate::pools::Pools;
use crate::rests::{Rests, behind, owes_if};
use crate::tracks::{Tracks, frame_lane};
use crate::turns::{gives_if, is_in_turn};
use item_audit::{asked_at, change_if, given_if, ready_if, said_in};
use ordered_set::{Entries, Entry as Numbers};
use qkd_base::{Lane, LinkNo, Memory};
use run_types::{Item, NumberedItem, Scenario};
use std::alloc::Global;

/// What the items so far said.
#[derive(Drop)]
pub struct Tables {
    spots: Spots,
    counts: Counts,
    // The links that are down.
    down: Entries,
    // The nodes whose managers are down.
    down_nodes: Entries,
    // The nodes whose managers were started.
    started: Entries,
    // The nodes whose managers stopped in something that they were asked.
    stopped: Entries,
    names: Names,
    rests: Rests,
    tracks: Tracks,
    knowledge: Knowledge,
    frames: Frames,
    pools: Pools,
    handings: Handings,
    arrivals: Arrivals,
}

// The entry of a link in a set.
fn link_entry(link: LinkNo) -> Numbers
    ensures { result ≡ number_entry link }
{
    number_entry(u32::from(link.get()))
}

// Whether a link is up.
fn is_up(down: &Entries, link: LinkNo) -> bool
    ensures { (before : List Told) → AreDown down.now before → result ≡ is_up link before }
{
    !down.has(link_entry(link))
}

// The link that an item sets up or down, and whether it is up behind it.
fn link_set(item: &Item) -> Option<(LinkNo, bool)>
    ensures { result ≡ link_set item.now }
{
    match item {
        Item::LinkSet { link, up } => Some((*link, *up)),
        _ => None,
    }
}

// Adds what an item says of a link.
fn learn_link(down: &mut Entries, item: &Item) -> Result<(), Memory>
    ensures { (told : Told) (before : List Told) → told.item ≡ item.now → AreDown down.old before → OnOk result (AreDown down.new (told ∷ before)) }
{
    match link_set(item) {
        Some((link, true)) => {
            down.remove(link_entry(link));
            Ok(())
        }
        Some((link, false)) => down.insert(link_entry(link)),
        None => Ok(()),
    }
}

impl Tables {
    /// Before the first item. The only error is that memory runs out.
    pub fn new(alloc: Global, scenario: &Scenario) -> Result<Self, Memory>
        ensures { IfOk result (λ tables. AreTablesOf scenario.now tables []) }
    {
        Ok(Tables {
            spots: Spots::new(alloc, scenario)?,
            counts: Counts::new(alloc),
            down: Entries::new(alloc),
            down_nodes: Entries::new(alloc),
            started: Entries::new(alloc),
            stopped: Entries::new(alloc),
            names: Names::new(alloc),
            rests: Rests::new(alloc),
            tracks: Tracks::new(alloc),
            knowledge: Knowledge::new(alloc),
            frames: Frames::new(alloc),
            pools: Pools::new(alloc),
            handings: Handings::new(alloc),
            arrivals: Arrivals::new(alloc),
        })
    }

    // Whether the first `to` bytes of a lane may be used.
    fn may_use(&self, lane: &Lane, to: u128) -> bool
        ensures { (before : List Told) → AreCounted self.now.counts before → AreDown self.now.down before → result ≡ may_use lane.now to before }
    {
        is_up(&self.down, lane.link) && self.counts.may_reach(lane, to)
    }

    // Whether a frame leaves over a link that is up, and uses received bytes.
    fn claims(&self, item: &Item) -> bool
        ensures { (before : List Told) → AreCounted self.now.counts before → AreDown self.now.down before → result ≡ rule_10 before item.now }
    {
        match item {
            Item::Sent {
                lane,
                offset,
                length,
                ..
            } => self.may_use(lane, u128::from(*offset) + u128::from(*length) + 8),
            Item::Unsent { lane, offset, .. } => self.may_use(lane, u128::from(*offset) + 25),
            _ => true,
        }
    }

    // Whether a frame leaves no gap behind those before it.
    fn has_no_gap(&self, scenario: &Scenario, item: &Item, inside: bool) -> bool
        ensures { (told : Told) (before : List Told) → told.item ≡ item.now → inside ≡ in_block scenario.now before told → AreStarted scenario.now self.now.started before → AreTracks self.now.tracks before → result ≡ has_no_gap scenario.now before told }
    {
        inside
            || was_started_at(&self.started, &scenario.site, &frame_lane(item))
            || self.tracks.reaches(item)
    }

    // Whether a ledger's received bytes are what blocks brought.
    fn sums(&self, item: &Item) -> bool
        ensures { (before : List Told) → AreCounted self.now.counts before → AreTracks self.now.tracks before → result ≡ rule_11 before item.now }
    {
        match item {
            Item::Counted { lane, counts } => {
                self.counts.may_have_received(lane, counts.received)
                    && self.tracks.leaves(lane, counts.unused, counts.received)
            }
            _ => true,
        }
    }

    // Whether what a lane is said to lack passes what it has.
    fn falls_short(&self, item: &Item) -> bool
        ensures { (before : List Told) → AreCounted self.now.counts before → AreDown self.now.down before → AreTracks self.now.tracks before → result ≡ rule_17 before item.now }
    {
        match item {
            Item::Short {
                lane,
                used,
                need,
                received,
            } => {
                is_up(&self.down, lane.link)
                    && self.counts.may_have_received(lane, *received)
                    && u128::from(*received) < u128::from(*used) + u128::from(*need)
                    && 25 <= *need
                    && *need <= 569
                    && self.tracks.has_used(lane, *used, *received)
            }
            _ => true,
        }
    }

    /// Whether the line of an item has to give more behind it.
    pub fn owes(&self, scenario: &Scenario, told: &NumberedItem) -> bool
        ensures { (before : List Told) → AreTablesOf scenario.now self.now before → result ≡ owes_behind scenario.now before told.now }
    {
        let command = self.spots.command(scenario, told.number);
        let rest = self.rests.at(told.number, &command);
        owes_if(&command, &behind(&told.item, &rest))
    }

    /// Which rules an item keeps. `stands` says whether it stands in order, and `inside` whether that is in a block.
    pub fn findings(
        &self,
        scenario: &Scenario,
        told: &NumberedItem,
        stands: bool,
        inside: bool,
    ) -> Findings
        ensures { (before : List Told) → AreTablesOf scenario.now self.now before → stands ≡ rule_7 scenario.now before told.now → inside ≡ in_block scenario.now before told.now → result ≡ findings scenario.now before told.now }
    {
        let item = &told.item;
        let command = self.spots.command(scenario, told.number);
        let rest = self.rests.at(told.number, &command);
        Findings {
            order: stands,
            gives: gives_if(&scenario.site, &command, item, &rest),
            turns: is_in_turn(inside, item, &rest),
            managers: is_so(
                &self.down_nodes,
                &said_in(scenario, &command, told.number, item),
            ),
            blocks: self.counts.fits(item),
            claims: self.claims(item),
            gaps: self.has_no_gap(scenario, item, inside),
            comes: self.tracks.comes(item),
            lacks: self.counts.lacks_bytes(item),
            known: self
                .knowledge
                .is_known(&self.arrivals, &self.stopped, &scenario.site, item),
            whole: self.frames.fit(&self.counts, item),
            given: self.handings.fit_shown(&self.stopped, item),
            refused: self.handings.fit_refusal(&self.stopped, &command, item),
            stocks: self.pools.have(&ready_if(&command, item)),
            sums: self.sums(item),
            burns: burns(&self.started, &scenario.site, item),
            names: self.names.follow(&given_if(&scenario.site, &command, item)),
            handed: self.names.gave_keys(item),
            heard: self.names.gave_frame(item),
            shown: self.names.gave_shown(item),
            shorts: self.falls_short(item),
            asked: asked_at(&scenario.site, &command, item),
        }
    }

    /// Adds an item. The only error is that memory runs out.
    pub fn learn(&mut self, scenario: &Scenario, told: &NumberedItem) -> Result<(), Memory>
        ensures { (before : List Told) → AreTablesOf scenario.now self.old before → OnOk result (AreTablesOf scenario.now self.new (told.now ∷ before)) }
    {
        let item = &told.item;
        let command = self.spots.command(scenario, told.number);
        let said = said_in(scenario, &command, told.number, item);
        let given = given_if(&scenario.site, &command, item);
        self.counts.learn(item)?;
        learn_link(&mut self.down, item)?;
        learn_manager(&mut self.down_nodes, &said)?;
        learn_start(&mut self.started, &said)?;
        learn_stop(&mut self.stopped, item, &said)?;
        self.rests.learn(&command, told)?;
        self.tracks.learn(item)?;
        self.knowledge.learn(&scenario.site, item)?;
        self.frames.learn(item)?;
        self.handings.learn(&command, item)?;
        self.arrivals.learn(item)?;
        self.pools.learn(&change_if(&command, item))?;
        self.names.learn(&given)
    }
}
