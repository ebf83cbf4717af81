// Rule 7, as to numbers: what a line still has to give.
ghost use Rattle.std.specs.Prelude.{◌≡◌, ℕ, List, [], ◌∷◌, if◌then◌else◌, ◌==◌, OnOk};
ghost use Rattle.std.specs.Option.{option_copied};
ghost use Rattle.run_types.specs.declared.scenario.Scenario.{Scenario as Lines};
ghost use Rattle.run_types.specs.declared.item.NumberedItem.{NumberedItem as Told};
ghost use Rattle.whole_audit.specs.Lines.{command_at};
ghost use Rattle.whole_audit.specs.Rests.{no_rest, blocks_asked, asked, asked_if, behind_took, behind_none, rounds_behind, behind_tick, behind_frame, behind, owes, owes_if};
ghost use Rattle.whole_audit.specs.Kept.{rest_at, AreRests};

use item_audit::{is_among, lane_place};
use qkd_base::{Lane, Memory, NodeNo};
use run_types::{Command, End, Ends, Item, NumberedItem};
use std::alloc::Global;
use std::collections::BTreeMap;

/// What a line still has to give, and where the frames of a settle stand.
#[derive(Clone, Copy)]
pub struct Rest {
    // Blocks of the ends of its link.
    pub low: u64,
    pub high: u64,
    // Ticks.
    pub ticks: u64,
    // Rounds of a settle.
    pub rounds: u64,
    // The first node that may tick next in this round.
    pub node: u64,
    // Whether the last tick tells of no frame, and not yet of what it lacks.
    pub lacks: bool,
    // Whether it may tell of what it lacks.
    pub shorts: bool,
    // Frames that it told of, and that weren't put on their wires.
    pub frames: u64,
    // The first frame that may be put next, or the first link that may be short: a link, and an offset there.
    pub link: u64,
    pub offset: u64,
    // Frames that were put on their wires, and didn't come to their receivers.
    pub waiting: u64,
    // Whether frames come.
    pub passing: bool,
    // The first frame that may come next: the place of its lane, and its number.
    pub lane: u64,
    pub number: u64,
}

/// What lines still have to give, by their numbers.
#[derive(Drop)]
pub struct Rests {
    lines: BTreeMap<[u64; 1], Rest>,
}

fn no_rest() -> Rest
    ensures { result ≡ no_rest }
{
    Rest {
        low: 0,
        high: 0,
        ticks: 0,
        rounds: 0,
        node: 0,
        lacks: false,
        shorts: false,
        frames: 0,
        link: 0,
        offset: 0,
        waiting: 0,
        passing: false,
        lane: 0,
        number: 0,
    }
}

// How many blocks an end is asked for.
fn blocks_asked(ends: Ends, end: End, count: u16) -> u64
    ensures { result ≡ blocks_asked ends end count }
{
    if is_among(ends, end) {
        u64::from(count)
    } else {
        0
    }
}

// What a line has to give before its first item.
fn asked(command: &Command) -> Rest
    ensures { result ≡ asked command.now }
{
    match command {
        Command::Bits { ends, count, .. } => Rest {
            low: blocks_asked(*ends, End::Low, *count),
            high: blocks_asked(*ends, End::High, *count),
            ..no_rest()
        },
        Command::Tick { .. } => Rest {
            ticks: 1,
            ..no_rest()
        },
        Command::Settle { rounds } => Rest {
            rounds: u64::from(*rounds),
            passing: true,
            ..no_rest()
        },
        _ => no_rest(),
    }
}

// What is to be given before the first item, given what the line asks for, if there is one.
fn asked_if(command: &Option<&Command>) -> Rest
    ensures { result ≡ asked_if (option_copied command.now) }
{
    match command {
        Some(command) => asked(command),
        None => no_rest(),
    }
}

// Behind a block that an end took.
fn behind_took(end: End, rest: &Rest) -> Rest
    ensures { result ≡ behind_took end rest.now }
{
    match end {
        End::Low => Rest {
            low: rest.low.saturating_sub(1),
            ..*rest
        },
        End::High => Rest {
            high: rest.high.saturating_sub(1),
            ..*rest
        },
    }
}

// Behind a block that an end didn't take.
fn behind_none(end: End, rest: &Rest) -> Rest
    ensures { result ≡ behind_none end rest.now }
{
    match end {
        End::Low => Rest { low: 0, ..*rest },
        End::High => Rest { high: 0, ..*rest },
    }
}

// How many rounds are left behind a tick.
fn rounds_behind(rest: &Rest) -> u64
    ensures { result ≡ rounds_behind rest.now }
{
    if rest.passing {
        rest.rounds.saturating_sub(1)
    } else {
        rest.rounds
    }
}

// Behind a tick of a node that tells of so many frames, or of none.
fn behind_tick(node: NodeNo, shorts: bool, lacks: bool, frames: u64, rest: &Rest) -> Rest
    ensures { result ≡ behind_tick node shorts lacks frames rest.now }
{
    Rest {
        ticks: rest.ticks.saturating_sub(1),
        rounds: rounds_behind(rest),
        node: u64::from(node.get()) + 1,
        lacks,
        shorts,
        frames,
        link: 0,
        offset: 0,
        passing: false,
        lane: 0,
        number: 0,
        ..*rest
    }
}

// Behind a frame that is put on its wire, or that the wire refuses.
fn behind_frame(lane: &Lane, offset: u64, rest: &Rest) -> Rest
    ensures { result ≡ behind_frame lane.now offset rest.now }
{
    Rest {
        frames: rest.frames.saturating_sub(1),
        shorts: false,
        link: u64::from(lane.link.get()),
        offset: offset.saturating_add(1),
        ..*rest
    }
}

/// What a line still has to give behind an item.
pub fn behind(item: &Item, rest: &Rest) -> Rest
    ensures { result ≡ behind item.now rest.now }
{
    match item {
        Item::Took { end, .. } => behind_took(*end, rest),
        Item::TookNone { end, .. } => behind_none(*end, rest),
        Item::Ticked { node, fresh, again } => {
            let frames = u64::from(*fresh) + u64::from(*again);
            behind_tick(*node, true, frames == 0, frames, rest)
        }
        Item::Idle { node } => behind_tick(*node, false, false, 0, rest),
        Item::NotTicked { node, .. } => behind_tick(*node, false, false, 0, rest),
        Item::Short { lane, .. } => Rest {
            lacks: false,
            link: u64::from(lane.link.get()) + 1,
            ..*rest
        },
        Item::Sent { lane, offset, .. } => Rest {
            waiting: rest.waiting.saturating_add(1),
            ..behind_frame(lane, *offset, rest)
        },
        Item::Unsent { lane, offset, .. } => behind_frame(lane, *offset, rest),
        Item::Passed { lane, number, .. } => Rest {
            waiting: rest.waiting.saturating_sub(1),
            shorts: false,
            passing: true,
            lane: lane_place(lane),
            number: u64::from(*number) + 1,
            ..*rest
        },
        _ => *rest,
    }
}

// Whether a line has to give more items.
fn owes(command: &Command, rest: &Rest) -> bool
    ensures { result ≡ owes command.now rest.now }
{
    match command {
        Command::Bits { .. } => 0 < rest.low || 0 < rest.high,
        Command::Tick { .. } => 0 < rest.ticks || 0 < rest.frames || rest.lacks,
        Command::Settle { .. } => 0 < rest.frames || 0 < rest.waiting || rest.lacks,
        _ => false,
    }
}

/// Whether more items are to be given, given what the line asks for, if there is one.
pub fn owes_if(command: &Option<&Command>, rest: &Rest) -> bool
    ensures { result ≡ owes_if (option_copied command.now) rest.now }
{
    match command {
        Some(command) => owes(command, rest),
        None => false,
    }
}

impl Rests {
    /// Before the first item. The call allocates nothing.
    pub fn new(alloc: Global) -> Self
        ensures { (s : Lines) → AreRests s result [] }
    {
        Rests {
            lines: BTreeMap::new(alloc),
        }
    }

    /// What the line with this number still has to give, given what it asks for.
    pub fn at(&self, number: u32, command: &Option<&Command>) -> Rest
        ensures { result ≡ rest_at self.now number (asked_if (option_copied command.now)) }
    {
        match self.lines.get(&[u64::from(number)]) {
            Some(rest) => *rest,
            None => asked_if(command),
        }
    }

    // Puts what a line has to give in place of the earlier rest.
    fn put(&mut self, number: u32, rest: Rest) -> Result<(), Memory>
        ensures { OnOk result ((n : ℕ) → rest_at self.new n ≡ (λ first. if number == n then rest else rest_at self.old n first)) }
    {
        self.lines.insert([u64::from(number)], rest)?;
        Ok(())
    }

    /// Adds an item, given what its line asks for. The only error is that memory runs out.
    pub fn learn(&mut self, command: &Option<&Command>, told: &NumberedItem) -> Result<(), Memory>
        ensures { (s : Lines) (before : List Told) → option_copied command.now ≡ command_at s told.now.number → AreRests s self.old before → OnOk result (AreRests s self.new (told.now ∷ before)) }
    {
        let rest = behind(&told.item, &self.at(told.number, command));
        self.put(told.number, rest)
    }
}
