// Rule 7: the order of a report's items.
ghost use Rattle.std.specs.Prelude.{◌≡◌, ℕ, ◌==◌, OnOk, List, [], ◌∷◌, drop, None, Some, is_some, true, ◌+◌, nat_le, if◌then◌else◌, IfOk, MatchOption};
ghost use Rattle.std.specs.List.{list_all, list_any};
ghost use Rattle.run_types.specs.declared.scenario.Scenario.{Scenario as Lines};
ghost use Rattle.run_types.specs.declared.item.NumberedItem.{NumberedItem as Told};
ghost use Rattle.whole_audit.specs.Rests.{owes_behind};
ghost use Rattle.whole_audit.specs.Order.{gives_more, may_be_silent, takes_line, takes, line_is_over, is_over, left_behind, left, declares_node, rule_7, may_end};
ghost use Rattle.whole_audit.specs.Tracks.{begins_block, first_entry};
ghost use Rattle.whole_audit.specs.Kept.{number_entry, has_number, IsWalkOf};

use ordered_set::{Entries, Entry as Numbers};
use qkd_base::Memory;
use run_types::{Command, Entry, Line, NumberedItem, Scenario};
use std::alloc::Global;

/// A place in a scenario: all entries before it are over.
#[derive(Drop)]
pub struct Walk {
    place: usize,
    // The numbers of all items so far.
    came: Entries,
    // The numbers of the lines that have to give more.
    owing: Entries,
    // The least number that is above those of all items so far.
    next: u64,
}

/// The entry of a number in a set.
pub fn number_entry(number: u32) -> Numbers
    ensures { result ≡ number_entry number }
{
    [u64::from(number), 0, 0, 0, 0]
}

/// Whether a set has a number.
pub fn has_number(came: &Entries, number: u32) -> bool
    ensures { result ≡ has_number came.now number }
{
    came.has(number_entry(number))
}

// Whether a line may give more than one item.
fn gives_more(command: &Command) -> bool
    ensures { result ≡ gives_more command.now }
{
    matches!(
        command,
        Command::Bits { .. } | Command::Tick { .. } | Command::Settle { .. }
    )
}

// Whether a line may give no item.
fn may_be_silent(command: &Command) -> bool
    ensures { result ≡ may_be_silent command.now }
{
    matches!(command, Command::Settle { .. })
}

// Has the number in a set, or not.
fn set(numbers: &mut Entries, number: u32, is_in: bool) -> Result<(), Memory>
    ensures { OnOk result ((n : ℕ) → has_number numbers.new n ≡ (if number == n then is_in else has_number numbers.old n)) }
{
    if is_in {
        numbers.insert(number_entry(number))
    } else {
        numbers.remove(number_entry(number));
        Ok(())
    }
}

// Whether an item with this number may be the line's.
fn takes_line(came: &Entries, number: u32, line: &Line) -> bool
    ensures { result ≡ takes_line (has_number came.now) number line.now }
{
    line.number == number && (gives_more(&line.command) || !has_number(came, number))
}

// Whether an item with this number may be one of these lines'.
fn takes_in(came: &Entries, number: u32, lines: &[Line]) -> bool
    ensures { result ≡ list_any (takes_line (has_number came.now) number) lines.now }
{
    lines.iter().any(|line| takes_line(came, number, line))
}

// Whether an item with this number may be the entry's.
fn takes(came: &Entries, number: u32, entry: &Entry) -> bool
    ensures { result ≡ takes (has_number came.now) number entry.now }
{
    match entry {
        Entry::Line(line) => takes_line(came, number, line),
        Entry::Block(lines) => takes_in(came, number, lines.as_slice()),
    }
}

// Whether a line has an item, if it needs one, and has given all.
fn line_is_over(came: &Entries, owing: &Entries, line: &Line) -> bool
    ensures { result ≡ line_is_over (has_number came.now) (has_number owing.now) line.now }
{
    (may_be_silent(&line.command) || has_number(came, line.number))
        && !has_number(owing, line.number)
}

// Whether each of these lines is over.
fn are_all_over(came: &Entries, owing: &Entries, lines: &[Line]) -> bool
    ensures { result ≡ list_all (line_is_over (has_number came.now) (has_number owing.now)) lines.now }
{
    lines.iter().all(|line| line_is_over(came, owing, line))
}

// Whether all lines of an entry are over.
fn is_over(came: &Entries, owing: &Entries, entry: &Entry) -> bool
    ensures { result ≡ is_over (has_number came.now) (has_number owing.now) entry.now }
{
    match entry {
        Entry::Line(line) => line_is_over(came, owing, line),
        Entry::Block(lines) => are_all_over(came, owing, lines.as_slice()),
    }
}

// The place of the entry that takes an item with this number, if all before it are over.
fn taker(
    came: &Entries,
    owing: &Entries,
    number: u32,
    entries: &[Entry],
    from: usize,
) -> Option<usize>
    ensures { MatchOption result (left_behind (has_number came.now) (has_number owing.now) number (drop from entries.now) ≡ None) (λ place. left_behind (has_number came.now) (has_number owing.now) number (drop from entries.now) ≡ Some (drop place entries.now)) }
{
    for place in from..entries.len() {
        let entry = &entries[place];
        if takes(came, number, entry) {
            return Some(place);
        }
        if !is_over(came, owing, entry) {
            return None;
        }
    }
    None
}

// Whether an entry is a block.
fn is_block(entry: &Entry) -> bool
    ensures { result ≡ begins_block (Some entry.now) }
{
    match entry {
        Entry::Line(_) => false,
        Entry::Block(_) => true,
    }
}

// Whether all entries from this place on are over.
fn are_over(came: &Entries, owing: &Entries, entries: &[Entry], from: usize) -> bool
    ensures { result ≡ list_all (is_over (has_number came.now) (has_number owing.now)) (drop from entries.now) }
{
    for place in from..entries.len() {
        if !is_over(came, owing, &entries[place]) {
            return false;
        }
    }
    true
}

// Whether the line with this number declares a node.
fn declares_node(scenario: &Scenario, number: u32) -> bool
    ensures { result ≡ declares_node scenario.now number }
{
    scenario.node_lines.as_slice().iter().any(|n| *n == number)
}

// The least number that is above a further one, too.
fn above(next: u64, number: u32) -> u64
    ensures { result ≡ (if nat_le next number then number + 1 else next) }
{
    let number = u64::from(number);
    if next <= number { number + 1 } else { next }
}

impl Walk {
    /// The place before the first entry. The call allocates nothing.
    pub fn new(alloc: Global) -> Self
        ensures { (s : Lines) → IsWalkOf s result [] }
    {
        Walk {
            place: 0,
            came: Entries::new(alloc),
            owing: Entries::new(alloc),
            next: 0,
        }
    }

    // The place of the entry where an item with this number stands, if it stands in order.
    fn place_of(&self, scenario: &Scenario, number: u32) -> Option<usize>
        ensures { (told : Told) (before : List Told) → told.number ≡ number → IsWalkOf scenario.now self.now before → MatchOption result (left scenario.now (told ∷ before) ≡ None) (λ place. left scenario.now (told ∷ before) ≡ Some (drop place scenario.now.entries)) }
    {
        if declares_node(scenario, number) {
            if self.next <= u64::from(number) {
                Some(self.place)
            } else {
                None
            }
        } else {
            taker(
                &self.came,
                &self.owing,
                number,
                scenario.entries.as_slice(),
                self.place,
            )
        }
    }

    /// Adds an item, and returns whether it stands in order. `owes` says whether its line has to give more behind it. After
    /// an item that doesn't stand so, the walk must not be used again. The only error is that memory runs out.
    pub fn take(
        &mut self,
        scenario: &Scenario,
        told: &NumberedItem,
        owes: bool,
    ) -> Result<bool, Memory>
        ensures { (before : List Told) → owes ≡ owes_behind scenario.now before told.now → IsWalkOf scenario.now self.old before → IfOk result (λ fits. (fits ≡ rule_7 scenario.now before told.now) × (fits ≡ true → IsWalkOf scenario.now self.new (told.now ∷ before))) }
    {
        match self.place_of(scenario, told.number) {
            Some(place) => {
                self.came.insert(number_entry(told.number))?;
                set(&mut self.owing, told.number, owes)?;
                self.place = place;
                self.next = above(self.next, told.number);
                Ok(true)
            }
            None => Ok(false),
        }
    }

    /// Whether the last item stands in a block, if it stands in order.
    pub fn is_in_block(&self, scenario: &Scenario, stands: bool) -> bool
        ensures { (before : List Told) → stands ≡ is_some (left scenario.now before) → (stands ≡ true → IsWalkOf scenario.now self.now before) → result ≡ begins_block (first_entry (left scenario.now before)) }
    {
        if !stands {
            return false;
        }
        match scenario.entries.as_slice().get(self.place) {
            Some(entry) => is_block(entry),
            None => false,
        }
    }

    /// Whether all lines have what they need, so that the report may end.
    pub fn may_end(&self, scenario: &Scenario) -> bool
        ensures { (before : List Told) → IsWalkOf scenario.now self.now before → result ≡ may_end scenario.now before }
    {
        are_over(
            &self.came,
            &self.owing,
            scenario.entries.as_slice(),
            self.place,
        )
    }
}
