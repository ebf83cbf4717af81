// The lines of a scenario, by number.
ghost use Rattle.std.specs.Prelude.{◌≡◌, List, ◌∷◌, ◌++◌, slice_get, Some, OnOk, IfOk};
ghost use Rattle.std.specs.List.{flat_map};
ghost use Rattle.std.specs.Option.{option_copied};
ghost use Rattle.run_types.specs.declared.line.Line.{Line as LineValue};
ghost use Rattle.run_types.specs.declared.entry.Entry.{Entry as EntryValue};
ghost use Rattle.run_types.specs.declared.entry.Entry.TheVariants as entries;
ghost use Rattle.whole_audit.specs.Lines.{lines_in, line_with, command_at};
ghost use Rattle.whole_audit.specs.Kept.{line_in, line_at, Adds, AreSpots};

use qkd_base::Memory;
use run_types::{Command, Entry, Line, Scenario};
use std::alloc::Global;
use std::collections::BTreeMap;

/// Where a line stands: the place of its entry, and its place in there.
#[derive(Clone, Copy)]
pub struct Spot {
    entry: usize,
    line: usize,
}

/// Where lines stand, by their numbers.
#[derive(Drop)]
pub struct Spots {
    by_number: BTreeMap<u32, Spot>,
}

// The line at a place in an entry.
fn line_in(entry: &Entry, place: usize) -> Option<&Line>
    ensures { option_copied result ≡ line_in entry.now place }
{
    match entry {
        Entry::Line(line) => { if place == 0 { Some(line) } else { None } }
        Entry::Block(lines) => lines.get(place),
    }
}

// The line at a spot.
fn line_at(entries: &[Entry], spot: Spot) -> Option<&Line>
    ensures { option_copied result ≡ line_at entries.now spot }
{
    match entries.get(spot.entry) {
        Some(entry) => line_in(entry, spot.line),
        None => None,
    }
}

// Adds a line, unless the table has one with its number.
fn add(spots: &mut BTreeMap<u32, Spot>, line: &Line, spot: Spot) -> Result<(), Memory>
    ensures { (es : List EntryValue) → line_at es spot ≡ Some line.now → OnOk result (Adds es spots.old spots.new (λ behind. line.now ∷ behind)) }
{
    if !spots.contains_key(&line.number) {
        spots.insert(line.number, spot)?;
    }
    Ok(())
}

// Adds the lines of a block in order.
fn add_lines(spots: &mut BTreeMap<u32, Spot>, entry: usize, lines: &[Line]) -> Result<(), Memory>
    ensures { (es : List EntryValue) → slice_get es entry ≡ Some (entries.Block lines.now) → OnOk result (Adds es spots.old spots.new (λ behind. lines.now ++ behind)) }
{
    for (place, line) in lines.iter().enumerate() {
        add(spots, line, Spot { entry, line: place })?;
    }
    Ok(())
}

// Adds the lines of an entry.
fn add_entry(spots: &mut BTreeMap<u32, Spot>, place: usize, entry: &Entry) -> Result<(), Memory>
    ensures { (es : List EntryValue) → slice_get es place ≡ Some entry.now → OnOk result (Adds es spots.old spots.new (λ behind. lines_in entry.now ++ behind)) }
{
    match entry {
        Entry::Line(line) => add(
            spots,
            line,
            Spot {
                entry: place,
                line: 0,
            },
        ),
        Entry::Block(lines) => add_lines(spots, place, lines.as_slice()),
    }
}

// Adds the lines of entries in order.
fn add_entries(spots: &mut BTreeMap<u32, Spot>, entries: &[Entry]) -> Result<(), Memory>
    ensures { OnOk result (Adds entries.now spots.old spots.new (λ behind. flat_map lines_in entries.now ++ behind)) }
{
    for (place, entry) in entries.iter().enumerate() {
        add_entry(spots, place, entry)?;
    }
    Ok(())
}

impl Spots {
    /// The spots of all lines of a scenario.
    pub fn new(alloc: Global, scenario: &Scenario) -> Result<Self, Memory>
        ensures { IfOk result (λ spots. AreSpots scenario.now spots) }
    {
        let mut by_number = BTreeMap::new(alloc);
        add_entries(&mut by_number, scenario.entries.as_slice())?;
        Ok(Spots { by_number })
    }

    // The line with this number.
    fn line<'a>(&self, scenario: &'a Scenario, number: u32) -> Option<&'a Line>
        ensures { AreSpots scenario.now self.now → option_copied result ≡ line_with number (flat_map lines_in scenario.now.entries) }
    {
        match self.by_number.get(&number) {
            Some(spot) => line_at(scenario.entries.as_slice(), *spot),
            None => None,
        }
    }

    /// What the line with this number asks for.
    pub fn command<'a>(&self, scenario: &'a Scenario, number: u32) -> Option<&'a Command>
        ensures { AreSpots scenario.now self.now → option_copied result ≡ command_at scenario.now number }
    {
        match self.line(scenario, number) {
            Some(line) => Some(&line.command),
            None => None,
        }
    }
}
