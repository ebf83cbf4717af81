// What each line of a scenario asks for, by the line's number.
ghost use Rattle.std.specs.Prelude.{◌≡◌, ℕ, ◌∷◌, ◌++◌, map, OnOk, IfOk};
ghost use Rattle.std.specs.List.{flat_map};
ghost use Rattle.std.specs.Ordering.{nat_cmp};
ghost use Rattle.std.specs.BTreeMap.{get};
ghost use Rattle.run_audit.specs.Kinds.{kind_of_call, kind_of, kind_of_line, kinds_of, kind_at};
ghost use Rattle.run_audit.specs.Kept.{Adds};

use crate::line_kind::LineKind;
use qkd_base::Memory;
use run_types::{Command, Entry, Line, Scenario, StreamCall};
use std::alloc::Global;
use std::collections::BTreeMap;

/// What lines ask for, by their numbers.
pub type Kinds = BTreeMap<u32, LineKind>;

// What a stream call asks for.
fn kind_of_call(call: &StreamCall) -> LineKind
    ensures { result ≡ kind_of_call call.now }
{
    match call {
        StreamCall::Open { .. } => LineKind::Opening,
        StreamCall::Join { .. } => LineKind::Joining,
        StreamCall::Get { caller, stream, .. } => LineKind::Getting {
            caller: *caller,
            stream: *stream,
        },
        StreamCall::Close { .. } => LineKind::Closing,
    }
}

// What a command asks for.
fn kind_of(command: &Command) -> LineKind
    ensures { result ≡ kind_of command.now }
{
    match command {
        Command::Bits { .. } => LineKind::Bits,
        Command::Fill { .. } | Command::FillGroup { .. } | Command::Feed { .. } => LineKind::Making,
        Command::Tick { .. } => LineKind::Tick,
        Command::Settle { .. } => LineKind::Settle,
        Command::Pass { .. } => LineKind::Pass,
        Command::Flip { .. } => LineKind::Flip,
        Command::Forge { .. } => LineKind::Forge,
        Command::Crash { .. } => LineKind::Crash,
        Command::Start { .. } => LineKind::Start,
        Command::Cut { .. } | Command::Fail { .. } => LineKind::Arming,
        Command::LinkUp { .. } | Command::LinkDown { .. } => LineKind::LinkSetting,
        Command::Enc { master, .. } | Command::EncGroup { master, .. } => LineKind::Handing {
            caller: *master,
            master: *master,
        },
        Command::Dec { slave, master, .. } => LineKind::Handing {
            caller: *slave,
            master: *master,
        },
        Command::Status { .. } => LineKind::Status,
        Command::Http { .. } => LineKind::Http,
        Command::Stream { call, .. } => kind_of_call(call),
        Command::Show { .. } => LineKind::Show,
        Command::Ledger { .. } => LineKind::Ledger,
    }
}

// Adds the kind of the line with this number, unless the table has one.
fn add(kinds: &mut Kinds, number: u32, kind: LineKind) -> Result<(), Memory>
    ensures { OnOk result (Adds kinds.old kinds.new (λ behind. (number, kind) ∷ behind)) }
{
    if !kinds.contains_key(&number) {
        kinds.insert(number, kind)?;
    }
    Ok(())
}

// Adds a line, unless the table has one with its number.
fn add_line(kinds: &mut Kinds, line: &Line) -> Result<(), Memory>
    ensures { OnOk result (Adds kinds.old kinds.new (λ behind. kind_of_line line.now ∷ behind)) }
{
    add(kinds, line.number, kind_of(&line.command))
}

// Adds lines in order.
fn add_lines(kinds: &mut Kinds, lines: &[Line]) -> Result<(), Memory>
    ensures { OnOk result (Adds kinds.old kinds.new (λ behind. map kind_of_line lines.now ++ behind)) }
{
    for line in lines {
        add_line(kinds, line)?;
    }
    Ok(())
}

// Adds the lines of an entry.
fn add_entry(kinds: &mut Kinds, entry: &Entry) -> Result<(), Memory>
    ensures { OnOk result (Adds kinds.old kinds.new (λ behind. kinds_of entry.now ++ behind)) }
{
    match entry {
        Entry::Line(line) => add_line(kinds, line),
        Entry::Block(lines) => add_lines(kinds, lines.as_slice()),
    }
}

// Adds the lines of entries in order.
fn add_entries(kinds: &mut Kinds, entries: &[Entry]) -> Result<(), Memory>
    ensures { OnOk result (Adds kinds.old kinds.new (λ behind. flat_map kinds_of entries.now ++ behind)) }
{
    for entry in entries {
        add_entry(kinds, entry)?;
    }
    Ok(())
}

// Adds the lines that declare nodes.
fn add_nodes(kinds: &mut Kinds, numbers: &[u32]) -> Result<(), Memory>
    ensures { OnOk result (Adds kinds.old kinds.new (λ behind. map (λ n. (n, LineKind.Node)) numbers.now ++ behind)) }
{
    for number in numbers {
        add(kinds, *number, LineKind::Node)?;
    }
    Ok(())
}

/// What all lines of a scenario ask for.
pub fn kinds_in(alloc: Global, scenario: &Scenario) -> Result<Kinds, Memory>
    ensures { IfOk result (λ kinds. (number : ℕ) → get nat_cmp kinds number ≡ kind_at scenario.now number) }
{
    let mut kinds = BTreeMap::new(alloc);
    add_nodes(&mut kinds, scenario.node_lines.as_slice())?;
    add_entries(&mut kinds, scenario.entries.as_slice())?;
    Ok(kinds)
}

/// What the line with this number asks for, if there is one.
pub fn kind_at(kinds: &Kinds, number: u32) -> Option<LineKind>
    ensures { result ≡ get nat_cmp kinds.now number }
{
    kinds.get(&number).copied()
}
