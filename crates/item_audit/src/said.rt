// Rule 8, as to one item: what it says of a manager.
ghost use Rattle.std.specs.Prelude.{◌≡◌, ◌==◌};
ghost use Rattle.std.specs.List.{position_from};
ghost use Rattle.std.specs.Option.{option_copied};
ghost use Rattle.sae_entitlements.specs.Grants.{home_of};
ghost use Rattle.run_audit.specs.Ledgers.{lane_from};
ghost use Rattle.run_audit.specs.Takings.{receiver};
ghost use Rattle.item_audit.specs.Sayings.{is_up_at, goes_down, is_down_at, goes_up, said_by, said_of_frame, said_of_response, sender, said_of_item, said_of_answer, said_at_home, said_of_crash, said_of_start, said_of, said_at, said_of_node};

use crate::lane_ends::{lane_from, receiver, sender};
use declared_site::Site;
use qkd_base::SaeNo;
use run_types::{Command, FrameResult, Item, Refusal, Scenario, StartResult};

/// What an item says of a manager: whether it was up before the item, and is up behind it.
#[derive(Clone, Copy)]
pub struct Said {
    pub node: u64,
    pub was_up: bool,
    pub is_up: bool,
}

fn is_up_at(node: u64) -> Said
    ensures { result ≡ is_up_at node }
{
    Said {
        node,
        was_up: true,
        is_up: true,
    }
}

fn goes_down(node: u64) -> Said
    ensures { result ≡ goes_down node }
{
    Said {
        node,
        was_up: true,
        is_up: false,
    }
}

fn is_down_at(node: u64) -> Said
    ensures { result ≡ is_down_at node }
{
    Said {
        node,
        was_up: false,
        is_up: false,
    }
}

fn goes_up(node: u64) -> Said
    ensures { result ≡ goes_up node }
{
    Said {
        node,
        was_up: false,
        is_up: true,
    }
}

// What a refusal says of the manager.
fn said_by(node: u64, refusal: Refusal) -> Said
    ensures { result ≡ said_by node refusal }
{
    match refusal {
        Refusal::Down => is_down_at(node),
        Refusal::Stopped => goes_down(node),
        _ => is_up_at(node),
    }
}

// What becomes of a frame says this of the receiver.
fn said_of_frame(node: u64, outcome: &FrameResult) -> Option<Said>
    ensures { result ≡ said_of_frame node outcome.now }
{
    match outcome {
        FrameResult::Refused(refusal) => match refusal {
            Refusal::NoFrame { .. } | Refusal::NoBit { .. } => None,
            _ => Some(said_by(node, *refusal)),
        },
        _ => Some(is_up_at(node)),
    }
}

// What a response says of the manager.
fn said_of_response(node: u64, status: u16, body: &[u8]) -> Option<Said>
    ensures { result ≡ said_of_response node status body.now }
{
    if status == 200 {
        Some(is_up_at(node))
    } else if body == b"{\"message\":\"manager down\"}".as_slice() {
        Some(is_down_at(node))
    } else if body == b"{\"message\":\"manager stopped\"}".as_slice() {
        Some(goes_down(node))
    } else {
        None
    }
}

// What an item says that names a node, a link's end, or a lane.
fn said_of_item(site: &Site, item: &Item) -> Option<Said>
    ensures { result ≡ said_of_item site.now item.now }
{
    match item {
        Item::Took { link, end, .. } => Some(is_up_at(sender(site, &lane_from(*link, *end)))),
        Item::TookNone { link, end, refusal } => {
            Some(said_by(sender(site, &lane_from(*link, *end)), *refusal))
        }
        Item::Ticked { node, .. } => Some(is_up_at(u64::from(node.get()))),
        Item::Idle { node } => Some(is_up_at(u64::from(node.get()))),
        Item::NotTicked { node, refusal } => Some(said_by(u64::from(node.get()), *refusal)),
        Item::Passed {
            lane,
            result: outcome,
            ..
        } => said_of_frame(receiver(site, lane), outcome),
        Item::Flipped {
            lane,
            result: outcome,
            ..
        } => said_of_frame(receiver(site, lane), outcome),
        Item::Forged {
            lane,
            result: outcome,
        } => said_of_frame(receiver(site, lane), outcome),
        Item::Shown { node, .. } => Some(is_up_at(u64::from(node.get()))),
        Item::NotShown { node, refusal, .. } => Some(said_by(u64::from(node.get()), *refusal)),
        Item::Counted { lane, .. } => Some(is_up_at(sender(site, lane))),
        Item::NotCounted { lane, refusal } => Some(said_by(sender(site, lane), *refusal)),
        Item::Http { node, status, body } => {
            said_of_response(u64::from(node.get()), *status, body.as_slice())
        }
        _ => None,
    }
}

// What an answer of this node says.
fn said_of_answer(node: u64, item: &Item) -> Option<Said>
    ensures { result ≡ said_of_answer node item.now }
{
    match item {
        Item::Refused(refusal) => Some(said_by(node, *refusal)),
        Item::Made { .. } | Item::Keys(_) | Item::Ready { .. } | Item::Stream(_) => {
            Some(is_up_at(node))
        }
        _ => None,
    }
}

// What an answer at the home of a master says.
fn said_at_home(site: &Site, master: SaeNo, item: &Item) -> Option<Said>
    ensures { result ≡ said_at_home (home_of site.now.entitlements master) item.now }
{
    match site.entitlements.home(master) {
        Ok(node) => said_of_answer(u64::from(node.get()), item),
        Err(_) => None,
    }
}

// What the item of a crash says.
fn said_of_crash(node: u64, item: &Item) -> Option<Said>
    ensures { result ≡ said_of_crash node item.now }
{
    match item {
        Item::Crashed => Some(goes_down(node)),
        Item::Refused(_) => Some(is_down_at(node)),
        _ => None,
    }
}

// What the item of a start says.
fn said_of_start(node: u64, item: &Item) -> Option<Said>
    ensures { result ≡ said_of_start node item.now }
{
    match item {
        Item::Start(result) => match result {
            StartResult::Started => Some(goes_up(node)),
            StartResult::WasUp => Some(is_up_at(node)),
            _ => Some(is_down_at(node)),
        },
        Item::Refused(_) => Some(is_down_at(node)),
        _ => None,
    }
}

// What an item of a line says.
fn said_of(site: &Site, command: &Command, item: &Item) -> Option<Said>
    ensures { result ≡ said_of site.now command.now item.now }
{
    match command {
        Command::Fill { master, .. } => said_at_home(site, *master, item),
        Command::FillGroup { master, .. } => said_at_home(site, *master, item),
        Command::Feed { stream, .. } => said_of_answer(u64::from(stream.node().get()), item),
        Command::Enc { node, .. }
        | Command::EncGroup { node, .. }
        | Command::Dec { node, .. }
        | Command::Status { node, .. }
        | Command::Stream { node, .. } => said_of_answer(u64::from(node.get()), item),
        Command::Crash { node } => said_of_crash(u64::from(node.get()), item),
        Command::Start { node } => said_of_start(u64::from(node.get()), item),
        _ => said_of_item(site, item),
    }
}

// What an item says, given what its line asks for, if there is one.
fn said_at(site: &Site, command: &Option<&Command>, item: &Item) -> Option<Said>
    ensures { result ≡ said_at site.now (option_copied command.now) item.now }
{
    match command {
        Some(command) => said_of(site, command, item),
        None => None,
    }
}

// The node that the line of this number declares.
fn declared_by(lines: &[u32], number: u32) -> Option<u64>
    ensures { result ≡ position_from (λ n. n == number) 0 lines.now }
{
    for place in 0..lines.len() {
        if lines[place] == number {
            return Some(place as u64);
        }
    }
    None
}

/// What an item says of a manager, if it says anything, given what its line asks for, if there is one.
pub fn said_in(
    scenario: &Scenario,
    command: &Option<&Command>,
    number: u32,
    item: &Item,
) -> Option<Said>
    ensures { result ≡ said_of_node (position_from (λ n. n == number) 0 scenario.now.node_lines) (said_at scenario.now.site (option_copied command.now) item.now) }
{
    match declared_by(scenario.node_lines.as_slice(), number) {
        Some(node) => Some(goes_down(node)),
        None => said_at(&scenario.site, command, item),
    }
}
