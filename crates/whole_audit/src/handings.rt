// Rules 13 and 18, as to keys that were handed out.
ghost use Rattle.std.specs.Prelude.{◌≡◌, ◌==◌, ◌&&◌, ◌||◌, ℕ, List, [], ◌∷◌, Option, slice_get, OnOk};
ghost use Rattle.std.specs.Option.{option_copied};
ghost use Rattle.ordered_set.specs.Entries.{has_entry};
ghost use Rattle.qkd_base.specs.Name.{Name};
ghost use Rattle.run_types.specs.declared.command.Command.{Command as CommandValue};
ghost use Rattle.run_types.specs.declared.scenario.Scenario.{Scenario as Lines};
ghost use Rattle.run_types.specs.declared.item.NumberedItem.{NumberedItem as Told};
ghost use Rattle.whole_audit.specs.Lines.{command_at};
ghost use Rattle.whole_audit.specs.Handings.{node_asked, sae_asking, node_if, sae_if, has_key, keys_of, was_handed, hands_unnamed, unnamed, may_hand, fits_handed, shows_handed, holds_at, handed_place, fits_refusal, refuses_handed_by, refuses_handed_of};
ghost use Rattle.whole_audit.specs.Kept.{key_entry, AreStopped, AreHanded, AreUnnamed, AreHandings};

use crate::knowledge::kind_number;
use crate::managers::{node_entry, was_stopped};
use net_model::Held;
use ordered_set::{Entries, Entry as Numbers};
use qkd_base::{KeyName, Memory, NodeNo, Octets, SaeNo};
use run_types::{Command, Item, Refusal, StreamAnswer};
use std::alloc::Global;

/// Which keys were handed out.
#[derive(Drop)]
pub struct Handings {
    // By the nodes that were asked.
    at: Entries,
    // By the applications that asked.
    to: Entries,
    // The nodes that handed out keys without their names.
    unnamed: Entries,
}

// The node that a line asks for keys.
fn node_if(command: &Option<&Command>) -> Option<u64>
    ensures { result ≡ node_if (option_copied command.now) }
{
    match command {
        Some(command) => node_asked(command),
        None => None,
    }
}

fn node_asked(command: &Command) -> Option<u64>
    ensures { result ≡ node_asked command.now }
{
    match command {
        Command::Enc { node, .. } | Command::EncGroup { node, .. } | Command::Dec { node, .. } => {
            Some(u64::from(node.get()))
        }
        _ => None,
    }
}

// The application that asks for keys.
fn sae_if(command: &Option<&Command>) -> Option<u64>
    ensures { result ≡ sae_if (option_copied command.now) }
{
    match command {
        Some(command) => sae_asking(command),
        None => None,
    }
}

fn sae_asking(command: &Command) -> Option<u64>
    ensures { result ≡ sae_asking command.now }
{
    match command {
        Command::Enc { master, .. } => Some(u64::from(master.get())),
        Command::EncGroup { master, .. } => Some(u64::from(master.get())),
        Command::Dec { slave, .. } => Some(u64::from(slave.get())),
        _ => None,
    }
}

// The keys that an item hands out.
fn keys_of(item: &Item) -> &[(KeyName, Octets)]
    ensures { result.now ≡ keys_of item.now }
{
    match item {
        Item::Keys(keys) => keys.as_slice(),
        _ => &[],
    }
}

/// A name and a place, as an entry of a set.
pub fn key_entry(name: &KeyName, place: u64) -> Numbers
    ensures { result ≡ key_entry name.now place }
{
    [
        name.count(),
        u64::from(name.node().get()),
        kind_number(name),
        place,
        0,
    ]
}

// Adds keys that were handed out at a place.
fn add_keys(set: &mut Entries, place: u64, keys: &[(KeyName, Octets)]) -> Result<(), Memory>
    ensures { OnOk result ((n : Name) (there : ℕ) → has_entry set.new (key_entry n there) ≡ (((place == there) && has_key keys.now n) || has_entry set.old (key_entry n there))) }
{
    for key in keys {
        set.insert(key_entry(&key.0, place))?;
    }
    Ok(())
}

// Adds the keys that an item hands out, if its line has a place for them.
fn learn_keys(set: &mut Entries, place: Option<u64>, item: &Item) -> Result<(), Memory>
    ensures { (place_in : Option CommandValue → Option ℕ) (s : Lines) (told : Told) (before : List Told) → told.item ≡ item.now → place ≡ place_in (command_at s told.number) → AreHanded place_in s set.old before → OnOk result (AreHanded place_in s set.new (told ∷ before)) }
{
    match place {
        Some(place) => add_keys(set, place, keys_of(item)),
        None => Ok(()),
    }
}

// The node that hands out keys without their names.
fn hands_unnamed(command: &Option<&Command>, item: &Item) -> Option<u64>
    ensures { result ≡ hands_unnamed (option_copied command.now) item.now }
{
    match item {
        Item::Http { node, status, .. } => {
            if *status == 200 {
                Some(u64::from(node.get()))
            } else {
                None
            }
        }
        Item::Stream(StreamAnswer::GetKey { .. }) => match command {
            Some(Command::Stream { node, .. }) => Some(u64::from(node.get())),
            _ => None,
        },
        _ => None,
    }
}

// Adds a node that handed out keys without their names, if there is one.
fn learn_unnamed(set: &mut Entries, word: &Option<u64>) -> Result<(), Memory>
    ensures { (s : Lines) (told : Told) (before : List Told) → word.now ≡ unnamed s told → AreUnnamed s set.old before → OnOk result (AreUnnamed s set.new (told ∷ before)) }
{
    match word {
        Some(node) => set.insert(node_entry(*node)),
        None => Ok(()),
    }
}

// Whether a node that holds this of a key fits whether the key was handed out there, or may have been.
fn fits_handed(was_handed: bool, may_be: bool, what: Held) -> bool
    ensures { result ≡ fits_handed was_handed may_be what }
{
    match what {
        Held::Given => was_handed || may_be,
        Held::Kept => true,
        _ => !was_handed,
    }
}

// The place of a name that is refused as handed.
fn handed_place(item: &Item) -> Option<u16>
    ensures { result ≡ handed_place item.now }
{
    match item {
        Item::Refused(Refusal::Handed { place }) => Some(*place),
        _ => None,
    }
}

impl Handings {
    /// Before the first item. The call allocates nothing.
    pub fn new(alloc: Global) -> Self
        ensures { (s : Lines) → AreHandings s result [] }
    {
        Handings {
            at: Entries::new(alloc),
            to: Entries::new(alloc),
            unnamed: Entries::new(alloc),
        }
    }

    // Whether a node may have handed out any key.
    fn may_hand(&self, stopped: &Entries, node: NodeNo) -> bool
        ensures { (s : Lines) (before : List Told) → AreStopped s stopped.now before → AreUnnamed s self.now.unnamed before → result ≡ may_hand s node before }
    {
        let node = u64::from(node.get());
        was_stopped(stopped, node) || self.unnamed.has(node_entry(node))
    }

    // Whether a key was handed out at a node.
    fn was_handed_at(&self, name: &KeyName, node: NodeNo) -> bool
        ensures { (s : Lines) (before : List Told) → AreHanded node_if s self.now.at before → result ≡ was_handed node_if s before name.now node }
    {
        self.at.has(key_entry(name, u64::from(node.get())))
    }

    // Whether an application got a key.
    fn was_handed_to(&self, name: &KeyName, sae: SaeNo) -> bool
        ensures { (s : Lines) (before : List Told) → AreHanded sae_if s self.now.to before → result ≡ was_handed sae_if s before name.now sae }
    {
        self.to.has(key_entry(name, u64::from(sae.get())))
    }

    /// Whether a node that shows a key fits whether the key was handed out there.
    pub fn fit_shown(&self, stopped: &Entries, item: &Item) -> bool
        ensures { (s : Lines) (before : List Told) → AreStopped s stopped.now before → AreHandings s self.now before → result ≡ shows_handed s before item.now }
    {
        match item {
            Item::Shown {
                node,
                name,
                held,
                ..
            } => fits_handed(
                self.was_handed_at(name, *node),
                self.may_hand(stopped, *node),
                *held,
            ),
            _ => true,
        }
    }

    // Whether the name at this place is that of a key that the application got.
    fn holds_at(&self, names: &[KeyName], place: u16, sae: SaeNo) -> bool
        ensures { (s : Lines) (before : List Told) → AreHanded sae_if s self.now.to before → result ≡ holds_at (λ n. was_handed sae_if s before n sae) (slice_get names.now place) }
    {
        match names.get(usize::from(place)) {
            Some(name) => self.was_handed_to(name, sae),
            None => false,
        }
    }

    // Whether the name at this place is that of a key that the application got, or may have got.
    fn may_hold(&self, may_be: bool, names: &[KeyName], place: u16, sae: SaeNo) -> bool
        ensures { (s : Lines) (before : List Told) → AreHanded sae_if s self.now.to before → result ≡ (may_be || holds_at (λ n. was_handed sae_if s before n sae) (slice_get names.now place)) }
    {
        may_be || self.holds_at(names, place, sae)
    }

    // Whether a key that is refused as handed was handed to the application, or may have been.
    fn fits_refusal(&self, may_be: bool, names: &[KeyName], sae: SaeNo, item: &Item) -> bool
        ensures { (s : Lines) (before : List Told) → AreHanded sae_if s self.now.to before → result ≡ fits_refusal (λ n. was_handed sae_if s before n sae) may_be names.now item.now }
    {
        match handed_place(item) {
            Some(place) => self.may_hold(may_be, names, place, sae),
            None => true,
        }
    }

    // Whether a key that a line's answer refuses as handed was handed to the application.
    fn fits_command(&self, stopped: &Entries, command: &Command, item: &Item) -> bool
        ensures { (s : Lines) (before : List Told) → AreStopped s stopped.now before → AreHandings s self.now before → result ≡ refuses_handed_by s before command.now item.now }
    {
        match command {
            Command::Dec {
                node,
                slave,
                names,
                ..
            } => self.fits_refusal(
                self.may_hand(stopped, *node),
                names.as_slice(),
                *slave,
                item,
            ),
            _ => true,
        }
    }

    /// Whether a key that is refused as handed was handed to the application, given what the item's line asks for, if there
    /// is one.
    pub fn fit_refusal(&self, stopped: &Entries, command: &Option<&Command>, item: &Item) -> bool
        ensures { (s : Lines) (before : List Told) → AreStopped s stopped.now before → AreHandings s self.now before → result ≡ refuses_handed_of s before (option_copied command.now) item.now }
    {
        match command {
            Some(command) => self.fits_command(stopped, command, item),
            None => true,
        }
    }

    /// Adds an item, given what its line asks for. The only error is that memory runs out.
    pub fn learn(&mut self, command: &Option<&Command>, item: &Item) -> Result<(), Memory>
        ensures { (s : Lines) (told : Told) (before : List Told) → told.item ≡ item.now → option_copied command.now ≡ command_at s told.number → AreHandings s self.old before → OnOk result (AreHandings s self.new (told ∷ before)) }
    {
        learn_keys(&mut self.at, node_if(command), item)?;
        learn_keys(&mut self.to, sae_if(command), item)?;
        learn_unnamed(&mut self.unnamed, &hands_unnamed(command, item))
    }
}
