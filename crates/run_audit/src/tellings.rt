// Tellings: what a report's items tell of the bytes of keys and chunks, and to which applications these went.
ghost use Rattle.std.specs.Prelude.{◌≡◌, ℕ, List, [], ◌∷◌, ◌++◌, ◌^◌, ◌-◌, ◌+◌, min, map, not, true, Some, None, IfOk, OnOk, if◌then◌else◌, ◌||◌, ◌&&◌, is_some};
ghost use Rattle.std.specs.List.{list_all};
ghost use Rattle.qkd_base.specs.Name.{kind_number};
ghost use Rattle.ordered_set.specs.Entries.{has_entry};
ghost use Rattle.run_audit.specs.declared.subject.Subject.{Subject as Value};
ghost use Rattle.run_audit.specs.Table.{at};
ghost use Rattle.run_audit.specs.Tellings.{Telling, handed_key, handed_chunk, handed_answer, handed_keys, shown, tellings_of, onto, subject_eq, is_same, may_be_same, may_have, fits_with, fits, all_fit};
ghost use Rattle.run_audit.specs.Kept.{subject_key, origin_number, caller_entry, may_be_bytes, is_listed, told_of, AreTold};

use crate::line_kind::LineKind;
use crate::subject::Subject;
use crate::table::{Key, counted, find, put};
use ordered_set::{Entries, Entry};
use qkd_base::{KeyName, Memory, NameKind, Octets, SaeNo};
use run_types::{Chunk, Item, StreamAnswer};
use sae_entitlements::Entitlements;
use std::alloc::Global;
use std::collections::BTreeMap;

/// What was told of keys and chunks so far: their bytes, their masters, and which applications got them.
#[derive(Drop)]
pub struct Told {
    bytes: BTreeMap<Key, Octets>,
    masters: BTreeMap<Key, SaeNo>,
    callers: Entries,
    pub deliveries: u32,
}

// The number of a kind of name.
fn kind_number(kind: NameKind) -> u8
    ensures { result ≡ kind_number kind }
{
    match kind {
        NameKind::Key => 0,
        NameKind::Stream => 1,
        NameKind::Note => 2,
    }
}

/// A name's kind and node as one number. Two names with the same count and the same such number are equal.
pub fn origin_number(name: &KeyName) -> u64
    ensures { result ≡ origin_number name.now }
{
    u64::from(kind_number(name.kind())) + 4 * u64::from(name.node().get())
}

// The table key of a subject.
fn subject_key(subject: &Subject) -> Key
    ensures { result ≡ subject_key subject.now }
{
    match subject {
        Subject::Key(name) => [
            0,
            u64::from(name.node().get()),
            u64::from(kind_number(name.kind())),
            name.count(),
            0,
            0,
        ],
        Subject::Chunk(stream, index) => [
            1,
            u64::from(stream.node().get()),
            u64::from(kind_number(stream.kind())),
            stream.count(),
            u64::from(*index),
            0,
        ],
    }
}

// The entry that says that an application got a subject.
fn caller_entry(subject: &Subject, caller: SaeNo) -> Entry
    ensures { result ≡ caller_entry subject.now caller }
{
    let caller = u64::from(caller.get());
    match subject {
        Subject::Key(name) => [name.count(), origin_number(name), 0, caller, 0],
        Subject::Chunk(stream, index) => [
            stream.count(),
            origin_number(stream),
            u64::from(*index) + 1,
            caller,
            0,
        ],
    }
}

// Whether a key goes to its master, or to an application for which the master may have keys.
fn may_have(grants: &Entitlements, caller: &Option<SaeNo>, master: &Option<SaeNo>) -> bool
    ensures { result ≡ may_have grants.now caller.now master.now }
{
    match caller {
        Some(caller) => match master {
            Some(master) => caller == master || grants.may(*master, *caller).is_ok(),
            None => true,
        },
        None => true,
    }
}

// Records the bytes of a subject.
fn put_bytes(
    table: &mut BTreeMap<Key, Octets>,
    alloc: Global,
    subject: &Subject,
    bytes: &[u8],
) -> Result<(), Memory>
    ensures { OnOk result ((s : Value) → at table.new (subject_key s) ≡ (if subject_eq subject.now s then Some bytes.now else at table.old (subject_key s))) }
{
    let copy = Octets::from_slice(alloc, bytes)?;
    put(table, subject_key(subject), copy)
}

// Records the master of a subject, if the item tells one.
fn put_master(
    table: &mut BTreeMap<Key, SaeNo>,
    subject: &Subject,
    master: &Option<SaeNo>,
) -> Result<(), Memory>
    ensures { OnOk result ((s : Value) → at table.new (subject_key s) ≡ (if subject_eq subject.now s && is_some master.now then master.now else at table.old (subject_key s))) }
{
    match master {
        Some(master) => put(table, subject_key(subject), *master),
        None => Ok(()),
    }
}

// Records that a caller got a subject, if one did.
fn put_caller(
    entries: &mut Entries,
    subject: &Subject,
    caller: &Option<SaeNo>,
) -> Result<(), Memory>
    ensures { OnOk result ((s : Value) (other : ℕ) → has_entry entries.new (caller_entry s other) ≡ ((subject_eq subject.now s && is_same caller.now (Some other)) || has_entry entries.old (caller_entry s other))) }
{
    match caller {
        Some(caller) => entries.insert(caller_entry(subject, *caller)),
        None => Ok(()),
    }
}

impl Told {
    /// No tellings. The call allocates nothing.
    pub fn new(alloc: Global) -> Self
        ensures { AreTold result [] }
    {
        Told {
            bytes: BTreeMap::new(alloc),
            masters: BTreeMap::new(alloc),
            callers: Entries::new(alloc),
            deliveries: 0,
        }
    }

    // Whether these bytes are the subject's, as far as they are known.
    fn may_be_bytes(&self, subject: &Subject, bytes: &[u8]) -> bool
        ensures { result ≡ may_be_bytes (at self.now.bytes (subject_key subject.now)) bytes.now }
    {
        match find(&self.bytes, subject_key(subject)) {
            Some(known) => known.as_slice() == bytes,
            None => true,
        }
    }

    // Whether the caller got the subject before.
    fn was_given_to(&self, subject: &Subject, caller: &Option<SaeNo>) -> bool
        ensures { result ≡ is_listed self.now.callers subject.now caller.now }
    {
        match caller {
            Some(caller) => self.callers.has(caller_entry(subject, *caller)),
            None => false,
        }
    }

    // Whether this master is the subject's, as far as it is known.
    fn may_be_master(&self, subject: &Subject, master: &Option<SaeNo>) -> bool
        ensures { result ≡ may_be_same (at self.now.masters (subject_key subject.now)) master.now }
    {
        match master {
            Some(master) => match find(&self.masters, subject_key(subject)) {
                Some(known) => known == master,
                None => true,
            },
            None => true,
        }
    }

    // Records a telling.
    fn keep(
        &mut self,
        alloc: Global,
        subject: &Subject,
        bytes: &[u8],
        caller: &Option<SaeNo>,
        master: &Option<SaeNo>,
    ) -> Result<(), Memory>
        ensures { (ts : List Telling) → AreTold self.old ts → list_all (fits_with (told_of subject.now bytes.now caller.now master.now)) ts ≡ true → OnOk result (AreTold self.new (told_of subject.now bytes.now caller.now master.now ∷ ts)) }
    {
        put_bytes(&mut self.bytes, alloc, subject, bytes)?;
        put_master(&mut self.masters, subject, master)?;
        put_caller(&mut self.callers, subject, caller)?;
        self.deliveries = counted(self.deliveries, caller.is_some());
        Ok(())
    }

    // Whether a telling fits the earlier ones.
    fn fits(
        &self,
        grants: &Entitlements,
        subject: &Subject,
        bytes: &[u8],
        caller: &Option<SaeNo>,
        master: &Option<SaeNo>,
    ) -> bool
        ensures { result ≡ (may_be_bytes (at self.now.bytes (subject_key subject.now)) bytes.now && not (is_listed self.now.callers subject.now caller.now) && may_be_same (at self.now.masters (subject_key subject.now)) master.now && may_have grants.now caller.now master.now) }
    {
        self.may_be_bytes(subject, bytes)
            && !self.was_given_to(subject, caller)
            && self.may_be_master(subject, master)
            && may_have(grants, caller, master)
    }

    // Adds a telling, and returns whether it fits the earlier ones.
    fn take(
        &mut self,
        alloc: Global,
        grants: &Entitlements,
        subject: &Subject,
        bytes: &[u8],
        caller: &Option<SaeNo>,
        master: &Option<SaeNo>,
    ) -> Result<bool, Memory>
        ensures { (ts : List Telling) → AreTold self.old ts → IfOk result (λ fit. (fit ≡ fits grants.now ts (told_of subject.now bytes.now caller.now master.now)) × (fit ≡ true → AreTold self.new (told_of subject.now bytes.now caller.now master.now ∷ ts))) }
    {
        if !self.fits(grants, subject, bytes, caller, master) {
            return Ok(false);
        }
        self.keep(alloc, subject, bytes, caller, master)?;
        Ok(true)
    }

    // Adds the keys that a line handed out, and returns whether they fit.
    fn take_keys(
        &mut self,
        alloc: Global,
        grants: &Entitlements,
        caller: SaeNo,
        master: SaeNo,
        keys: &[(KeyName, Octets)],
    ) -> Result<bool, Memory>
        ensures { (ts : List Telling) → AreTold self.old ts → IfOk result (λ fit. (fit ≡ all_fit grants.now ts (map (handed_key caller master) keys.now)) × (fit ≡ true → AreTold self.new (onto ts (map (handed_key caller master) keys.now)))) }
    {
        for (name, bytes) in keys {
            let subject = Subject::Key(*name);
            let to = Some(caller);
            let of = Some(master);
            if !self.take(alloc, grants, &subject, bytes.as_slice(), &to, &of)? {
                return Ok(false);
            }
        }
        Ok(true)
    }

    // Adds the chunk of a GET_KEY, and returns whether it fits.
    fn take_chunk(
        &mut self,
        alloc: Global,
        grants: &Entitlements,
        caller: SaeNo,
        stream: &KeyName,
        chunk: &Option<Chunk>,
    ) -> Result<bool, Memory>
        ensures { (ts : List Telling) → AreTold self.old ts → IfOk result (λ fit. (fit ≡ all_fit grants.now ts (handed_chunk caller stream.now chunk.now)) × (fit ≡ true → AreTold self.new (onto ts (handed_chunk caller stream.now chunk.now)))) }
    {
        match chunk {
            Some(chunk) => {
                let subject = Subject::Chunk(*stream, chunk.index);
                let to = Some(caller);
                let master: Option<SaeNo> = None;
                self.take(
                    alloc,
                    grants,
                    &subject,
                    chunk.bytes.as_slice(),
                    &to,
                    &master,
                )
            }
            None => Ok(true),
        }
    }

    // Adds the answer to a stream call, and returns whether it fits.
    fn take_answer(
        &mut self,
        alloc: Global,
        grants: &Entitlements,
        kind: &Option<LineKind>,
        answer: &StreamAnswer,
    ) -> Result<bool, Memory>
        ensures { (ts : List Telling) → AreTold self.old ts → IfOk result (λ fit. (fit ≡ all_fit grants.now ts (handed_answer kind.now answer.now)) × (fit ≡ true → AreTold self.new (onto ts (handed_answer kind.now answer.now)))) }
    {
        match kind {
            Some(LineKind::Getting { caller, stream }) => match answer {
                StreamAnswer::GetKey { status, chunk } => {
                    if *status == 0 {
                        self.take_chunk(alloc, grants, *caller, stream, chunk)
                    } else {
                        Ok(true)
                    }
                }
                _ => Ok(true),
            },
            _ => Ok(true),
        }
    }

    // Adds the keys of an item if its line hands keys out, and returns whether they fit.
    fn take_handed(
        &mut self,
        alloc: Global,
        grants: &Entitlements,
        kind: &Option<LineKind>,
        keys: &[(KeyName, Octets)],
    ) -> Result<bool, Memory>
        ensures { (ts : List Telling) → AreTold self.old ts → IfOk result (λ fit. (fit ≡ all_fit grants.now ts (handed_keys kind.now keys.now)) × (fit ≡ true → AreTold self.new (onto ts (handed_keys kind.now keys.now)))) }
    {
        match kind {
            Some(LineKind::Handing { caller, master }) => {
                self.take_keys(alloc, grants, *caller, *master, keys)
            }
            _ => Ok(true),
        }
    }

    // Adds the bytes of a key that a node showed, if it showed any, and returns whether they fit.
    fn take_shown(
        &mut self,
        alloc: Global,
        grants: &Entitlements,
        name: &KeyName,
        bytes: &[u8],
    ) -> Result<bool, Memory>
        ensures { (ts : List Telling) → AreTold self.old ts → IfOk result (λ fit. (fit ≡ all_fit grants.now ts (shown name.now bytes.now)) × (fit ≡ true → AreTold self.new (onto ts (shown name.now bytes.now)))) }
    {
        if bytes.is_empty() {
            return Ok(true);
        }
        let subject = Subject::Key(*name);
        let nobody: Option<SaeNo> = None;
        self.take(alloc, grants, &subject, bytes, &nobody, &nobody)
    }

    /// Adds what an item tells, and returns whether it fits what was told before. The kind is that of the item's line. The only
    /// error is that memory runs out.
    pub fn take_item(
        &mut self,
        alloc: Global,
        grants: &Entitlements,
        kind: &Option<LineKind>,
        item: &Item,
    ) -> Result<bool, Memory>
        ensures { (ts : List Telling) → AreTold self.old ts → IfOk result (λ fit. (fit ≡ all_fit grants.now ts (tellings_of kind.now item.now)) × (fit ≡ true → AreTold self.new (onto ts (tellings_of kind.now item.now)))) }
    {
        match item {
            Item::Keys(keys) => self.take_handed(alloc, grants, kind, keys.as_slice()),
            Item::Stream(answer) => self.take_answer(alloc, grants, kind, answer),
            Item::Shown { name, bytes, .. } => {
                self.take_shown(alloc, grants, name, bytes.as_slice())
            }
            _ => Ok(true),
        }
    }
}
