// Records, split into batches.
ghost use Rattle.std.specs.Prelude.{◌≡◌, ◌<◌, ◌≤◌, ◌∷◌, ◌++◌, [], List, length, IfOk, OnOk};
ghost use Rattle.net_model.specs.Formed.{IsWellFormedRecord};
ghost use Rattle.net_model.specs.declared.record.Record.{Record as RecordValue};
ghost use Rattle.journal_records.specs.Grammar.{IsBatch, body_octets};
ghost use Rattle.journal_records.specs.declared.version.Version.TheVariants.{Second};
ghost use Rattle.kme_journal.specs.Batches.{AreSpelled, Gathers, batches_in};

use journal_records::spell_batch_2;
use net_model::{Record, Records};
use qkd_base::{Items, Memory, Octets};
use std::alloc::Global;
use std::marker::Model;
use std::mem;

// The number of records in every batch but the last.
const MOST: usize = 65_535;

/// Records that are split into batches: the full batches as octets, and the records of the last one.
#[derive(Drop)]
pub struct Batches {
    alloc: Global,
    full: Vec<Octets>,
    rest: Records,
}

impl Model for Batches {
    ghost use Rattle.kme_journal.specs.Batches.{Gathered, IsRest};

    ghost Value = { Gathered };

    ghost view = { λ b. record { full = b.full.items; rest = b.rest } };

    ghost invariant = { λ b. IsRest b.rest };
}

impl Batches {
    /// The empty list of records. It allocates nothing.
    pub fn new(alloc: Global) -> Self
        ensures { Gathers result [] }
    {
        Batches {
            alloc,
            full: Vec::new(alloc),
            rest: Items::new(alloc),
        }
    }

    /// The allocator of all batches.
    pub fn alloc(&self) -> Global {
        self.alloc
    }

    // Writes the records of the last batch as octets.
    fn close(&mut self) -> Result<(), Memory>
        requires { 0 < length self.old.rest }
        ensures octets { OnOk result (self.new.full ≡ self.old.full ++ body_octets Second self.old.rest ∷ []) }
        ensures rest { self.new.rest ≡ [] }
        ensures grammar { OnOk result (IsBatch Second self.old.rest) }
    {
        let batch = mem::replace(&mut self.rest, Items::new(self.alloc));
        let body = spell_batch_2(self.alloc, &batch)?;
        self.full.push(body)?;
        Ok(())
    }

    // Closes the last batch if it is full.
    fn go_on(&mut self) -> Result<(), Memory>
        ensures room { OnOk result (length self.new.rest < 65535) }
        ensures same { (rs : List RecordValue) → Gathers self.old rs → OnOk result (Gathers self.new rs) }
    {
        if self.rest.len() < MOST {
            return Ok(());
        }
        self.close()
    }

    /// Appends a record.
    pub fn push(&mut self, change: Record) -> Result<(), Memory>
        requires { IsWellFormedRecord change }
        ensures { (rs : List RecordValue) → Gathers self.old rs → OnOk result (Gathers self.new (rs ++ change ∷ [])) }
    {
        self.go_on()?;
        self.rest.push(change)
    }

    /// The bodies of all batches.
    pub fn finish(mut self) -> Result<Vec<Octets>, Memory>
        ensures { (rs : List RecordValue) → Gathers self rs → IfOk result (λ bodies. AreSpelled (batches_in rs) bodies.items) }
    {
        if !self.rest.is_empty() {
            self.close()?;
        }
        let Batches { full, .. } = self;
        Ok(full)
    }
}
