// How many octets the encoding of a batch has, and how many spelled records.
ghost use Rattle.std.specs.Prelude.{◌≡◌, ◌+◌, ◌*◌, ◌≤◌, ◌^◌, ◌<◌, ◌∷◌, length, List};
ghost use Rattle.std.specs.List.{All, sum_by};
ghost use Rattle.net_model.specs.Facts.{fact_len, IsWellFormedFact};
ghost use Rattle.net_model.specs.Formed.{IsWellFormedRecord};
ghost use Rattle.net_model.specs.Journal.{record_len, spelled_after};
ghost use Rattle.net_model.specs.Table.{bytes_of};
ghost use Rattle.net_model.specs.declared.record.Record.{Record as RecordValue};
ghost use Rattle.journal_records.specs.Grammar.{begun, goes_on};

use net_model::{Fact, Record, fact_size};

/// How many octets the bytes of a fact have.
pub fn bytes_len(fact: &Fact) -> usize
    requires { IsWellFormedFact fact.now }
    ensures length { result ≡ length (bytes_of fact.now) }
    ensures within { result ≤ fact_len fact.now }
{
    match fact {
        Fact::Key { bytes, .. } => bytes.len(),
        Fact::Chunk { bytes, .. } => bytes.len(),
        Fact::Part { bytes, .. } => bytes.len(),
        Fact::Stored { .. } => 0,
        Fact::Open { .. } => 0,
        Fact::Joined { .. } => 0,
    }
}

/// How many octets the encoding of a record has, where a name has `names` octets.
pub fn record_size(change: &Record, names: usize) -> usize
    requires formed { IsWellFormedRecord change.now }
    requires names { names ≤ 16 }
    ensures length { result ≡ record_len names change.now }
    ensures range { result ≤ 1030 }
{
    match change {
        Record::Block { bytes, .. } => 6 + bytes.len(),
        Record::Lease { .. } => 11,
        Record::Learned { fact } => 3 + usize::from(fact_size(fact)),
        Record::Acked { .. } => 1 + names,
        Record::Handed { .. } => 3 + names,
        Record::Closed { .. } => 3 + names,
        Record::Bare { fact } => 3 + (usize::from(fact_size(fact)) - bytes_len(fact)),
    }
}

/// How many octets the encodings of all records have in the first version.
pub fn size_of(records: &[Record]) -> usize
    requires formed { All IsWellFormedRecord records.now }
    requires few { length records.now ≤ 65535 }
    ensures size { result ≡ sum_by (record_len 16) records.now }
    ensures short { result ≤ 1030 * length records.now }
{
    let mut size = 0;
    for change in records {
        size += record_size(change, 16);
    }
    size
}

/// The count of records in the second version so far: their octets, their spelled records, and the application and the number
/// of names of the run that the last records form.
#[derive(Clone, Copy, Debug, PartialEq, Eq)]
pub struct Tally {
    pub octets: usize,
    pub items: usize,
    pub sae: u16,
    pub names: usize,
}

impl Tally {
    // Whether a handing to this application continues the run.
    fn goes_on(&self, to: u16) -> bool
        ensures { result ≡ goes_on self.now.sae self.now.names to }
    {
        0 < self.names && self.names < 128 && to == self.sae
    }

    // Counts one more record.
    fn add(&mut self, change: &Record)
        requires formed { IsWellFormedRecord change.now }
        requires octets { self.old.octets < 2 ^ 40 }
        requires items { self.old.items < 2 ^ 40 }
        requires names { self.old.names ≤ 128 }
        ensures octets { (rs : List RecordValue) → self.new.octets + spelled_after self.new.sae self.new.names rs ≡ self.old.octets + spelled_after self.old.sae self.old.names (change.now ∷ rs) }
        ensures items { (rs : List RecordValue) → self.new.items + begun self.new.sae self.new.names rs ≡ self.old.items + begun self.old.sae self.old.names (change.now ∷ rs) }
        ensures more_octets { self.new.octets ≤ self.old.octets + 1030 }
        ensures more_items { self.new.items ≤ self.old.items + 1 }
        ensures names { self.new.names ≤ 128 }
    {
        match change {
            Record::Handed { sae, .. } => {
                let to = sae.get();
                if self.goes_on(to) {
                    self.octets += 7;
                    self.names += 1;
                } else {
                    self.octets += 12;
                    self.items += 1;
                    self.sae = to;
                    self.names = 1;
                }
            }
            _ => {
                self.octets += record_size(change, 7);
                self.items += 1;
                self.sae = 0;
                self.names = 0;
            }
        }
    }
}

/// Counts all records in the second version.
pub fn tally_of(records: &[Record]) -> Tally
    requires formed { All IsWellFormedRecord records.now }
    requires few { length records.now ≤ 65535 }
    ensures octets { result.octets ≡ spelled_after 0 0 records.now }
    ensures items { result.items ≡ begun 0 0 records.now }
    ensures few { result.items ≤ length records.now }
    ensures short { result.octets ≤ 1030 * length records.now }
{
    let mut tally = Tally {
        octets: 0,
        items: 0,
        sae: 0,
        names: 0,
    };
    for change in records {
        tally.add(change);
    }
    tally
}
