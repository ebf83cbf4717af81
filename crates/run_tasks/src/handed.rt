// Counts of the keys that were handed out.
ghost use Rattle.std.specs.Prelude.{◌≡◌, ◌≤◌, ◌+◌, ◌^◌, ◌⊎◌, IfOk, OnErr};
ghost use Rattle.net_model.specs.Action.{Replies};
ghost use Rattle.law_run.specs.Handed.{keys_in};
ghost use Rattle.run_tasks.specs.Counting.{no_keys};

use net_model::Reply;
use qkd_base::Memory;

/// The numbers of keys that were handed to masters and to slaves.
#[derive(Clone, Copy, Debug)]
pub struct Handed {
    pub masters: u64,
    pub slaves: u64,
}

impl Handed {
    /// No keys.
    pub fn none() -> Self
        ensures { result ≡ no_keys }
    {
        Handed {
            masters: 0,
            slaves: 0,
        }
    }

    /// The sums of two counts. If a sum doesn't fit into 64 bits, this is an `Err`.
    pub fn plus(self, others: Handed) -> Result<Self, Memory>
        ensures masters { IfOk result (λ all. all.masters ≡ self.masters + others.masters) }
        ensures slaves { IfOk result (λ all. all.slaves ≡ self.slaves + others.slaves) }
        ensures none { OnErr result ((2 ^ 64 ≤ self.masters + others.masters) ⊎ (2 ^ 64 ≤ self.slaves + others.slaves)) }
    {
        let masters = more_keys(self.masters, others.masters)?;
        let slaves = more_keys(self.slaves, others.slaves)?;
        Ok(Handed { masters, slaves })
    }
}

// The sum of two counts of keys. A sum that doesn't fit into 64 bits ends a run like a lack of memory. It would take 2^57
// lines of 128 keys.
fn more_keys(keys: u64, more: u64) -> Result<u64, Memory>
    ensures sum { IfOk result (λ sum. sum ≡ keys + more) }
    ensures none { OnErr result (2 ^ 64 ≤ keys + more) }
{
    match keys.checked_add(more) {
        Some(sum) => Ok(sum),
        None => Err(Memory),
    }
}

/// The number of keys that a reply hands out.
pub fn keys_in(reply: &Reply) -> u64
    ensures { result ≡ keys_in (Replies reply.now) }
{
    match reply {
        Reply::Handed { keys } => keys.len() as u64,
        _ => 0,
    }
}
