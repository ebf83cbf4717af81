// The blocks and leases of a checkpoint.
ghost use Rattle.std.specs.Prelude.{◌≡◌, ◌≤◌, ◌++◌, List, OnOk, length};
ghost use Rattle.std.specs.List.{flat_map};
ghost use Rattle.link_segments.specs.Lanes.{AreBlocks};
ghost use Rattle.net_model.specs.declared.record.Record.{Record as RecordValue};
ghost use Rattle.net_model.specs.Journal.{block_records, lease_records};
ghost use Rattle.kme_base.specs.Places.{ports_in};
ghost use Rattle.kme_journal.specs.Batches.{Gathers, blocks_of};

use crate::batches::Batches;
use kme_base::LinkEnd;
use net_model::Record;
use qkd_base::{LinkNo, Memory, Octets};

// Appends the blocks of a link in order of number.
fn list_blocks(batches: &mut Batches, link: LinkNo, blocks: &[[u8; 1024]]) -> Result<(), Memory>
    requires { AreBlocks blocks.now }
    ensures { (rs : List RecordValue) → Gathers batches.old rs → OnOk result (Gathers batches.new (rs ++ block_records link 0 blocks.now)) }
{
    for number in 0..blocks.len() {
        let bytes = Octets::from_slice(batches.alloc(), &blocks[number])?;
        batches.push(Record::Block {
            link,
            number: number as u32,
            bytes,
        })?;
    }
    Ok(())
}

// Appends the lease of an end, if it ends after the hash key.
fn list_lease(batches: &mut Batches, end: &LinkEnd) -> Result<(), Memory>
    ensures { (rs : List RecordValue) → Gathers batches.old rs → OnOk result (Gathers batches.new (rs ++ lease_records end.now.port)) }
{
    if end.lease() <= 8 {
        return Ok(());
    }
    batches.push(Record::Lease {
        lane: end.lane(),
        end: end.lease(),
    })
}

/// Appends the blocks of all ends in order of link.
pub fn list_all_blocks(batches: &mut Batches, ends: &[LinkEnd]) -> Result<(), Memory>
    ensures { (rs : List RecordValue) → Gathers batches.old rs → OnOk result (Gathers batches.new (rs ++ flat_map blocks_of (ports_in ends.now))) }
{
    for end in ends {
        list_blocks(batches, end.lane().link, end.segments().blocks())?;
    }
    Ok(())
}

/// Appends the leases of all ends in order of link.
pub fn list_leases(batches: &mut Batches, ends: &[LinkEnd]) -> Result<(), Memory>
    ensures { (rs : List RecordValue) → Gathers batches.old rs → OnOk result (Gathers batches.new (rs ++ flat_map lease_records (ports_in ends.now))) }
{
    for end in ends {
        list_lease(batches, end)?;
    }
    Ok(())
}
