// The manager that results from replaying a journal.
ghost use Rattle.std.specs.Prelude.{◌≡◌, ◌+◌, ◌<◌, ◌^◌, List, length, IfOk, IfErr};
ghost use Rattle.declared_site.specs.SiteOf.{IsDeclared, site_of};
ghost use Rattle.net_model.specs.Fold.{recovered_view};
ghost use Rattle.net_model.specs.declared.record.Record.{Record as RecordValue};
ghost use Rattle.range_journal.specs.Batches.{length_of, spelled};
ghost use Rattle.kme_node.specs.Holdings.{view};
ghost use Rattle.kme_journal.specs.BatchRecovery.{AreReadAs};
ghost use Rattle.kme_journal.specs.Formed.{IsFormed};
ghost use Rattle.kme_journal.specs.Unread.{IsUnread};

use crate::{RecoverRefusal, replay};
use declared_site::Site;
use journal_records::RecordRefusal;
use kme_node::Node;
use qkd_base::{NodeNo, Octets};
use std::alloc::Global;

// The offset of the gate after these batches. On the disk, each batch has a gate and a length before it.
fn gate_behind(start: u64, batches: &[Octets]) -> u64
    requires { start + length (spelled batches.now) < 2 ^ 64 }
    ensures { result ≡ start + length (spelled batches.now) }
{
    let mut gate = start;
    for octets in batches {
        gate += 5 + octets.len() as u64;
    }
    gate
}

/// Replays these batches into a new manager. `start` is the offset of the first one.
pub fn read_back(
    alloc: Global,
    site: &Site,
    me: NodeNo,
    batches: &[Octets],
    version: u8,
    start: u64,
) -> Result<Node, RecoverRefusal>
    requires site { IsDeclared site.now }
    requires short { length_of start batches.now < 2 ^ 64 }
    ensures site { IfOk result (λ node. node.site ≡ site.now) }
    ensures read { IfOk result (λ node. (story : List (List RecordValue)) × AreReadAs version batches.now story × (view node ≡ recovered_view (site_of site.now) me story)) }
    ensures formed { IfOk result (λ node. IsFormed (view node)) }
    ensures refused { IfErr result (IsUnread version start batches.now) }
{
    let mut node = match Node::new(alloc, site, me) {
        Ok(node) => node,
        Err(_) => return Err(RecoverRefusal::Memory),
    };
    match replay(alloc, &mut node, batches, version) {
        Err((RecordRefusal::Memory, _)) => Err(RecoverRefusal::Memory),
        Err((RecordRefusal::NotARecord(_), place)) => {
            Err(RecoverRefusal::Foreign(gate_behind(start, &batches[..place])))
        }
        Ok(()) => {
            node.restart();
            Ok(node)
        }
    }
}
