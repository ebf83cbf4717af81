// The steps that answer calls of streams.
ghost use Rattle.std.specs.Prelude.{◌≡◌, ◌∷◌, [], IfSome};
ghost use Rattle.net_model.specs.View.{View};
ghost use Rattle.net_model.specs.Decision.{answers, makes, fresh_name};
ghost use Rattle.net_model.specs.Streams.{only_status};
ghost use Rattle.stream_core.specs.Kept.{Sees};
ghost use Rattle.kme_base.specs.Steps.{orders_of};
ghost use Rattle.kme_streams.specs.Prompt.{IsPromptStep};

use kme_base::{Change, Step};
use net_model::{Record, Reply};
use qkd_base::{Items, KeyName, NameKind, NodeNo, Octets};
use std::alloc::Global;
use stream_core::Streams;

/// The number of this node.
pub fn me(kept: &Streams) -> NodeNo
    ensures { (v : View) → Sees v kept.now → v.me ≡ result }
{
    kept.ends().known().me()
}

/// A new name of this node. Its count is the next unused one plus `more`. `None` if the count is too great.
pub fn fresh_name(kept: &Streams, kind: NameKind, more: u16) -> Option<KeyName>
    ensures { IfSome result (λ name. (v : View) → Sees v kept.now → name ≡ fresh_name v kind more) }
{
    let count = kept.ends().known().last_count() + 1 + more as u64;
    KeyName::new(me(kept), kind, count)
}

/// The step that answers with a status and changes nothing. It allocates nothing.
pub fn answer(alloc: Global, status: u8) -> Result<Step, Reply>
    ensures { (v : View) → IsPromptStep v (answers v (only_status status)) result }
{
    Ok(Step {
        batch: Items::new(alloc),
        reply: Reply::Stream {
            status,
            stream: None,
            index: 0,
            bytes: Octets::new(alloc),
        },
        change: Change::Same,
    })
}

/// The step that makes one durable change and gives this answer.
pub fn make(alloc: Global, entry: Record, reply: Reply) -> Result<Step, Reply>
    requires { orders_of reply ≡ [] }
    ensures { (v : View) → IsPromptStep v (makes v (entry ∷ []) reply) result }
{
    let mut batch = Items::new(alloc);
    match batch.push(entry) {
        Err(_) => Err(Reply::Memory),
        Ok(()) => Ok(Step {
            batch,
            reply,
            change: Change::Same,
        }),
    }
}
