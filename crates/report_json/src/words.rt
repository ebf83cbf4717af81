// The words of a report.
ghost use Rattle.std.specs.Prelude.{◌≡◌};
ghost use Rattle.run_types.specs.Words.{way_text, end_text, kind_text, state_text, cause_text, up_text};

use net_model::Held;
use qkd_base::Way;
use run_types::{End, PayloadKind, UnsentCause};

pub(crate) fn way_text(way: Way) -> &'static str
    ensures { result.now ≡ way_text way }
{
    match way {
        Way::Up => "up",
        Way::Down => "down",
    }
}

pub(crate) fn end_text(end: End) -> &'static str
    ensures { result.now ≡ end_text end }
{
    match end {
        End::Low => "low",
        End::High => "high",
    }
}

pub(crate) fn kind_text(kind: PayloadKind) -> &'static str
    ensures { result.now ≡ kind_text kind }
{
    match kind {
        PayloadKind::Key => "key",
        PayloadKind::Stored => "stored",
        PayloadKind::Ack => "ack",
        PayloadKind::Open => "open",
        PayloadKind::Joined => "joined",
        PayloadKind::Chunk => "chunk",
        PayloadKind::Part => "part",
    }
}

pub(crate) fn state_text(held: Held) -> &'static str
    ensures { result.now ≡ state_text held }
{
    match held {
        Held::Absent => "absent",
        Held::Given => "given",
        Held::Ready => "ready",
        Held::Made => "made",
        Held::Kept => "kept",
        Held::Relayed => "relayed",
    }
}

pub(crate) fn cause_text(cause: UnsentCause) -> &'static str
    ensures { result.now ≡ cause_text cause }
{
    match cause {
        UnsentCause::WireFault => "wire-fault",
        UnsentCause::Memory => "memory",
    }
}

pub(crate) fn up_text(up: bool) -> &'static str
    ensures { result.now ≡ up_text up }
{
    if up { "up" } else { "down" }
}
