// The words of a line. Each call adds a space and a word to the end of a line.
ghost use Rattle.std.specs.Prelude.{◌≡◌, ◌++◌, ◌∷◌, OnOk};
ghost use Rattle.std.specs.Fmt.{decimal};
ghost use Rattle.hex.specs.Hex.{encode_lower};
ghost use Rattle.run_types.specs.Words.{way_text, end_text, lane_text, name_text, node_text, tag_text, kind_text, state_text, cause_text, up_text, bytes_text};

use itoa::Buffer;
use key_uuid::to_uuid;
use net_model::Held;
use qkd_base::{KeyName, Lane, Memory, NodeNo, Octets, Texts, Way};
use run_types::{End, PayloadKind, UnsentCause};
use std::alloc::Global;
use uuid::Uuid;

/// Adds a word.
pub fn word(line: &mut Octets, word: &[u8]) -> Result<(), Memory>
    ensures { OnOk result (line.new ≡ line.old ++ 32 ∷ word.now) }
{
    line.extend(b" ")?;
    line.extend(word)
}

/// Adds a number in decimal digits.
pub fn number(line: &mut Octets, number: u64) -> Result<(), Memory>
    ensures { OnOk result (line.new ≡ line.old ++ 32 ∷ decimal number) }
{
    let mut digits = Buffer::new();
    word(line, digits.format(number).as_bytes())
}

/// Adds octets in lower-case hexadecimal.
pub fn hexadecimal(alloc: Global, line: &mut Octets, octets: &[u8]) -> Result<(), Memory>
    ensures { OnOk result (line.new ≡ line.old ++ 32 ∷ encode_lower octets.now) }
{
    let digits = hex::encode(alloc, octets)?;
    word(line, digits.as_str().as_bytes())
}

/// Adds octets in lower-case hexadecimal, or a hyphen where there are none.
pub fn bytes(alloc: Global, line: &mut Octets, octets: &[u8]) -> Result<(), Memory>
    ensures { OnOk result (line.new ≡ line.old ++ 32 ∷ bytes_text octets.now) }
{
    if octets.is_empty() {
        word(line, b"-")
    } else {
        hexadecimal(alloc, line, octets)
    }
}

/// Adds a tag in 16 hexadecimal digits.
pub fn tag(alloc: Global, line: &mut Octets, tag: u64) -> Result<(), Memory>
    ensures { OnOk result (line.new ≡ line.old ++ 32 ∷ tag_text tag) }
{
    hexadecimal(alloc, line, &tag.to_be_bytes())
}

/// Adds the name of a key: a hyphenated UUID in lower case.
pub fn name(line: &mut Octets, name: KeyName) -> Result<(), Memory>
    ensures { OnOk result (line.new ≡ line.old ++ 32 ∷ name_text name) }
{
    let mut buffer = Uuid::encode_buffer();
    let text = to_uuid(name).hyphenated().encode_lower(&mut buffer);
    word(line, text.as_bytes())
}

/// Adds the name of a node, or an empty word where the node is not declared.
pub fn node(line: &mut Octets, nodes: &Texts, node: NodeNo) -> Result<(), Memory>
    ensures { OnOk result (line.new ≡ line.old ++ 32 ∷ node_text nodes.now node) }
{
    match nodes.get(usize::from(node.get())) {
        Some(text) => word(line, text.as_str().as_bytes()),
        None => word(line, b""),
    }
}

fn way_text(way: Way) -> &'static [u8]
    ensures { result.now ≡ way_text way }
{
    match way {
        Way::Up => b"up",
        Way::Down => b"down",
    }
}

/// Adds a lane: the number of its link, and its way.
pub fn lane(line: &mut Octets, lane: Lane) -> Result<(), Memory>
    ensures { OnOk result (line.new ≡ line.old ++ 32 ∷ lane_text lane) }
{
    number(line, u64::from(lane.link.get()))?;
    word(line, way_text(lane.way))
}

fn end_text(end: End) -> &'static [u8]
    ensures { result.now ≡ end_text end }
{
    match end {
        End::Low => b"low",
        End::High => b"high",
    }
}

/// Adds an end of a link.
pub fn end(line: &mut Octets, end: End) -> Result<(), Memory>
    ensures { OnOk result (line.new ≡ line.old ++ 32 ∷ end_text end) }
{
    word(line, end_text(end))
}

fn kind_text(kind: PayloadKind) -> &'static [u8]
    ensures { result.now ≡ kind_text kind }
{
    match kind {
        PayloadKind::Key => b"key",
        PayloadKind::Stored => b"stored",
        PayloadKind::Ack => b"ack",
        PayloadKind::Open => b"open",
        PayloadKind::Joined => b"joined",
        PayloadKind::Chunk => b"chunk",
        PayloadKind::Part => b"part",
    }
}

/// Adds the kind of a payload.
pub fn kind(line: &mut Octets, kind: PayloadKind) -> Result<(), Memory>
    ensures { OnOk result (line.new ≡ line.old ++ 32 ∷ kind_text kind) }
{
    word(line, kind_text(kind))
}

fn state_text(held: Held) -> &'static [u8]
    ensures { result.now ≡ state_text held }
{
    match held {
        Held::Absent => b"absent",
        Held::Given => b"given",
        Held::Ready => b"ready",
        Held::Made => b"made",
        Held::Kept => b"kept",
        Held::Relayed => b"relayed",
    }
}

/// Adds a key's state at a node.
pub fn state(line: &mut Octets, held: Held) -> Result<(), Memory>
    ensures { OnOk result (line.new ≡ line.old ++ 32 ∷ state_text held) }
{
    word(line, state_text(held))
}

fn cause_text(cause: UnsentCause) -> &'static [u8]
    ensures { result.now ≡ cause_text cause }
{
    match cause {
        UnsentCause::WireFault => b"wire-fault",
        UnsentCause::Memory => b"memory",
    }
}

/// Adds the reason why a wire took no frame.
pub fn cause(line: &mut Octets, cause: UnsentCause) -> Result<(), Memory>
    ensures { OnOk result (line.new ≡ line.old ++ 32 ∷ cause_text cause) }
{
    word(line, cause_text(cause))
}

/// Adds whether a link is up.
pub fn up(line: &mut Octets, up: bool) -> Result<(), Memory>
    ensures { OnOk result (line.new ≡ line.old ++ 32 ∷ up_text up) }
{
    word(
        line,
        if up {
            b"up".as_slice()
        } else {
            b"down".as_slice()
        },
    )
}
