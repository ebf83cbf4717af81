// What a word of a line has to be.
ghost use Rattle.std.specs.Prelude.{◌≡◌, IfOk};
ghost use Rattle.scenario_check.specs.Forms.{is_given, is_call, fits};

use declared_site::Site;
use qkd_base::Memory;
use scenario_text::words::{is_name, number_in};
use scenario_text::{LineRefusal, ends, image, link, name, node, octets, sae, size, stream, way};
use std::alloc::Global;

/// What a word of a line has to be.
#[derive(Clone, Copy, Debug, PartialEq, Eq)]
pub enum Field {
    /// A name that is declared here, of at most so many characters.
    NewName { most: usize },
    /// The name of a declared node.
    Node,
    /// The ID of a declared application.
    Application,
    /// The number of a declared link.
    Link,
    /// `up` or `down`.
    Way,
    /// `low`, `high` or `both`.
    Ends,
    /// `lost`, `kept` or `torn`.
    Image,
    /// The name of a key, a stream or a note.
    Name,
    /// Such a name, of which a declared node is the giver.
    GivenName,
    /// The name of a stream.
    Stream,
    /// The name of a stream, or a hyphen.
    StreamOrHyphen,
    /// `OPEN_CONNECT`, `GET_KEY` or `CLOSE`.
    Call,
    /// A size in bits: 64 to 4,096, in steps of 8.
    Size,
    /// A number in this range.
    Number { least: u32, most: u32 },
    /// Pairs of hexadecimal digits, at least one pair and at most so many.
    Hexadecimal { most: usize },
}

// Whether a word is the name of a key, a stream or a note that a declared node gives.
fn is_given(site: &Site, word: &[u8]) -> bool
    ensures { result ≡ is_given site.now word.now }
{
    match name(word) {
        Some(name) => usize::from(name.node().get()) < site.nodes.len(),
        None => false,
    }
}

// Whether a word names a call on a stream.
fn is_call(word: &[u8]) -> bool
    ensures { result ≡ is_call word.now }
{
    word == b"OPEN_CONNECT".as_slice()
        || word == b"GET_KEY".as_slice()
        || word == b"CLOSE".as_slice()
}

/// Whether a word is what a field wants.
#[tactic(auto, unfolding(crate::specs::Forms::fits))]
pub fn fits(alloc: Global, site: &Site, field: Field, word: &[u8]) -> Result<bool, Memory>
    ensures { IfOk result (λ yes. yes ≡ fits site.now field word.now) }
{
    Ok(match field {
        Field::NewName { most } => is_name(most, word),
        Field::Node => node(site, word).is_some(),
        Field::Application => sae(site, word).is_some(),
        Field::Link => link(site, word).is_some(),
        Field::Way => way(word).is_some(),
        Field::Ends => ends(word).is_some(),
        Field::Image => image(word).is_some(),
        Field::Name => name(word).is_some(),
        Field::GivenName => is_given(site, word),
        Field::Stream => stream(word).is_some(),
        Field::StreamOrHyphen => word == b"-".as_slice() || stream(word).is_some(),
        Field::Call => is_call(word),
        Field::Size => size(word).is_some(),
        Field::Number { least, most } => number_in(least, most, word).is_some(),
        Field::Hexadecimal { most } => match octets(alloc, most, word) {
            Ok(_) => true,
            Err(LineRefusal::Refused) => false,
            Err(LineRefusal::Memory) => return Err(Memory),
        },
    })
}
