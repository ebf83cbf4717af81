// The fields of a stream call, behind its first word.
ghost use Rattle.std.specs.Prelude.{◌≡◌, ◌≤◌, length};
ghost use Rattle.qkd004_wire.specs.Call.{fields_of, fits};

use declared_site::Site;
use scenario_text::words::{number, number_in};
use scenario_text::{sae, stream};

/// A field of a call: a declared application, a hyphen (to open a stream) or the stream to join, a stream, bits below
/// 65,536, or an index below 2^32.
#[derive(Clone, Copy, Debug, PartialEq, Eq)]
pub enum Field {
    Application,
    StreamOrHyphen,
    Stream,
    Bits,
    Index,
}

/// The fields of a call that begins with this word. Other words have none.
#[tactic(auto, unfolding(crate::specs::Call::fields_of))]
pub fn fields_of(first: &[u8]) -> &'static [Field]
    ensures fields { result.now ≡ fields_of first.now }
    ensures few { length result.now ≤ 4 }
{
    if first == b"OPEN_CONNECT".as_slice() {
        &[
            Field::Application,
            Field::Application,
            Field::StreamOrHyphen,
            Field::Bits,
        ]
    } else if first == b"GET_KEY".as_slice() {
        &[Field::Application, Field::Stream, Field::Index]
    } else if first == b"CLOSE".as_slice() {
        &[Field::Application, Field::Stream]
    } else {
        &[]
    }
}

/// Whether a word fits a field.
#[tactic(auto, unfolding(crate::specs::Call::fits))]
pub fn fits(site: &Site, field: Field, word: &[u8]) -> bool
    ensures { result ≡ fits site.now field word.now }
{
    match field {
        Field::Application => sae(site, word).is_some(),
        Field::StreamOrHyphen => word == b"-".as_slice() || stream(word).is_some(),
        Field::Stream => stream(word).is_some(),
        Field::Bits => number_in(0, 65535, word).is_some(),
        Field::Index => number(word).is_some(),
    }
}
