// The form of a line: what the words behind its first one have to be.
ghost use Rattle.std.specs.Prelude.{◌≡◌};
ghost use Rattle.std.specs.Option.{option_map, option_copied};
ghost use Rattle.scenario_text.specs.Words.{words_of};
ghost use Rattle.scenario_check.specs.Forms.{call_fields, lower_fields, middle_fields, fields_of, more_of, field_at};

use crate::field::Field;
use scenario_text::words::word;

// The fields behind `q004`: the second word says which call it is.
#[tactic(auto, unfolding(crate::specs::Forms::call_fields))]
fn call_fields(rest: &[u8]) -> &'static [Field]
    ensures { result.now ≡ call_fields (words_of rest.now) }
{
    let Some((_, rest)) = word(rest) else {
        return &[Field::Node, Field::Call];
    };
    let Some((call, _)) = word(rest) else {
        return &[Field::Node, Field::Call];
    };
    if call == b"OPEN_CONNECT".as_slice() {
        &[
            Field::Node,
            Field::Call,
            Field::Application,
            Field::Application,
            Field::StreamOrHyphen,
            Field::Number {
                least: 0,
                most: 65535,
            },
        ]
    } else if call == b"GET_KEY".as_slice() {
        &[
            Field::Node,
            Field::Call,
            Field::Application,
            Field::Stream,
            Field::Number {
                least: 0,
                most: 4294967295,
            },
        ]
    } else if call == b"CLOSE".as_slice() {
        &[Field::Node, Field::Call, Field::Application, Field::Stream]
    } else {
        &[Field::Node, Field::Call]
    }
}

// The fields of lines about keys and links.
#[tactic(auto, unfolding(crate::specs::Forms::lower_fields))]
fn lower_fields(word: &[u8], rest: &[u8]) -> Option<&'static [Field]>
    ensures { option_map (λ fields. fields.now) result ≡ lower_fields word.now (words_of rest.now) }
{
    if word == b"q004".as_slice() {
        Some(call_fields(rest))
    } else if word == b"enc".as_slice() {
        Some(&[
            Field::Node,
            Field::Application,
            Field::Application,
            Field::Number {
                least: 1,
                most: 128,
            },
            Field::Size,
        ])
    } else if word == b"dec".as_slice() {
        Some(&[
            Field::Node,
            Field::Application,
            Field::Application,
            Field::Name,
        ])
    } else if word == b"status".as_slice() {
        Some(&[Field::Node, Field::Application, Field::Application])
    } else if word == b"show".as_slice() {
        Some(&[Field::Node, Field::Name])
    } else if word == b"http".as_slice() {
        Some(&[Field::Node, Field::Hexadecimal { most: 73728 }])
    } else if word == b"ledger".as_slice() {
        Some(&[Field::Link, Field::Way])
    } else if word == b"link-up".as_slice() || word == b"link-down".as_slice() {
        Some(&[Field::Link])
    } else if word == b"fill-group".as_slice() {
        Some(&[
            Field::Application,
            Field::Size,
            Field::Number {
                least: 1,
                most: 128,
            },
            Field::Application,
            Field::Application,
        ])
    } else if word == b"enc-group".as_slice() {
        Some(&[
            Field::Node,
            Field::Application,
            Field::Number {
                least: 1,
                most: 128,
            },
            Field::Size,
            Field::Application,
            Field::Application,
        ])
    } else {
        None
    }
}

// The fields of lines about frames, nodes and their disks, and of all below.
#[tactic(auto, unfolding(crate::specs::Forms::middle_fields))]
fn middle_fields(word: &[u8], rest: &[u8]) -> Option<&'static [Field]>
    ensures { option_map (λ fields. fields.now) result ≡ middle_fields word.now (words_of rest.now) }
{
    if word == b"pass".as_slice() {
        Some(&[
            Field::Link,
            Field::Way,
            Field::Number {
                least: 0,
                most: 4294967295,
            },
        ])
    } else if word == b"flip".as_slice() {
        Some(&[
            Field::Link,
            Field::Way,
            Field::Number {
                least: 0,
                most: 4294967295,
            },
            Field::Number {
                least: 0,
                most: 4294967295,
            },
        ])
    } else if word == b"forge".as_slice() {
        Some(&[Field::Link, Field::Way, Field::Hexadecimal { most: 600 }])
    } else if word == b"tick".as_slice()
        || word == b"crash".as_slice()
        || word == b"start".as_slice()
    {
        Some(&[Field::Node])
    } else if word == b"cut".as_slice() {
        Some(&[
            Field::Node,
            Field::Number {
                least: 1,
                most: 1000000,
            },
            Field::Image,
        ])
    } else if word == b"fail".as_slice() {
        Some(&[
            Field::Node,
            Field::Number {
                least: 1,
                most: 1000000,
            },
        ])
    } else {
        lower_fields(word, rest)
    }
}

/// The fields behind the first word of a line. The last may be given several times (`more_of`). `None` if no line begins
/// with this word.
#[tactic(auto, unfolding(crate::specs::Forms::fields_of))]
pub fn fields_of(word: &[u8], rest: &[u8]) -> Option<&'static [Field]>
    ensures { option_map (λ fields. fields.now) result ≡ fields_of word.now (words_of rest.now) }
{
    if word == b"node".as_slice() {
        Some(&[Field::NewName { most: 32 }])
    } else if word == b"link".as_slice() {
        Some(&[Field::Node, Field::Node])
    } else if word == b"sae".as_slice() {
        Some(&[Field::NewName { most: 64 }, Field::Node])
    } else if word == b"allow".as_slice() {
        Some(&[Field::Application, Field::Application])
    } else if word == b"together".as_slice()
        || word == b"apart".as_slice()
        || word == b"end".as_slice()
    {
        Some(&[])
    } else if word == b"bits".as_slice() {
        Some(&[
            Field::Link,
            Field::Ends,
            Field::Number {
                least: 1,
                most: 1024,
            },
        ])
    } else if word == b"fill".as_slice() {
        Some(&[
            Field::Application,
            Field::Application,
            Field::Size,
            Field::Number {
                least: 1,
                most: 128,
            },
        ])
    } else if word == b"feed".as_slice() {
        Some(&[
            Field::GivenName,
            Field::Number {
                least: 1,
                most: 128,
            },
        ])
    } else if word == b"settle".as_slice() {
        Some(&[Field::Number {
            least: 1,
            most: 1000,
        }])
    } else {
        middle_fields(word, rest)
    }
}

/// How many words more a line with this first word may have, each as its last field.
pub fn more_of(word: &[u8]) -> usize
    ensures { result ≡ more_of word.now }
{
    if word == b"dec".as_slice() {
        127
    } else if word == b"fill-group".as_slice() || word == b"enc-group".as_slice() {
        3
    } else {
        0
    }
}

/// The field of the word at a place, counted from 0 behind the first word. `None` if no word may stand there.
pub fn field_at(fields: &[Field], more: usize, place: usize) -> Option<Field>
    ensures { result ≡ field_at fields.now more place }
{
    if place.saturating_sub(more) < fields.len() {
        fields.get(place.min(fields.len() - 1)).copied()
    } else {
        None
    }
}
