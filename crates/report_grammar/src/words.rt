// The words of a text that has a space before each word. A word may be empty.
ghost use Rattle.std.specs.Prelude.{◌≡◌, ◌≤◌, ◌<◌, length, take, drop, IfSome};
ghost use Rattle.std.specs.Option.{option_map};
ghost use Rattle.scenario_text.specs.Words.{first_of, one_of, two_of, three_of};
ghost use Rattle.report_grammar.specs.Words.{words_in, is_over};

use scenario_text::words::len_to;

/// The first `size` octets.
pub fn front(octets: &[u8], size: usize) -> &[u8]
    requires { size ≤ length octets.now }
    ensures { result.now ≡ take size octets.now }
{
    &octets[..size]
}

/// The octets behind the first `size` ones.
pub fn behind(octets: &[u8], size: usize) -> &[u8]
    requires { size ≤ length octets.now }
    ensures { result.now ≡ drop size octets.now }
{
    &octets[size..]
}

/// The first word, and the text behind it.
pub fn word(text: &[u8]) -> Option<(&[u8], &[u8])>
    ensures word { option_map (λ x. (x.0.now, words_in x.1.now)) result ≡ first_of (words_in text.now) }
    ensures shorter { IfSome result (λ x. length x.1.now < length text.now) }
{
    match text {
        [] => None,
        [_, rest @ ..] => {
            let size = len_to(b' ', rest);
            Some((front(rest, size), behind(rest, size)))
        }
    }
}

/// Whether no word is left.
pub fn is_over(text: &[u8]) -> bool
    ensures { result ≡ is_over (words_in text.now) }
{
    word(text).is_none()
}

/// The word of a text with exactly one word.
pub fn one(text: &[u8]) -> Option<&[u8]>
    ensures { option_map (λ x. x.now) result ≡ one_of (words_in text.now) }
{
    let (word, rest) = word(text)?;
    if is_over(rest) { Some(word) } else { None }
}

/// The words of a text with exactly two words.
pub fn two(text: &[u8]) -> Option<(&[u8], &[u8])>
    ensures { option_map (λ x. (x.0.now, x.1.now)) result ≡ two_of (words_in text.now) }
{
    let (first, rest) = word(text)?;
    let second = one(rest)?;
    Some((first, second))
}

/// The words of a text with exactly three words.
pub fn three(text: &[u8]) -> Option<(&[u8], &[u8], &[u8])>
    ensures { option_map (λ x. (x.0.now, x.1.now, x.2.now)) result ≡ three_of (words_in text.now) }
{
    let (first, rest) = word(text)?;
    let (second, third) = two(rest)?;
    Some((first, second, third))
}
