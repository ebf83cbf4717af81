// The words of a line, and the numbers and names that they may be.
ghost use Rattle.std.specs.Prelude.{◌≡◌, ◌≤◌, ◌<◌, ◌^◌, ◌&&◌, ◌==◌, length, nat_lt, nat_le, if◌then◌else◌, Some, None, IfSome, true, take, drop};
ghost use Rattle.std.specs.List.{prefix_len, list_all};
ghost use Rattle.std.specs.Option.{option_map};
ghost use Rattle.scenario_text.specs.Words.{is_space, len_to, words_of, first_of, one_of, two_of, three_of, four_of, five_of, is_name_octet, is_name, is_digit, number_on, number_of, number_in};
ghost use Rattle.scenario_text.specs.Line.{begins_blank, ends_blank};

// How many spaces are at the front of the line.
fn spaces(line: &[u8]) -> usize
    ensures count { result ≡ prefix_len is_space line.now }
    ensures within { result ≤ length line.now }
{
    for (i, b) in line.iter().enumerate() {
        if *b != b' ' {
            return i;
        }
    }
    line.len()
}

/// How many octets are before the first `stop`.
pub fn len_to(stop: u8, bytes: &[u8]) -> usize
    ensures count { result ≡ len_to stop bytes.now }
    ensures within { result ≤ length bytes.now }
{
    for (i, b) in bytes.iter().enumerate() {
        if *b == stop {
            return i;
        }
    }
    bytes.len()
}

// The first `size` octets.
fn front(octets: &[u8], size: usize) -> &[u8]
    requires { size ≤ length octets.now }
    ensures { result.now ≡ take size octets.now }
{
    &octets[..size]
}

// The octets after the first `size` ones.
fn behind(octets: &[u8], size: usize) -> &[u8]
    requires { size ≤ length octets.now }
    ensures { result.now ≡ drop size octets.now }
{
    &octets[size..]
}

/// The first word, and the text after it.
pub fn word(line: &[u8]) -> Option<(&[u8], &[u8])>
    ensures word { option_map (λ x. (x.0.now, words_of x.1.now)) result ≡ first_of (words_of line.now) }
    ensures shorter { IfSome result (λ x. length x.1.now < length line.now) }
{
    let rest = behind(line, spaces(line));
    let size = len_to(b' ', rest);
    if size == 0 {
        None
    } else {
        Some((front(rest, size), behind(rest, size)))
    }
}

/// Whether the line has no word.
pub fn is_blank(line: &[u8]) -> bool
    ensures { result ≡ (length (words_of line.now) == 0) }
{
    word(line).is_none()
}

/// Whether the line begins with a space.
pub fn begins_blank(line: &[u8]) -> bool
    ensures { result ≡ begins_blank line.now }
{
    match line {
        [] => false,
        [first, ..] => *first == b' ',
    }
}

/// Whether the line ends with a space.
pub fn ends_blank(line: &[u8]) -> bool
    ensures { result ≡ ends_blank line.now }
{
    match line {
        [] => false,
        [.., last] => *last == b' ',
    }
}

/// The word of a line that has exactly one.
pub fn one(line: &[u8]) -> Option<&[u8]>
    ensures { option_map (λ x. x.now) result ≡ one_of (words_of line.now) }
{
    let (word, rest) = word(line)?;
    if is_blank(rest) { Some(word) } else { None }
}

/// The words of a line that has exactly two.
pub fn two(line: &[u8]) -> Option<(&[u8], &[u8])>
    ensures { option_map (λ x. (x.0.now, x.1.now)) result ≡ two_of (words_of line.now) }
{
    let (first, rest) = word(line)?;
    let second = one(rest)?;
    Some((first, second))
}

/// The words of a line that has exactly three.
pub fn three(line: &[u8]) -> Option<(&[u8], &[u8], &[u8])>
    ensures { option_map (λ x. (x.0.now, x.1.now, x.2.now)) result ≡ three_of (words_of line.now) }
{
    let (first, rest) = word(line)?;
    let (second, third) = two(rest)?;
    Some((first, second, third))
}

/// The words of a line that has exactly four.
pub fn four(line: &[u8]) -> Option<(&[u8], &[u8], &[u8], &[u8])>
    ensures { option_map (λ x. (x.0.now, x.1.now, x.2.now, x.3.now)) result ≡ four_of (words_of line.now) }
{
    let (first, rest) = word(line)?;
    let (second, third, fourth) = three(rest)?;
    Some((first, second, third, fourth))
}

/// The words of a line that has exactly five.
pub fn five(line: &[u8]) -> Option<(&[u8], &[u8], &[u8], &[u8], &[u8])>
    ensures { option_map (λ x. (x.0.now, x.1.now, x.2.now, x.3.now, x.4.now)) result ≡ five_of (words_of line.now) }
{
    let (first, rest) = word(line)?;
    let (second, third, fourth, fifth) = four(rest)?;
    Some((first, second, third, fourth, fifth))
}

// Whether an octet may be in a name.
fn is_name_octet(b: u8) -> bool
    ensures { result ≡ is_name_octet b }
{
    (97 <= b && b <= 122)
        || (65 <= b && b <= 90)
        || (48 <= b && b <= 57)
        || b == b'_'
        || b == b'-'
        || b == b'.'
}

/// Whether a word is a name of at most `most` characters.
#[tactic(auto, unfolding(crate::specs::Words::is_name))]
pub fn is_name(most: usize, word: &[u8]) -> bool
    ensures { result ≡ is_name most word.now }
{
    word.len() <= most && all_of_name(word)
}

// Whether each octet may be in a name.
fn all_of_name(word: &[u8]) -> bool
    ensures { result ≡ list_all is_name_octet word.now }
{
    for b in word {
        if !is_name_octet(*b) {
            return false;
        }
    }
    true
}

/// The number that digits write, if it is below 2^32.
fn digits(word: &[u8]) -> Option<u32>
    ensures { result ≡ (if list_all is_digit word.now && nat_lt (number_on 0 word.now) (2 ^ 32) then Some (number_on 0 word.now) else None) }
{
    let mut value = 0u64;
    for b in word {
        if *b < 48 || 57 < *b {
            return None;
        }
        value = 10 * value + u64::from(*b - 48);
        if value >= 4294967296 {
            return None;
        }
    }
    Some(value as u32)
}

/// The number that a word writes.
#[tactic(auto, unfolding(crate::specs::Words::number_of))]
pub fn number(word: &[u8]) -> Option<u32>
    ensures { result ≡ number_of word.now }
{
    match word {
        [] => None,
        [b'0', _, ..] => None,
        _ => digits(word),
    }
}

/// The number that a word writes, if it is from `least` to `most`.
#[tactic(auto, unfolding(crate::specs::Words::number_in))]
pub fn number_in(least: u32, most: u32, word: &[u8]) -> Option<u32>
    ensures number { result ≡ number_in least most word.now }
    ensures bounds { IfSome result (λ n. (least ≤ n) × (n ≤ most)) }
{
    let n = number(word)?;
    if least <= n && n <= most {
        Some(n)
    } else {
        None
    }
}
