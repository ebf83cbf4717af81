// Prefixes of a text: how many leading octets have a property, or are shared with another text.
ghost use Rattle.std.specs.Prelude.{◌≡◌, ◌≤◌, length};
ghost use Rattle.report_parser.specs.Runs.{common, greatest, is_plain, plain_len, is_figure, figures_fit, decimal_fit, may_stand, pattern_fit, end_reach};

/// The length of the longest common prefix of two texts.
pub fn common(text: &[u8], other: &[u8]) -> usize
    ensures common { result ≡ common text.now other.now }
    ensures within { (result ≤ length text.now) × (result ≤ length other.now) }
{
    for (place, octet) in text.iter().enumerate() {
        if other.len() <= place {
            return place;
        }
        if other[place] != *octet {
            return place;
        }
    }
    text.len()
}

/// The greatest of some numbers, or 0 if there are none.
pub fn greatest(numbers: &[usize]) -> usize
    ensures { result ≡ greatest numbers.now }
{
    let mut most = 0;
    for number in numbers {
        most = most.max(*number);
    }
    most
}

// Whether the octet is neither a space nor LF.
fn is_plain(octet: u8) -> bool
    ensures { result ≡ is_plain octet }
{
    octet != b' ' && octet != b'\n'
}

/// How many octets stand before the first space or LF.
pub fn plain_len(text: &[u8]) -> usize
    ensures count { result ≡ plain_len text.now }
    ensures within { result ≤ length text.now }
{
    for (place, octet) in text.iter().enumerate() {
        if !is_plain(*octet) {
            return place;
        }
    }
    text.len()
}

// Whether the octet is a hexadecimal digit, in lower case.
fn is_figure(octet: u8) -> bool
    ensures { result ≡ is_figure octet }
{
    (48 <= octet && octet <= 57) || (97 <= octet && octet <= 102)
}

/// How many leading octets are hexadecimal digits, in lower case.
pub fn figures_fit(word: &[u8]) -> usize
    ensures { result ≡ figures_fit word.now }
{
    for (place, octet) in word.iter().enumerate() {
        if !is_figure(*octet) {
            return place;
        }
    }
    word.len()
}

/// How many leading octets are decimal digits of a number that is at most `most`. A leading zero stands alone.
pub fn decimal_fit(most: u64, word: &[u8]) -> usize
    ensures { result ≡ decimal_fit most word.now }
{
    let mut value = 0u64;
    for (place, octet) in word.iter().enumerate() {
        if *octet < 48 || 57 < *octet || (0 < place && value == 0) {
            return place;
        }
        let next = 10 * u128::from(value) + u128::from(*octet - 48);
        if u128::from(most) < next {
            return place;
        }
        value = next as u64;
    }
    word.len()
}

// Whether a mark of a pattern allows an octet: `n` allows a hexadecimal digit, `k` the number of a kind, 0 to 2, and any
// other mark only itself.
fn may_stand(mark: u8, octet: u8) -> bool
    ensures { result ≡ may_stand mark octet }
{
    if mark == b'n' {
        is_figure(octet)
    } else if mark == b'k' {
        48 <= octet && octet <= 50
    } else {
        mark == octet
    }
}

/// How many leading octets of a word the pattern allows, each at its place.
pub fn pattern_fit(pattern: &[u8], word: &[u8]) -> usize
    ensures fit { result ≡ pattern_fit pattern.now word.now }
    ensures within { result ≤ length word.now }
{
    for (place, mark) in pattern.iter().enumerate() {
        if word.len() <= place {
            return place;
        }
        if !may_stand(*mark, word[place]) {
            return place;
        }
    }
    pattern.len()
}

/// 1 if the text begins with the end of a line, or else 0.
pub fn end_reach(text: &[u8]) -> usize
    ensures reach { result ≡ end_reach text.now }
    ensures within { result ≤ length text.now }
{
    match text {
        [] => 0,
        [first, ..] => { if *first == b'\n' { 1 } else { 0 } }
    }
}
