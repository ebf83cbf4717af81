// The leading lines of a text.
ghost use Rattle.std.specs.Prelude.{◌≡◌, ◌+◌, ◌-◌, ◌≤◌, ◌<◌, ◌==◌, ℕ, List, [], ◌∷◌, ◌++◌, MatchOption, length, take, position};
ghost use Rattle.std.specs.Str.Lines.{strip_carriage_return};
ghost use Rattle.scenario_text.specs.Text.{parts_of};
ghost use Rattle.audit_text.specs.Input.{is_end, octets_to_end, lines_to_end};

// The place of the first LF.
fn line_end(text: &[u8]) -> Option<usize>
    ensures { result ≡ position (λ b. b == 10) text.now }
{
    text.iter().position(|b| *b == b'\n')
}

/// The first line with its end, and the text behind it.
pub fn split_line(text: &[u8]) -> Option<(&[u8], &[u8])>
    ensures { MatchOption result (parts_of text.now ≡ text.now ∷ [])
        (λ x. (part : List ℕ) × (x.0.now ≡ part ++ 10 ∷ []) × (parts_of text.now ≡ part ∷ parts_of x.1.now) × (length x.0.now + length x.1.now ≡ length text.now)) }
{
    match line_end(text) {
        Some(size) => Some((&text[..size + 1], &text[size + 1..])),
        None => None,
    }
}

// A line without its end.
fn without_end(line: &[u8]) -> &[u8]
    requires { 0 < length line.now }
    ensures { result.now ≡ take (length line.now - 1) line.now }
{
    &line[..line.len() - 1]
}

// The line without a carriage return at its end.
fn without_return(line: &[u8]) -> &[u8]
    ensures { result.now ≡ strip_carriage_return line.now }
{
    match line {
        [front @ .., b'\r'] => front,
        _ => line,
    }
}

// Whether a line, given with its end, is the line `end` of a scenario.
fn is_end(line: &[u8]) -> bool
    requires { 0 < length line.now }
    ensures { (part : List ℕ) → line.now ≡ part ++ 10 ∷ [] → result ≡ is_end part }
{
    without_return(without_end(line)) == b"end".as_slice()
}

/// How many octets and how many lines of a text belong to its scenario.
pub fn scenario_end(text: &[u8]) -> (usize, u32)
    requires { length text.now ≤ 4194305 }
    ensures octets { result.0 ≡ octets_to_end (parts_of text.now) }
    ensures lines { result.1 ≡ lines_to_end (parts_of text.now) }
    ensures within { (result.0 ≤ length text.now) × (result.1 ≤ length text.now + 1) }
{
    let mut rest = text;
    let mut lines = 0u32;
    while let Some((line, behind)) = split_line(rest) {
        lines += 1;
        rest = behind;
        if is_end(line) {
            return (text.len() - rest.len(), lines);
        }
    }
    (text.len(), lines + 1)
}
