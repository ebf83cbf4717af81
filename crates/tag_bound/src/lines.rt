// The first line of a text.
ghost use Rattle.std.specs.Prelude.{◌≡◌, ◌<◌, ◌==◌, [], ◌∷◌, MatchOption, length, position};
ghost use Rattle.std.specs.Str.Lines.{lines, strip_carriage_return};

// The place of the first line feed.
fn line_end(text: &[u8]) -> Option<usize>
    ensures { result ≡ position (λ b. b == 10) text.now }
{
    text.iter().position(|b| *b == b'\n')
}

// The line without one carriage return at its end, if it has one.
fn without_return(line: &[u8]) -> &[u8]
    ensures { result.now ≡ strip_carriage_return line.now }
{
    match line {
        [front @ .., b'\r'] => front,
        _ => line,
    }
}

/// The first line without its end, and the text after it. If the last line has no line feed, it keeps its carriage
/// return.
pub fn first_line(text: &[u8]) -> Option<(&[u8], &[u8])>
    ensures { MatchOption result (text.now ≡ []) (λ x. (lines text.now ≡ x.0.now ∷ lines x.1.now) × (length x.1.now < length text.now)) }
{
    match line_end(text) {
        Some(size) => Some((without_return(&text[..size]), &text[size + 1..])),
        None => {
            if text.is_empty() {
                None
            } else {
                Some((text, &text[text.len()..]))
            }
        }
    }
}
