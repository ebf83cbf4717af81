// The laws of the lines of a text. Each is the contract of a function that does nothing.
ghost use Rattle.tag_bound.specs.TextLaws.{KeysMeant, FirstBadLine, LongTexts};

/// A text lists these keys exactly if they are the keys of its lines, no two are equal, and they are at most 10,000.
pub fn law_keys_meant()
    ensures { KeysMeant }
{}

/// A line is refused exactly if it is the first that has no key, repeats a key, or is the 10,001st.
pub fn law_first_bad_line()
    ensures { FirstBadLine }
{}

/// Octets after the first 180,018 don't change the meaning of a text. So a reader may stop once it has that many.
pub fn law_long_texts()
    ensures { LongTexts }
{}
