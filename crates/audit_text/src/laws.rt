// The laws of this crate: each is the contract of a function that does nothing.
ghost use Rattle.audit_text.specs.Laws.{ReadOrRefused};

/// A text that is read as an input has no bad line, if each of its items is one that a line can tell.
pub fn law_read_or_refused()
    ensures { ReadOrRefused }
{}
