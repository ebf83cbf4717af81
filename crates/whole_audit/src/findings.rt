// Which rules an item keeps.
ghost use Rattle.std.specs.Prelude.{◌≡◌};
ghost use Rattle.whole_audit.specs.Whole.{least_of};

use item_audit::Asked;

/// Which of the rules from 7 on an item keeps.
#[derive(Clone, Copy)]
pub struct Findings {
    /// Rule 7.
    pub order: bool,
    /// Rule 7, of how much a line gives.
    pub gives: bool,
    /// Rule 7, of the order of a tick's frames.
    pub turns: bool,
    /// Rule 8.
    pub managers: bool,
    /// Rule 9.
    pub blocks: bool,
    /// Rule 10.
    pub claims: bool,
    /// Rule 10, of gaps.
    pub gaps: bool,
    /// Rule 11.
    pub sums: bool,
    /// Rule 11, of burnt bytes.
    pub burns: bool,
    /// Rule 12, of names that follow each other.
    pub names: bool,
    /// Rule 13, of names.
    pub handed: bool,
    /// Rule 14, of names.
    pub heard: bool,
    /// Rule 14, of wires.
    pub comes: bool,
    /// Rule 14, of bytes that a receiver lacks.
    pub lacks: bool,
    /// Rule 14, of what senders and receivers know.
    pub known: bool,
    /// Rule 14, of bytes and lengths of frames that come.
    pub whole: bool,
    /// Rule 13, of numbers of keys.
    pub stocks: bool,
    /// Rule 18, of names.
    pub shown: bool,
    /// Rule 17, of lanes that are short.
    pub shorts: bool,
    /// Rule 13, of keys that were handed out before.
    pub refused: bool,
    /// Rule 18, of keys that were handed out.
    pub given: bool,
    /// Rules 7, 12 to 20.
    pub asked: Asked,
}

/// The least rule that an item breaks, if it breaks any.
pub fn least(findings: &Findings) -> Option<u8>
    ensures { result ≡ least_of findings.now }
{
    if !(findings.order && findings.gives && findings.turns && findings.asked.parts) {
        return Some(7);
    }
    if !findings.managers {
        return Some(8);
    }
    if !findings.blocks {
        return Some(9);
    }
    if !(findings.claims && findings.gaps) {
        return Some(10);
    }
    if !(findings.sums && findings.burns) {
        return Some(11);
    }
    if !(findings.names && findings.asked.making) {
        return Some(12);
    }
    if !(findings.handed && findings.stocks && findings.refused && findings.asked.handing) {
        return Some(13);
    }
    if !(findings.heard
        && findings.comes
        && findings.lacks
        && findings.known
        && findings.whole
        && findings.asked.passing)
    {
        return Some(14);
    }
    if !findings.asked.streaming {
        return Some(15);
    }
    if !findings.asked.responding {
        return Some(16);
    }
    if !(findings.shorts && findings.asked.ticking) {
        return Some(17);
    }
    if !(findings.shown && findings.given && findings.asked.showing) {
        return Some(18);
    }
    if !findings.asked.lengths {
        return Some(19);
    }
    if !findings.asked.naming {
        return Some(20);
    }
    None
}
