/// The place at which a line is no stream call: that of the first word that doesn't fit, counted from 0. If a word is
/// missing, it is the number of words.
#[derive(Clone, Copy, Debug, PartialEq, Eq)]
pub struct BadCall {
    pub place: usize,
}
