/// What becomes of the writes that were not synced when a disk is cut: their octets are the old ones, the new ones, or
/// neither.
#[derive(Clone, Copy, Debug, PartialEq, Eq)]
pub enum Image {
    Lost,
    Kept,
    Torn,
}
