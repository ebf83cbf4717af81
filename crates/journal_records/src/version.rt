/// The version of a body of records. In the first version a name has 16 octets, and in the second 7. In the second version,
/// consecutive handings to one application are one spelled record, called a run.
#[derive(Clone, Copy, Debug, PartialEq, Eq)]
pub enum Version {
    First,
    Second,
}
