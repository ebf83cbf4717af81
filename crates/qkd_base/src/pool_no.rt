// A pool of keys.
use crate::SaeNo;

/// A pool: the keys of one master for one slave, all of one size in bits.
#[derive(Clone, Copy, Debug, PartialEq, Eq, PartialOrd, Ord, Hash)]
pub struct PoolNo {
    pub master: SaeNo,
    pub slave: SaeNo,
    pub bits: u16,
}
