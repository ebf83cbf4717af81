// Pools of group keys.
use qkd_base::SaeNo;

/// The group keys of one master for the same slaves, in order of the slaves' numbers, of one size in bits.
#[derive(Clone, Copy, Debug)]
pub struct GroupPool<'a> {
    pub master: SaeNo,
    pub slaves: &'a [SaeNo],
    pub bits: u16,
}
