ghost use Rattle.std.specs.Prelude.{◌≡◌, ◌↔◌, IsTrue};
ghost use Rattle.wc_tags.specs.Tag.{hash, tag};

use crate::block::first_block;
use gf64::Multiples;

/// The hash of a text under a key. The empty text has the hash 0 under each key.
pub fn hash(key: u64, text: &[u8]) -> u64
    ensures { result ≡ hash key text.now }
{
    let multiples = Multiples::of(key);
    let mut sum = 0;
    for i in 0..text.len().div_ceil(8) {
        sum = multiples.times(sum ^ first_block(&text[8 * i..]));
    }
    multiples.times(sum ^ text.len() as u64)
}

/// The tag of a text: its hash, masked. The mask is to be a number that nobody else knows and that masks no other tag.
pub fn tag(key: u64, text: &[u8], mask: u64) -> u64
    ensures { result ≡ tag key text.now mask }
{
    hash(key, text) ^ mask
}

/// Whether the tag that came with a text is the text's tag under this key and mask.
pub fn check(key: u64, text: &[u8], mask: u64, given: u64) -> bool
    ensures { IsTrue result ↔ (given ≡ tag key text.now mask) }
{
    tag(key, text, mask) == given
}
