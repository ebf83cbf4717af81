// Numbers in hexadecimal words.
ghost use Rattle.std.specs.Prelude.{◌≡◌};
ghost use Rattle.tag_bound.specs.Words.{number_of};

/// The number that 16 hexadecimal digits write, the highest digit first. The digits may be of either case.
#[tactic(auto, unfolding(crate::specs::Words::number_of))]
pub fn number(word: &[u8]) -> Option<u64>
    ensures { result ≡ number_of word.now }
{
    let mut octets = [0u8; 8];
    match hex::decode_to_slice(word, &mut octets) {
        Ok(()) => Some(u64::from_be_bytes(octets)),
        Err(_) => None,
    }
}
