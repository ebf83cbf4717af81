// Short texts, which are written in hexadecimal words.
ghost use Rattle.std.specs.Prelude.{◌≡◌, ◌≤◌, take};
ghost use Rattle.std.specs.Option.{option_map};
ghost use Rattle.tag_bound.specs.Words.{text_of};

// The greatest number of octets of a text.
const TEXT_LIMIT: usize = 600;

/// A text of 1 to 600 octets.
#[derive(Clone, Copy)]
pub struct ShortText {
    octets: [u8; TEXT_LIMIT],
    size: usize,
    ghost fits: { size ≤ 600 },
}

impl ShortText {
    /// The text that pairs of hexadecimal digits write. The digits may be of either case.
    #[tactic(auto, unfolding(crate::specs::Words::text_of))]
    pub fn read(word: &[u8]) -> Option<ShortText>
        ensures { option_map (λ t. take t.size t.octets) result ≡ text_of word.now }
    {
        let size = word.len() / 2;
        if size < 1 || size > TEXT_LIMIT {
            return None;
        }
        let mut octets = [0u8; TEXT_LIMIT];
        match hex::decode_to_slice(word, &mut octets[..size]) {
            Ok(()) => Some(ShortText { octets, size }),
            Err(_) => None,
        }
    }

    /// The octets of the text.
    pub fn as_slice(&self) -> &[u8]
        ensures { result.now ≡ take self.now.size self.now.octets }
    {
        &self.octets[..self.size]
    }
}
