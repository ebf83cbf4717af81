// Key streams of ChaCha20.
ghost use Rattle.std.specs.Prelude.{◌≡◌, ◌+◌, ◌*◌, ◌%◌, ◌^◌, ◌<◌, length};
ghost use Rattle.net_model.specs.OctetSequence.{octets_from};
ghost use Rattle.source_devices.specs.KeyStream.{octet_at, octet_of, stream_octet, next_octets, moved};

use rand_chacha::ChaCha20Rng;
use rand_core::SeedableRng;
use rand_core::utils::{NextWord, fill_bytes_via_u32};
use std::marker::Model;

// The number of octets of a stream: 2^68 words of four. After them the stream repeats.
const PERIOD: u128 = 1 << 70;

/// The octets of a key stream of ChaCha20 (RFC 8439, with a block counter of 64 bits), from a place on. The key is a letter,
/// a number and thirty zeros, and the stream's number is 0. Each word gives four octets, the lowest first.
#[derive(Drop)]
pub struct KeyStream {
    letter: u8,
    number: u8,
    generator: ChaCha20Rng,
    // The word that was last begun. It is only used while some of its octets are left.
    held: u32,
    place: u128,
}

impl Model for KeyStream {
    ghost use Rattle.std.specs.Prelude.{◌≡◌, ◌<◌, ◌+◌, ◌/◌, ◌%◌, ◌^◌};
    ghost use Rattle.rand_chacha.specs.ChaCha.{key_of};
    ghost use Rattle.source_devices.specs.KeyStream.{StreamForm, seed, stream_word};

    ghost Value = { StreamForm };

    ghost view = { λ s. record { letter = s.letter; number = s.number; place = s.place } };

    ghost invariant = { λ s. (s.place < 2 ^ 70)
        × (s.generator ≡ record { key = key_of (seed s.letter s.number); stream = 0; word_pos = (s.place + 3) / 4 % 2 ^ 68 })
        × (0 < s.place % 4 → s.held ≡ stream_word s.letter s.number (s.place / 4)) };
}

impl KeyStream {
    /// The stream from its first octet on.
    pub fn new(letter: u8, number: u8) -> Self
        ensures { result ≡ record { letter = letter; number = number; place = 0 } }
    {
        let mut seed = [0u8; 32];
        seed[0] = letter;
        seed[1] = number;
        KeyStream {
            letter,
            number,
            generator: ChaCha20Rng::from_seed(seed),
            held: 0,
            place: 0,
        }
    }

    /// Moves to the octet at 1,024 * `number`.
    pub fn go_to_block(&mut self, number: u32)
        ensures { self.new ≡ record self.old { place = 1024 * number } }
    {
        let word = 256 * u128::from(number);
        self.generator.set_word_pos(word);
        self.place = 4 * word;
    }

    // The place of the next octet is below the period.
    fn within(&self)
        ensures { self.now.place < 2 ^ 70 }
    {
        // Reading a field makes its invariant known here.
        let _holds = &self.place;
    }

    // The next octet.
    fn next(&mut self) -> u8
        ensures octet { result ≡ octet_at self.old.letter self.old.number self.old.place }
        ensures place { self.new ≡ record self.old { place = (self.old.place + 1) % 2 ^ 70 } }
    {
        let within = (self.place % 4) as u32;
        if within == 0 {
            self.held = self.generator.next_word();
        }
        self.place = (self.place + 1) % PERIOD;
        ((self.held >> (8 * within)) % 256) as u8
    }

    // How many octets of the word that was last begun are left.
    fn left_of_word(&self) -> usize
        ensures whole { (self.now.place + result) % 4 ≡ 0 }
        ensures within { self.now.place < 2 ^ 70 }
    {
        ((4 - self.place % 4) % 4) as usize
    }

    // Fills the buffer octet by octet.
    fn read_octets(&mut self, into: &mut [u8])
        ensures octets { into.new ≡ next_octets self.old (length into.old) }
        ensures place { self.new ≡ moved self.old (length into.old) }
    {
        self.within();
        for octet in into.iter_mut() {
            *octet = self.next();
        }
    }

    // Fills the buffer with whole words. The stream stands at the first octet of a word.
    fn read_words(&mut self, into: &mut [u8])
        requires begun { self.old.place % 4 ≡ 0 }
        requires whole { length into.old % 4 ≡ 0 }
        ensures octets { into.new ≡ next_octets self.old (length into.old) }
        ensures place { self.new ≡ moved self.old (length into.old) }
    {
        fill_bytes_via_u32(&mut self.generator, into);
        self.place = (self.place + into.len() as u128) % PERIOD;
    }

    // Fills the buffer. The stream stands at the first octet of a word.
    fn read_from_word(&mut self, into: &mut [u8])
        requires begun { self.old.place % 4 ≡ 0 }
        ensures octets { into.new ≡ next_octets self.old (length into.old) }
        ensures place { self.new ≡ moved self.old (length into.old) }
    {
        let (words, over) = into.split_at_mut(into.len() / 4 * 4);
        self.read_words(words);
        self.read_octets(over);
    }

    /// Fills the buffer with the next octets.
    pub fn read(&mut self, into: &mut [u8])
        ensures octets { into.new ≡ octets_from (stream_octet self.old.letter self.old.number) self.old.place (length into.old) }
        ensures place { self.new ≡ record self.old { place = (self.old.place + length into.old) % 2 ^ 70 } }
    {
        let left = self.left_of_word();
        if into.len() < left {
            self.read_octets(into);
            return;
        }
        let (first, rest) = into.split_at_mut(left);
        self.read_octets(first);
        self.read_from_word(rest);
    }
}
