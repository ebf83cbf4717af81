ghost use Rattle.std.specs.Prelude.{◌≡◌, ◌<◌, ◌≤◌, length, take};
ghost use Rattle.std.specs.Int.{w64, from_be_bytes};
ghost use Rattle.wc_tags.specs.Tag.{padded};

// The first block of a text that fills it. Most blocks are whole, and need no copy of a length that only the run knows.
fn whole_block(text: &[u8]) -> u64
    requires { 8 ≤ length text.now }
    ensures { result ≡ from_be_bytes w64 (take 8 text.now) }
{
    let mut block = [0u8; 8];
    block.copy_from_slice(&text[..8]);
    u64::from_be_bytes(block)
}

/// The first block of a text that isn't empty.
pub fn first_block(text: &[u8]) -> u64
    requires { 0 < length text.now }
    ensures { result ≡ from_be_bytes w64 (take 8 (padded text.now)) }
{
    let size = text.len();
    if 8 <= size {
        return whole_block(text);
    }
    let mut octets = [0u8; 8];
    octets[..size].copy_from_slice(text);
    u64::from_be_bytes(octets)
}
