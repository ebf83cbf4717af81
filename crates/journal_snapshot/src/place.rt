// Where a checkpoint is written.
ghost use Rattle.std.specs.Prelude.{◌≡◌, ◌+◌, ◌-◌, ◌^◌, ◌&&◌, nat_le, nat_lt, if◌then◌else◌};

use range_journal::MOST_OCTETS;

/// Whether `need` octets fit between the header of a disk with checkpoints (50 octets) and the start of the live area.
pub fn goes_before(moved: bool, start: u64, need: u64) -> bool
    ensures { result ≡ (moved && nat_le (50 + need) start) }
{
    moved && start >= 50 && need <= start - 50
}

/// Whether `need` octets at a place lie within the disk's limit, and the next generation is in range.
pub fn is_within(need: u64, place: u64, generation: u64) -> bool
    ensures { result ≡ (nat_le (place + need) (2 ^ 25) && nat_lt generation (2 ^ 64 - 1)) }
{
    need <= MOST_OCTETS && place <= MOST_OCTETS - need && generation < u64::MAX
}

/// Where the octets of a checkpoint begin. If the journal ends within the first 50 octets, they begin at its end, with zeros up
/// to the place.
pub fn begins(length: u64, place: u64) -> u64
    ensures { result ≡ (if nat_lt length 50 then length else place) }
{
    if length < 50 { length } else { place }
}
