// The first octets of a disk, which say where the live area is.
ghost use Rattle.std.specs.Prelude.{◌≡◌, ◌≤◌, ◌+◌, ℕ, Bool, true, false, length, MatchOption, ◌<◌, ◌-◌, ◌^◌};
ghost use Rattle.journal_snapshot.specs.Standing.{new_live};
ghost use Rattle.journal_snapshot.specs.Snapshots.{moved_to};
ghost use Rattle.journal_snapshot.specs.Layout.{word, tail_word, field_word, start_of, generation_of, version_of, version_place, area_of, live_of, is_version, is_placed, has_open_mark};

use crate::Area;

/// The live area of a disk: where its start is said, its start, its generation, and the version of its records. The generation
/// counts the checkpoints after the first one.
#[derive(Clone, Copy, Debug, PartialEq, Eq)]
pub struct Live {
    pub area: Area,
    pub start: u64,
    pub generation: u64,
    pub version: u8,
}

// The number in the eight octets from `at` on.
fn word(head: &[u8], at: usize) -> u64
    requires { at + 8 ≤ length head.now }
    ensures { result ≡ word head.now at }
{
    u64::from_be_bytes([
        head[at],
        head[at + 1],
        head[at + 2],
        head[at + 3],
        head[at + 4],
        head[at + 5],
        head[at + 6],
        head[at + 7],
    ])
}

// The number in the last seven of these eight octets.
fn tail_word(head: &[u8], at: usize) -> u64
    requires { at + 8 ≤ length head.now }
    ensures { result ≡ tail_word head.now at }
{
    u64::from_be_bytes([
        0,
        head[at + 1],
        head[at + 2],
        head[at + 3],
        head[at + 4],
        head[at + 5],
        head[at + 6],
        head[at + 7],
    ])
}

// The number in octets 10 to 15.
fn field_word(head: &[u8]) -> u64
    requires { 50 ≤ length head.now }
    ensures { result ≡ field_word head.now }
{
    u64::from_be_bytes([
        0, 0, head[10], head[11], head[12], head[13], head[14], head[15],
    ])
}

fn area_of(head: &[u8]) -> Area
    requires { 50 ≤ length head.now }
    ensures { result ≡ area_of head.now }
{
    Area::chosen(
        head[8] == 1,
        head[16] == 3,
        head[17] == 3,
        word(head, 18) < word(head, 34),
    )
}

fn start_of(head: &[u8], area: Area) -> u64
    requires { 50 ≤ length head.now }
    ensures { result ≡ start_of head.now area }
{
    match area {
        Area::Header => 16,
        Area::Field => field_word(head),
        Area::First => tail_word(head, 26),
        Area::Second => tail_word(head, 42),
    }
}

fn generation_of(head: &[u8], area: Area) -> u64
    requires { 50 ≤ length head.now }
    ensures { result ≡ generation_of head.now area }
{
    match area {
        Area::Header => 0,
        Area::Field => 0,
        Area::First => word(head, 18),
        Area::Second => word(head, 34),
    }
}

fn version_of(head: &[u8], area: Area) -> u8
    requires { 50 ≤ length head.now }
    ensures { result ≡ version_of head.now area }
{
    let octet = head[area.version_place()];
    if area == Area::Header {
        octet
    } else if octet == 0 {
        1
    } else {
        2
    }
}

impl Live {
    /// The live area of a new disk.
    pub fn new() -> Self
        ensures { result ≡ new_live }
    {
        Live {
            area: Area::Header,
            start: 16,
            generation: 0,
            version: 2,
        }
    }

    /// The live area after a checkpoint at this place.
    pub fn moved_to(self, place: u64) -> Self
        requires { self.generation < 2 ^ 64 - 1 }
        ensures { result ≡ moved_to self place }
    {
        Live {
            area: self.area.next(),
            start: place,
            generation: if self.area == Area::Header {
                0
            } else {
                self.generation + 1
            },
            version: 2,
        }
    }

    /// Reads the live area from the first 50 octets of a disk. Octets that the disk doesn't have count as 00.
    pub fn read(head: &[u8]) -> Self
        requires { 50 ≤ length head.now }
        ensures { result ≡ live_of head.now }
    {
        let area = area_of(head);
        Live {
            area,
            start: start_of(head, area),
            generation: generation_of(head, area),
            version: version_of(head, area),
        }
    }
}

/// The place where the disk says the version of its live area, if that version is unknown or no area can start where the disk
/// says. Otherwise `None`.
pub fn place_fault(head: &[u8], live: Live, size: u64) -> Option<u64>
    requires long { 50 ≤ length head.now }
    requires live { live ≡ live_of head.now }
    ensures { MatchOption result (is_placed head.now size ≡ true) (λ place. (is_placed head.now size ≡ false) × (place ≡ version_place (area_of head.now))) }
{
    if live.area == Area::Header {
        return None;
    }
    let place = live.area.version_place();
    let octet = head[place];
    if (octet == 0 || octet == 2) && live.start >= 50 && live.start < size {
        None
    } else {
        Some(place as u64)
    }
}

/// Whether the slot of the next checkpoint has an open mark.
pub fn has_open_mark(head: &[u8], area: Area) -> bool
    requires { 50 ≤ length head.now }
    ensures { result ≡ has_open_mark head.now area }
{
    match area {
        Area::Header => false,
        Area::Field => head[16] == 3,
        Area::First => head[17] == 3,
        Area::Second => head[16] == 3,
    }
}
