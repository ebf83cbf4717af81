ghost use Rattle.std.specs.Prelude.{◌≤◌, length, IsTrue};
ghost use Rattle.std.specs.List.{All};
ghost use Rattle.journal_records.specs.Grammar.{IsLearned};
ghost use Rattle.net_model.specs.Formed.{IsWellFormedRecord};

use journal_records::{
    RecordRefusal, read_batch, read_batch_2, respell, spell_batch, spell_batch_2,
};
use net_model::{Record, Records};
use qkd_base::{Memory, Octets};
use std::alloc::Global;

// A lease, an acknowledged note, a handing, a closed end, a stored note and a bare key, in the first version.
const FIRST: [u8; 136] = [
    0, 6, 2, 1, 1, 0, 0, 0, 0, 0, 0, 0, 0x64, 4, 0, 0, 0, 0, 0, 0, 0x80, 1, 0x80, 2, 0, 0, 0, 0, 0,
    1, 5, 0, 0, 0, 0, 0, 0, 0x80, 0, 0x80, 0, 0, 0, 0, 0, 0, 1, 0, 7, 6, 0, 0, 0, 0, 0, 0, 0x80, 0,
    0x80, 1, 0, 0, 0, 0, 0, 3, 0, 3, 3, 0, 36, 2, 0, 0, 0, 0, 0, 0, 0x80, 1, 0x80, 2, 0, 0, 0, 0,
    0, 1, 0, 0, 0, 0, 0, 0, 0x80, 0, 0x80, 0, 0, 0, 0, 0, 0, 1, 2, 1, 0, 7, 0, 8, 1, 0, 0, 0, 0, 0,
    0, 0x80, 0, 0x80, 0, 0, 0, 0, 0, 0, 1, 0, 2, 0, 0xff, 0, 8, 2, 0, 1,
];

// The same in the second version.
const SECOND: [u8; 111] = [
    0, 6, 2, 1, 1, 0, 0, 0, 0, 0, 0, 0, 0x64, 4, 0x21, 0, 0, 0, 0, 0, 1, 5, 0, 7, 0, 1, 0, 0, 0, 0,
    0, 0, 1, 6, 0x10, 0, 0, 0, 0, 0, 3, 0, 3, 3, 0, 36, 2, 0, 0, 0, 0, 0, 0, 0x80, 1, 0x80, 2, 0,
    0, 0, 0, 0, 1, 0, 0, 0, 0, 0, 0, 0x80, 0, 0x80, 0, 0, 0, 0, 0, 0, 1, 2, 1, 0, 7, 0, 8, 1, 0, 0,
    0, 0, 0, 0, 0x80, 0, 0x80, 0, 0, 0, 0, 0, 0, 1, 0, 2, 0, 0xff, 0, 8, 2, 0, 1,
];

// Whether a batch has 1 to 65,535 records.
fn is_short(batch: &Records) -> bool
    ensures { IsTrue result → (1 ≤ length batch.now) × (length batch.now ≤ 65535) }
{
    1 <= batch.len() && batch.len() <= 65535
}

// Whether a batch has this spelling in each version.
fn is_spelled(alloc: Global, batch: &Records, first: &[u8], second: &[u8]) -> bool
    requires { All IsWellFormedRecord batch.now }
{
    if !is_short(batch) {
        return false;
    }
    match spell_batch(alloc, batch) {
        Ok(octets) if octets.as_slice() == first => {}
        _ => return false,
    }
    match spell_batch_2(alloc, batch) {
        Ok(octets) => octets.as_slice() == second,
        Err(_) => false,
    }
}

// Whether octets of the two versions are one batch of so many records, as it is read and as it is spelled.
fn are_one_batch(alloc: Global, first: &[u8], second: &[u8], records: usize) -> bool {
    let Ok(batch) = read_batch(alloc, first) else {
        return false;
    };
    let Ok(other) = read_batch_2(alloc, second) else {
        return false;
    };
    batch.len() == records
        && is_spelled(alloc, &batch, first, second)
        && is_spelled(alloc, &other, first, second)
}

#[test]
fn each_kind_is_read_and_spelled(rt: HostRuntime) {
    assert!(rt; are_one_batch(rt.alloc(), &FIRST, &SECOND, 6));
}

// Where octets are refused in the first version.
fn refused(alloc: Global, octets: &[u8]) -> Option<usize> {
    match read_batch(alloc, octets) {
        Err(RecordRefusal::NotARecord(place)) => Some(place),
        _ => None,
    }
}

fn refused_2(alloc: Global, octets: &[u8]) -> Option<usize> {
    match read_batch_2(alloc, octets) {
        Err(RecordRefusal::NotARecord(place)) => Some(place),
        _ => None,
    }
}

// Where the fields of the six records begin, and where they end.
const FIRST_FIELDS: [usize; 25] = [
    0, 2, 3, 4, 5, 13, 14, 30, 31, 47, 49, 50, 66, 68, 69, 71, 107, 108, 110, 111, 127, 129, 131,
    133, 136,
];

const SECOND_FIELDS: [usize; 26] = [
    0, 2, 3, 4, 5, 13, 14, 21, 22, 24, 26, 33, 34, 41, 43, 44, 46, 82, 83, 85, 86, 102, 104, 106,
    108, 111,
];

// The last of these places that isn't behind that one.
fn last_before(fields: &[usize], place: usize) -> usize {
    fields
        .iter()
        .copied()
        .filter(|f| *f <= place)
        .last()
        .unwrap_or(0)
}

#[test]
fn a_cut_is_refused_where_its_field_begins(rt: HostRuntime) {
    for cut in 0..111 {
        let place = last_before(&FIRST_FIELDS, cut);
        assert!(rt; refused(rt.alloc(), &FIRST[..cut]) == Some(place));
        let place = last_before(&SECOND_FIELDS, cut);
        assert!(rt; refused_2(rt.alloc(), &SECOND[..cut]) == Some(place));
    }
}

// An octet at a place, and where it is refused.
const FIRST_CHANGES: [(usize, u8, usize); 10] = [
    (1, 0, 0),
    (1, 5, 107),
    (2, 8, 2),
    (3, 32, 3),
    (4, 2, 4),
    (20, 0x81, 14),
    (59, 0, 50),
    (71, 3, 71),
    (127, 1, 127),
    (132, 9, 131),
];

const SECOND_CHANGES: [(usize, u8, usize); 6] = [
    (14, 0x31, 14),
    (20, 0, 14),
    (25, 0, 24),
    (25, 129, 24),
    (34, 0x21, 34),
    (26, 0x30, 26),
];

#[test]
fn a_field_that_does_not_fit_is_refused_where_it_begins(rt: HostRuntime) {
    for (place, octet, wanted) in &FIRST_CHANGES {
        let mut octets = FIRST;
        octets[(*place).min(135)] = *octet;
        assert!(rt; refused(rt.alloc(), &octets) == Some(*wanted));
    }
    for (place, octet, wanted) in &SECOND_CHANGES {
        let mut octets = SECOND;
        octets[(*place).min(110)] = *octet;
        assert!(rt; refused_2(rt.alloc(), &octets) == Some(*wanted));
    }
}

// So many handings of one name to one application, spelled one by one in the first version.
fn handings(alloc: Global, count: u16) -> Result<Vec<u8>, Memory> {
    let mut octets = count.to_be_bytes().to_vec(alloc)?;
    for _ in 0..count {
        octets.extend_from_slice(&FIRST[30..49])?;
    }
    Ok(octets)
}

// So many handings, as the second version spells them.
fn handed(alloc: Global, count: u16) -> Option<Octets> {
    let octets = handings(alloc, count).ok()?;
    match read_batch(alloc, &octets) {
        Ok(batch) if is_short(&batch) => spell_batch_2(alloc, &batch).ok(),
        _ => None,
    }
}

// How many records octets of the second version are.
fn count_2(alloc: Global, octets: &[u8]) -> Option<usize> {
    match read_batch_2(alloc, octets) {
        Ok(batch) => Some(batch.len()),
        Err(_) => None,
    }
}

// Whether so many handings are so many octets in the second version, which begin with so many runs, the first of so many
// names, and are read as they were.
fn is_in_runs(alloc: Global, count: u16, size: usize, runs: u8, names: u8) -> bool {
    let Some(octets) = handed(alloc, count) else {
        return false;
    };
    let octets = octets.as_slice();
    octets.len() == size
        && octets.get(..7) == Some(&[0, runs, 5, 0, 7, 0, names][..])
        && count_2(alloc, octets) == Some(usize::from(count))
}

#[test]
fn handings_stand_in_runs_of_128(rt: HostRuntime) {
    let alloc = rt.alloc();
    assert!(rt; is_in_runs(alloc, 1, 14, 1, 1));
    assert!(rt; is_in_runs(alloc, 128, 903, 1, 128));
    assert!(rt; is_in_runs(alloc, 129, 915, 2, 128));
    assert!(rt; is_in_runs(alloc, 257, 1816, 3, 128));
    let run = [
        0, 2, 5, 0, 7, 0, 1, 0, 0, 0, 0, 0, 0, 1, 5, 0, 7, 0, 1, 0, 0, 0, 0, 0, 0, 2,
    ];
    assert!(rt; refused_2(alloc, &run) == Some(14));
}

// A key's handing to the first application, in both versions.
const HANDED: [u8; 21] = [
    0, 1, 5, 0, 0, 0, 0, 0, 0, 0x80, 0, 0x80, 0, 0, 0, 0, 0, 0, 1, 0, 0,
];

const HANDED_2: [u8; 14] = [0, 1, 5, 0, 0, 0, 1, 0, 0, 0, 0, 0, 0, 1];

#[test]
fn a_handing_has_its_octets_in_each_version(rt: HostRuntime) {
    assert!(rt; are_one_batch(rt.alloc(), &HANDED, &HANDED_2, 1));
}

// A key that a node has learned, in both versions.
const LEARNED: [u8; 39] = [
    0, 1, 3, 0, 34, 1, 0, 0, 0, 0, 0, 0, 0x80, 0, 0x80, 0, 0, 0, 0, 0, 0, 1, 0, 2, 0, 0xff, 0, 8,
    2, 0, 1, 0xa0, 0xa1, 0xa2, 0xa3, 0xa4, 0xa5, 0xa6, 0xa7,
];

// Whether a batch has learned facts alone.
fn is_learned(batch: &Records) -> bool
    ensures { IsTrue result → All IsLearned batch.now }
{
    let records = batch.as_slice();
    for change in records {
        match change {
            Record::Learned { .. } => {}
            _ => return false,
        }
    }
    true
}

// Spells a batch over octets, where they are as long as its spelling, and says whether it did.
fn spell_over(alloc: Global, batch: &Records, octets: &mut Octets) -> bool
    requires { All IsWellFormedRecord batch.now }
{
    if !is_short(batch) || !is_learned(batch) {
        return false;
    }
    match spell_batch(alloc, batch) {
        Ok(spelled) if spelled.len() == octets.len() => {
            respell(alloc, batch, octets);
            true
        }
        _ => false,
    }
}

// The learned key's octets, spelled over as many with zeros in the place of its bytes.
fn respelled(alloc: Global) -> Option<Octets> {
    let mut zeros = LEARNED;
    zeros[31..].fill(0);
    let mut octets = Octets::from_slice(alloc, &zeros).ok()?;
    match read_batch(alloc, &LEARNED) {
        Ok(batch) if spell_over(alloc, &batch, &mut octets) => Some(octets),
        _ => None,
    }
}

#[test]
fn a_batch_is_spelled_over_one_as_long(rt: HostRuntime) {
    let alloc = rt.alloc();
    assert!(rt; are_one_batch(alloc, &LEARNED, &LEARNED, 1));
    let Some(octets) = respelled(alloc) else {
        panic!(rt; "not spelled over");
    };
    assert!(rt; octets.as_slice() == LEARNED.as_slice());
}
