// What stands on the disk of node A before and after its journal is put into the second version.
use qkd_base::Memory;
use std::alloc::Global;

/// Key 1 of A for application 1, as a payload: its name stands at 1 to 16, its bytes at 26 to 57.
pub const KEY: [u8; 58] = [
    1, 0, 0, 0, 0, 0, 0, 0x80, 0, 0x80, 0, 0, 0, 0, 0, 0, 1, 0, 0, 0, 1, 0, 32, 2, 0, 1, 0, 1, 2,
    3, 4, 5, 6, 7, 8, 9, 10, 11, 12, 13, 14, 15, 16, 17, 18, 19, 20, 21, 22, 23, 24, 25, 26, 27,
    28, 29, 30, 31,
];

// Note 1 of B: that key has come.
const NOTE: [u8; 36] = [
    2, 0, 0, 0, 0, 0, 0, 0x80, 1, 0x80, 2, 0, 0, 0, 0, 0, 1, 0, 0, 0, 0, 0, 0, 0x80, 0, 0x80, 0, 0,
    0, 0, 0, 0, 1, 2, 1, 0,
];

// Lane Up of link 0 is leased to its end.
const LEASE: [u8; 11] = [2, 0, 0, 0, 0, 0, 0, 0, 0, 4, 0];

/// A header of the first version.
pub const FIRST: [u8; 16] = [
    0x51, 0x4b, 0x44, 0x4a, 0x52, 0x4e, 0x4c, 1, 0, 0, 0, 0, 0, 0, 0, 0,
];

/// The same header where it says that the live area begins at 2,247 and is of the second version.
const MOVED: [u8; 16] = [
    0x51, 0x4b, 0x44, 0x4a, 0x52, 0x4e, 0x4c, 1, 1, 2, 0, 0, 0, 0, 8, 0xc7,
];

// A record of a block of link 0, whose octets are its number.
fn add_block(octets: &mut Vec<u8>, number: u8) -> Result<(), Memory> {
    octets.extend_from_slice(&[1, 0, 0, 0, 0, number])?;
    octets.extend_from_slice(&[number; 1024])?;
    Ok(())
}

// A header and batches of the first version, each with its gate and its length before it: two blocks, a key, a lease, that the key is
// acknowledged, and the note about it; and the gate behind them.
fn first_area(alloc: Global, header: &[u8; 16]) -> Result<Vec<u8>, Memory> {
    let mut octets = header.to_vec(alloc)?;
    octets.extend_from_slice(&[1, 0, 0, 4, 8, 0, 1])?;
    add_block(&mut octets, 0)?;
    octets.extend_from_slice(&[1, 0, 0, 4, 8, 0, 1])?;
    add_block(&mut octets, 1)?;
    octets.extend_from_slice(&[1, 0, 0, 0, 63, 0, 1, 3, 0, 58])?;
    octets.extend_from_slice(&KEY)?;
    octets.extend_from_slice(&[1, 0, 0, 0, 13, 0, 1])?;
    octets.extend_from_slice(&LEASE)?;
    octets.extend_from_slice(&[1, 0, 0, 0, 19, 0, 1, 4])?;
    octets.extend_from_slice(&KEY[1..17])?;
    octets.extend_from_slice(&[1, 0, 0, 0, 41, 0, 1, 3, 0, 36])?;
    octets.extend_from_slice(&NOTE)?;
    octets.push(0)?;
    Ok(octets)
}

/// A journal of the first version.
pub fn old(alloc: Global) -> Result<Vec<u8>, Memory> {
    first_area(alloc, &FIRST)
}

// That journal with the same records behind it as one batch of the second version, but for the gate at its end.
fn both_areas(alloc: Global) -> Result<Vec<u8>, Memory> {
    let mut octets = first_area(alloc, &MOVED)?;
    octets.extend_from_slice(&[1, 0, 0, 8, 0x85, 0, 6])?;
    add_block(&mut octets, 0)?;
    add_block(&mut octets, 1)?;
    octets.extend_from_slice(&LEASE)?;
    octets.extend_from_slice(&[3, 0, 58])?;
    octets.extend_from_slice(&KEY)?;
    octets.extend_from_slice(&[3, 0, 36])?;
    octets.extend_from_slice(&NOTE)?;
    octets.extend_from_slice(&[4, 0, 0, 0, 0, 0, 0, 1])?;
    Ok(octets)
}

/// That journal after its checkpoint, which is of the second version.
pub fn new(alloc: Global) -> Result<Vec<u8>, Memory> {
    let mut octets = both_areas(alloc)?;
    octets.push(0)?;
    Ok(octets)
}

/// After that the key is handed to application 0.
pub fn handed(alloc: Global) -> Result<Vec<u8>, Memory> {
    let mut octets = both_areas(alloc)?;
    octets.extend_from_slice(&[1, 0, 0, 0, 14, 0, 1, 5, 0, 0, 0, 1, 0, 0, 0, 0, 0, 0, 1, 0])?;
    Ok(octets)
}
