// The fields of payloads, each read from the front of octets.
ghost use Rattle.std.specs.Prelude.{◌≡◌, ◌+◌, ◌≤◌, ◌&&◌, length, take, drop, Some, None, OnOk, IfOk, if◌then◌else◌};
ghost use Rattle.std.specs.Int.{w16, from_be_bytes};
ghost use Rattle.qkd_base.specs.Name.{name_at};
ghost use Rattle.qkd_base.specs.Route.{is_route, are_nodes};
ghost use Rattle.frame_codec.specs.Reading.{Finds, named, of_kind, any_kind, sae, size, index, route, last};

use crate::fault::Fault;
use qkd_base::{KeyName, NameKind, NodeNo, Route, SaeNo};

// The name that the first 16 octets encode, if they encode one.
fn name_at(octets: &[u8]) -> Option<KeyName>
    requires { 16 ≤ length octets.now }
    ensures { result ≡ name_at (take 16 octets.now) }
{
    let mut name = [0u8; 16];
    name.copy_from_slice(&octets[..16]);
    KeyName::from_octets(&name)
}

/// A name of any kind.
#[tactic(auto, unfolding(crate::specs::Reading::named))]
pub fn name_of(octets: &[u8]) -> Result<KeyName, Fault>
    ensures found { Finds (λ x. (x, drop 16 octets.now)) result (named any_kind octets.now) }
    ensures whole { OnOk result (16 ≤ length octets.now) }
{
    if octets.len() < 16 {
        return Err(Fault::Left(octets.len()));
    }
    match name_at(octets) {
        Some(name) => Ok(name),
        None => Err(Fault::Left(octets.len())),
    }
}

/// A name of the given kind.
#[tactic(auto, unfolding(crate::specs::Reading::named))]
pub fn name_of_kind(octets: &[u8], kind: NameKind) -> Result<KeyName, Fault>
    ensures found { Finds (λ x. (x, drop 16 octets.now)) result (named (of_kind kind) octets.now) }
    ensures whole { OnOk result (16 ≤ length octets.now) }
{
    if octets.len() < 16 {
        return Err(Fault::Left(octets.len()));
    }
    match name_at(octets) {
        Some(name) if name.kind() == kind => Ok(name),
        _ => Err(Fault::Left(octets.len())),
    }
}

// The first two octets as a number, big-endian.
fn short_at(octets: &[u8]) -> u16
    requires { 2 ≤ length octets.now }
    ensures { result ≡ from_be_bytes w16 (take 2 octets.now) }
{
    u16::from_be_bytes([octets[0], octets[1]])
}

/// The number of an application.
#[tactic(auto, unfolding(crate::specs::Reading::sae))]
pub fn sae_of(octets: &[u8]) -> Result<SaeNo, Fault>
    ensures found { Finds (λ x. (x, drop 2 octets.now)) result (sae octets.now) }
    ensures whole { OnOk result (2 ≤ length octets.now) }
{
    if octets.len() < 2 {
        return Err(Fault::Left(octets.len()));
    }
    match SaeNo::new(short_at(octets)) {
        Some(sae) => Ok(sae),
        None => Err(Fault::Left(octets.len())),
    }
}

/// The number of octets of a key, of a chunk or of a part of a group key: 8 to 512.
#[tactic(auto, unfolding(crate::specs::Reading::size))]
pub fn size_of(octets: &[u8]) -> Result<u16, Fault>
    ensures found { Finds (λ x. (x, drop 2 octets.now)) result (size octets.now) }
    ensures whole { OnOk result (2 ≤ length octets.now) }
{
    if octets.len() < 2 {
        return Err(Fault::Left(octets.len()));
    }
    let size = short_at(octets);
    if 8 <= size && size <= 512 {
        Ok(size)
    } else {
        Err(Fault::Left(octets.len()))
    }
}

/// The index of a chunk.
#[tactic(auto, unfolding(crate::specs::Reading::index))]
pub fn index_of(octets: &[u8]) -> Result<u32, Fault>
    ensures found { Finds (λ x. (x, drop 4 octets.now)) result (index octets.now) }
    ensures whole { OnOk result (4 ≤ length octets.now) }
{
    if octets.len() < 4 {
        return Err(Fault::Left(octets.len()));
    }
    Ok(u32::from_be_bytes([octets[0], octets[1], octets[2], octets[3]]))
}

// The route through the nodes with these numbers, if it has 2 to 9 different nodes.
fn way_of(numbers: &[u8]) -> Option<Route>
    ensures { result ≡ (if is_route numbers.now && are_nodes numbers.now then Some numbers.now else None) }
{
    if 9 < numbers.len() {
        return None;
    }
    let mut room = [NodeNo::new(0)?; 9];
    for (i, number) in numbers.iter().enumerate() {
        room[i] = NodeNo::new(*number)?;
    }
    Route::new(&room[..numbers.len()])
}

/// A route: the number of its nodes, and an octet for each.
#[tactic(auto, unfolding(crate::specs::Reading::route))]
pub fn route_of(octets: &[u8]) -> Result<Route, Fault>
    ensures found { Finds (λ x. (x, drop (1 + length x) octets.now)) result (route octets.now) }
    ensures whole { IfOk result (λ x. 1 + length x ≤ length octets.now) }
{
    let [size, after @ ..] = octets else {
        return Err(Fault::Left(0));
    };
    let size = usize::from(*size);
    if after.len() < size {
        return Err(Fault::Left(octets.len()));
    }
    match way_of(&after[..size]) {
        Some(route) => Ok(route),
        None => Err(Fault::Left(octets.len())),
    }
}

/// The last field: `size` octets, and nothing behind them.
#[tactic(auto, unfolding(crate::specs::Reading::last))]
pub fn last_of(octets: &[u8], size: u16) -> Result<(), Fault>
    ensures { Finds (λ x. octets.now) result (last size octets.now) }
{
    let size = usize::from(size);
    if octets.len() < size {
        return Err(Fault::Left(octets.len()));
    }
    if size < octets.len() {
        return Err(Fault::Left(octets.len() - size));
    }
    Ok(())
}
