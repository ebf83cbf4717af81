// A manager's replies, and what they are answered.
use super::answers::{note, response_text};
use net_model::{Event, Reply};
use qkd_base::{Items, KeyName, Keys, Memory, NameKind, NodeNo, Octets, SaeNo};
use qkd014_api::Api;
use std::alloc::Global;

const ROWS: &[&str] = &[
    "400 {\"message\":\"key 3 is unknown\"} close",
    "400 {\"message\":\"key 0 is repeated\"} close",
    "400 {\"message\":\"key 0 was handed already\"} close",
    "401 {\"message\":\"not allowed\"} close",
    "503 {\"message\":\"2 keys ready\"} close",
    "503 {\"message\":\"manager down\"} close",
    "503 {\"message\":\"manager stopped\"} close",
    "503 {\"message\":\"journal full\"} close",
    "500 {\"message\":\"out of memory\"} close",
    "200 {\"key_size\":256,\"master_SAE_ID\":\"alice\",\"max_SAE_ID_count\":4,\"max_key_count\":4096,\"max_key_per_request\":128,\"max_key_size\":4096,\"min_key_size\":64,\"slave_SAE_ID\":\"bob\",\"source_KME_ID\":\"A\",\"stored_key_count\":1,\"target_KME_ID\":\"B\"} close",
    "200 {\"keys\":[]} close",
    "200 {\"keys\":[{\"key\":\"AAECAwQFBgcICQoLDA0ODxAREhMUFRYXGBkaGxwdHh8=\",\"key_ID\":\"00000000-0000-8000-8000-000000000001\"}]} close",
    "200 {\"keys\":[{\"key\":\"/+8=\",\"key_ID\":\"00000000-0000-8000-8000-000000000001\"},{\"key\":\"\",\"key_ID\":\"00000000-0000-8000-8000-000000000002\"}]} close",
];

const KEY: &[u8] =
    b"\x00\x01\x02\x03\x04\x05\x06\x07\x08\x09\x0a\x0b\x0c\x0d\x0e\x0f\x10\x11\x12\x13\x14\x15\x16\x17\x18\x19\x1a\x1b\x1c\x1d\x1e\x1f";

// The reply of a row.
fn reply(alloc: Global, row: usize) -> Result<Reply, Memory> {
    let reply = match row {
        0 => Reply::Unknown { place: 3 },
        1 => Reply::Repeated { place: 0 },
        2 => Reply::AlreadyHanded { place: 0 },
        3 => Reply::NotAllowed,
        4 => Reply::Few { count: 2 },
        5 => Reply::Down,
        6 => Reply::Stopped,
        7 => Reply::JournalFull { length: 1, need: 2 },
        8 => Reply::Memory,
        9 => Reply::ReadyCount { count: 1 },
        10 => handed(alloc, &[])?,
        11 => handed(alloc, &[KEY])?,
        _ => handed(alloc, &[b"\xff\xef", b""])?,
    };
    Ok(reply)
}

// A key of node A.
fn key(alloc: Global, count: u64, bytes: &[u8]) -> Result<(KeyName, Octets), Memory> {
    let node = NodeNo::new(0).ok_or(Memory)?;
    let name = KeyName::new(node, NameKind::Key, count).ok_or(Memory)?;
    let bytes = Octets::from_slice(alloc, bytes)?;
    Ok((name, bytes))
}

// The first keys, with these bytes.
fn handed(alloc: Global, keys_bytes: &[&[u8]]) -> Result<Reply, Memory> {
    let mut keys: Keys = Items::new(alloc);
    let mut count = 1u64;
    for bytes in keys_bytes {
        keys.push(key(alloc, count, bytes)?)?;
        count = count.saturating_add(1);
    }
    Ok(Reply::Handed { keys })
}

/// Notes the replies to alice's question how many keys are ready for bob that are answered otherwise.
pub(super) fn compare(alloc: Global, api: &Api, wrong: &mut String) -> Result<(), Memory> {
    let master = SaeNo::new(0).ok_or(Memory)?;
    let slave = SaeNo::new(1).ok_or(Memory)?;
    let event = Event::Status { master, slave };
    for (row, want) in ROWS.iter().enumerate() {
        let response = api.response_of(alloc, &event, &reply(alloc, row)?, true)?;
        let found = response_text(alloc, &response)?;
        note(want, found.as_str(), want, wrong)?;
    }
    Ok(())
}
