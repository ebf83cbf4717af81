use crate::cases::holds;
use qkd_base::{FrameOctets, LinkNo, Memory, NodeNo};
use source_devices::{
    Device, Entropy, GeneratedDevice, GeneratedEntropy, MemDevice, MemEntropy, MemWire, RandomFile,
    Shortage, Wire, WireFailed,
};
use std::alloc::Global;
use std::io;

// The first and the last eight octets of each link's list: those of another implementation of ChaCha20 (openssl 3).
const DEVICES: [(u8, u64, u64); 3] = [
    (0, 0x45c9a2bfce1b3324, 0x4674b17dfeb0c54d),
    (5, 0xeaba437c3c79be02, 0x85d8be9e4537b532),
    (31, 0xe8c66d70d60aff4c, 0xc8ed1ae225580710),
];

// A block of a device.
fn block<D: Device>(device: &mut D, number: u32) -> Option<[u8; 1024]> {
    let mut block = [0u8; 1024];
    match device.block(number, &mut block) {
        Ok(()) => Some(block),
        Err(_) => None,
    }
}

// Whether the last block of a link's device ends so, then its first one begins so, and there is none behind the last.
fn is_generated(link: u8, first: u64, last: u64) -> bool {
    let Some(link) = LinkNo::new(link) else {
        return false;
    };
    let mut device = GeneratedDevice::new(link);
    let (Some(end), Some(front)) = (block(&mut device, 1023), block(&mut device, 0)) else {
        return false;
    };
    let mut beyond = [0u8; 1024];
    &end[1016..] == last.to_be_bytes().as_slice()
        && &front[..8] == first.to_be_bytes().as_slice()
        && device.block(1024, &mut beyond) == Err(Shortage::End)
}

#[test]
fn devices_are_generated(rt: HostRuntime) {
    for (link, first, last) in &DEVICES {
        holds(&rt, u64::from(*link), is_generated(*link, *first, *last));
    }
}

// Octets 0 to 7 and 72 to 79 of each node's list: those of another implementation of ChaCha20 (openssl 3).
const ENTROPIES: [(u8, [u8; 3], [u8; 5], [u8; 8]); 3] = [
    (
        0,
        [0xc0, 0x14, 0x5a],
        [0xef, 0x38, 0xc0, 0x07, 0x1b],
        [0xf9, 0x25, 0xc2, 0xa1, 0x51, 0xd3, 0x3b, 0x64],
    ),
    (
        7,
        [0xe3, 0x69, 0x32],
        [0x7d, 0x41, 0x97, 0x43, 0xd2],
        [0xfe, 0x73, 0x0d, 0xfc, 0x74, 0xa9, 0x92, 0xd4],
    ),
    (
        15,
        [0x8f, 0x13, 0x69],
        [0x2b, 0x6f, 0x8a, 0xc5, 0x91],
        [0xab, 0x4d, 0x09, 0x9d, 0xbe, 0xf7, 0x53, 0xbf],
    ),
];

// Whether a node's list begins with these octets, and has the later ones after 64 more.
fn is_drawn(node: u8, first: &[u8; 3], second: &[u8; 5], later: &[u8; 8]) -> bool {
    let Some(node) = NodeNo::new(node) else {
        return false;
    };
    let mut entropy = GeneratedEntropy::new(node);
    let mut three = [0u8; 3];
    let mut five = [0u8; 5];
    let mut many = [0u8; 64];
    let mut eight = [0u8; 8];
    let are_drawn = entropy.draw(&mut three).is_ok()
        && entropy.draw(&mut five).is_ok()
        && entropy.draw(&mut many).is_ok()
        && entropy.draw(&mut eight).is_ok();
    are_drawn && three == *first && five == *second && eight == *later
}

#[test]
fn entropies_are_generated(rt: HostRuntime) {
    for (node, first, second, later) in &ENTROPIES {
        holds(&rt, u64::from(*node), is_drawn(*node, first, second, later));
    }
}

// A device of one block, whose second call fails.
fn short_device(alloc: Global) -> Result<MemDevice, Memory> {
    let octets = vec![in alloc; 7u8; 2047]?;
    Ok(MemDevice::new(octets, vec![in alloc; 1u64]?))
}

#[test]
fn a_device_in_memory_ends_and_fails(rt: HostRuntime) {
    let Ok(mut device) = short_device(rt.alloc()) else {
        panic!(rt; "no memory");
    };
    let mut block = [0u8; 1024];
    assert!(rt; device.block(0, &mut block) == Ok(()));
    assert!(rt; block[0] == 7);
    assert!(rt; block[1023] == 7);
    assert!(rt; device.block(0, &mut block) == Err(Shortage::Failed));
    assert!(rt; device.block(1, &mut block) == Err(Shortage::End));
    assert!(rt; device.block(0, &mut block) == Ok(()));
}

// An entropy of five octets, whose second call fails.
fn short_entropy(alloc: Global) -> Result<MemEntropy, Memory> {
    let octets = b"abcde".to_vec(alloc)?;
    Ok(MemEntropy::new(octets, vec![in alloc; 1u64]?))
}

#[test]
fn an_entropy_in_memory_ends_and_fails(rt: HostRuntime) {
    let Ok(mut entropy) = short_entropy(rt.alloc()) else {
        panic!(rt; "no memory");
    };
    let mut three = [0u8; 3];
    let mut two = [0u8; 2];
    assert!(rt; entropy.draw(&mut three) == Ok(()));
    assert!(rt; entropy.draw(&mut two) == Err(Shortage::Failed));
    assert!(rt; entropy.draw(&mut three) == Err(Shortage::End));
    assert!(rt; three == *b"abc");
    assert!(rt; entropy.draw(&mut two) == Ok(()));
    assert!(rt; two == *b"de");
}

// Whether a wire has that frame under that number.
fn has_frame(wire: &MemWire, number: u64, frame: &[u8; 3]) -> bool {
    let mut room = FrameOctets::new();
    let size = wire.frame(number, &mut room);
    size == Some(3) && &room.octets[..3] == frame.as_slice()
}

#[test]
fn a_wire_keeps_frames_and_repeats(rt: HostRuntime) {
    let alloc = rt.alloc();
    let Ok(fails) = vec![in alloc; 1u64] else {
        panic!(rt; "no memory");
    };
    let mut wire = MemWire::new(alloc, fails);
    assert!(rt; wire.send_new(b"one") == Ok(0));
    assert!(rt; wire.send_new(b"lost") == Err(WireFailed::Fault));
    assert!(rt; wire.send_new(b"two") == Ok(1));
    assert!(rt; wire.count() == 2);
    if wire.count() > 0 {
        assert!(rt; wire.send_again(0) == Ok(2));
    }
    assert!(rt; has_frame(&wire, 0, b"one"));
    assert!(rt; has_frame(&wire, 1, b"two"));
    assert!(rt; has_frame(&wire, 2, b"one"));
    assert!(rt; wire.frame(3, &mut FrameOctets::new()).is_none());
}

// Gives one octet a call, and fails at the third.
#[derive(Drop)]
struct Hesitant {
    calls: u8,
}

impl io::Read for Hesitant {
    fn read(&mut self, into: &mut [u8]) -> io::Result<usize> {
        self.calls = self.calls.saturating_add(1);
        match self.calls {
            3 => Err(io::Error::from(io::ErrorKind::Interrupted)),
            5 => Err(io::Error::from(io::ErrorKind::TimedOut)),
            _ if into.is_empty() => Ok(0),
            _ => {
                into[0] = self.calls;
                Ok(1)
            }
        }
    }
}

#[test]
fn a_random_file_fails_at_its_end(rt: HostRuntime) {
    let mut three = [0u8; 3];
    let mut two = [0u8; 2];
    let mut file = RandomFile::new(b"abcd".as_slice());
    assert!(rt; file.draw(&mut three) == Ok(()));
    assert!(rt; three == *b"abc");
    assert!(rt; file.draw(&mut two) == Err(Shortage::Failed));
    assert!(rt; file.faults() == 1);
}

#[test]
fn a_random_file_fails_by_its_errors_not_by_interruptions(rt: HostRuntime) {
    let mut three = [0u8; 3];
    let mut two = [0u8; 2];
    let mut hesitant = RandomFile::new(Hesitant { calls: 0 });
    assert!(rt; hesitant.draw(&mut two) == Ok(()));
    assert!(rt; two == [1, 2]);
    assert!(rt; hesitant.draw(&mut two) == Err(Shortage::Failed));
    assert!(rt; hesitant.draw(&mut three) == Ok(()));
    assert!(rt; three == [6, 7, 8]);
    assert!(rt; hesitant.faults() == 1);
}
