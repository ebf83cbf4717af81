use scenario_gen::scenario_of;
use scenario_text::read_scenario;

// Written by a script of its own from what a load is.
const LOAD_OF_ONE: &str = "node n0
node n1
node n2
node n3
node n4
node n5
node n6
node n7
link n0 n1
link n1 n2
link n2 n3
link n3 n4
link n4 n5
link n5 n6
link n6 n7
link n0 n7
sae s0 n0
sae s1 n1
sae s2 n2
sae s3 n3
sae s4 n4
sae s5 n5
sae s6 n6
sae s7 n7
allow s0 s1
allow s0 s2
allow s0 s3
allow s0 s4
allow s0 s5
allow s0 s6
allow s0 s7
allow s1 s0
allow s1 s2
allow s1 s3
allow s1 s4
allow s1 s5
allow s1 s6
allow s1 s7
allow s2 s0
allow s2 s1
allow s2 s3
allow s2 s4
allow s2 s5
allow s2 s6
allow s2 s7
allow s3 s0
allow s3 s1
allow s3 s2
allow s3 s4
allow s3 s5
allow s3 s6
allow s3 s7
allow s4 s0
allow s4 s1
allow s4 s2
allow s4 s3
allow s4 s5
allow s4 s6
allow s4 s7
allow s5 s0
allow s5 s1
allow s5 s2
allow s5 s3
allow s5 s4
allow s5 s6
allow s5 s7
allow s6 s0
allow s6 s1
allow s6 s2
allow s6 s3
allow s6 s4
allow s6 s5
allow s6 s7
allow s7 s0
allow s7 s1
allow s7 s2
allow s7 s3
allow s7 s4
allow s7 s5
allow s7 s6
bits 0 both 2
bits 1 both 2
bits 2 both 2
bits 3 both 2
bits 4 both 2
bits 5 both 2
bits 6 both 2
bits 7 both 2
fill s0 s1 256 4
settle 40
enc n0 s0 s1 4 256
dec n1 s1 s0 00000000-0000-8000-8000-000000000001 00000000-0000-8000-8000-000000000002 00000000-0000-8000-8000-000000000003 00000000-0000-8000-8000-000000000004
ledger 0 up
ledger 0 down
ledger 1 up
ledger 1 down
ledger 2 up
ledger 2 down
ledger 3 up
ledger 3 down
ledger 4 up
ledger 4 down
ledger 5 up
ledger 5 down
ledger 6 up
ledger 6 down
ledger 7 up
ledger 7 down
end
";

// The length of a text, and its FNV-1a hash of 64 bits.
fn length_and_hash(octets: &[u8]) -> (usize, u64) {
    let mut hash = 0xcbf29ce484222325u64;
    for octet in octets {
        hash = (hash ^ u64::from(*octet)).wrapping_mul(0x100000001b3);
    }
    (octets.len(), hash)
}

#[test]
fn a_load_of_one_round_has_its_text(rt: HostRuntime) {
    let Ok(text) = scenario_of(rt.alloc(), 1) else {
        panic!(rt; "no memory");
    };
    assert!(rt; text.as_slice() == LOAD_OF_ONE.as_bytes());
}

#[test]
fn loads_have_their_lengths_and_are_read(rt: HostRuntime) {
    let Ok(text) = scenario_of(rt.alloc(), 20) else {
        panic!(rt; "no memory");
    };
    assert!(rt; length_and_hash(text.as_slice()) == (5376, 0xf0544cce4f17fd28));
    let Ok(text) = scenario_of(rt.alloc(), 500) else {
        panic!(rt; "no memory");
    };
    assert!(rt; length_and_hash(text.as_slice()) == (104752, 0x7b02f68c9a46fd7c));
    assert!(rt; read_scenario(rt.alloc(), text.as_slice()).is_ok());
}
