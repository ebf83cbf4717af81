// What stands outside of the managers, where it fails or has no more.
use crate::bench::{FirstParts, is_whole, octets};
use crate::run::run;
use qkd_base::Memory;
use qkd_network::Status;
use std::alloc::Global;
use std::test::Fail;

// The frame keeps its bytes, and goes out at the next tick.
const WIRE_FAULT: &str = "node A\n\
    node B\n\
    link A B\n\
    sae alice A\n\
    sae bob B\n\
    allow alice bob\n\
    bits 0 both 2\n\
    fill alice bob 256 1\n\
    tick A\n\
    ledger 0 up\n\
    show A 00000000-0000-8000-8000-000000000001\n\
    tick A\n\
    pass 0 up 0\n\
    tick A\n\
    end\n";

const WIRE_FAULT_REPORT: &str = "7 bits 0 low 0\n\
    7 bits 0 high 0\n\
    7 bits 0 low 1\n\
    7 bits 0 high 1\n\
    8 made 1 00000000-0000-8000-8000-000000000001\n\
    9 tick A new 1 again 0\n\
    9 unsent 0 up 8 wire-fault\n\
    10 ledger 0 up received 1024 unused 950 spent 74 burnt 0\n\
    11 show A 00000000-0000-8000-8000-000000000001 made 000102030405060708090a0b0c0d0e0f101112131415161718191a1b1c1d1e1f\n\
    12 tick A new 0 again 1\n\
    12 sent 0 up 0 8 58\n\
    13 pass 0 up 0 taken key 00000000-0000-8000-8000-000000000001\n\
    14 idle A\n";

// Of two frames the second is refused, and then its repeat once more.
const WIRE_FAULTS: &str = "node A\n\
    node B\n\
    link A B\n\
    sae alice A\n\
    sae bob B\n\
    allow alice bob\n\
    bits 0 both 2\n\
    fill alice bob 256 2\n\
    tick A\n\
    tick A\n\
    tick A\n\
    tick A\n\
    tick A\n\
    ledger 0 up\n\
    end\n";

const WIRE_FAULTS_REPORT: &str = "7 bits 0 low 0\n\
    7 bits 0 high 0\n\
    7 bits 0 low 1\n\
    7 bits 0 high 1\n\
    8 made 2 00000000-0000-8000-8000-000000000001\n\
    9 tick A new 2 again 0\n\
    9 sent 0 up 0 8 58\n\
    9 unsent 0 up 74 wire-fault\n\
    10 tick A new 0 again 1\n\
    10 unsent 0 up 74 wire-fault\n\
    11 tick A new 0 again 1\n\
    11 sent 0 up 1 74 58\n\
    12 idle A\n\
    13 tick A new 0 again 1\n\
    13 sent 0 up 2 8 58\n\
    14 ledger 0 up received 1024 unused 884 spent 140 burnt 0\n";

// The device has two blocks, and fails in its second call. An end that takes no block is left out for the rest of the line.
const DEVICE_FAULT: &str = "node A\n\
    node B\n\
    link A B\n\
    sae alice A\n\
    sae bob B\n\
    allow alice bob\n\
    bits 0 both 2\n\
    bits 0 both 2\n\
    end\n";

const DEVICE_FAULT_REPORT: &str = "7 bits 0 low 0\n\
    7 bits 0 high device-fault\n\
    7 bits 0 low 1\n\
    8 bits 0 low no-bits\n\
    8 bits 0 high 0\n\
    8 bits 0 high 1\n";

// The entropy fails in its first call, and has 48 octets.
const NO_RANDOM: &str = "node A\n\
    node B\n\
    link A B\n\
    sae alice A\n\
    sae bob B\n\
    allow alice bob\n\
    bits 0 both 2\n\
    fill alice bob 256 1\n\
    fill alice bob 256 1\n\
    show A 00000000-0000-8000-8000-000000000001\n\
    fill alice bob 256 1\n\
    fill alice bob 64 2\n\
    show A 00000000-0000-8000-8000-000000000003\n\
    fill alice bob 64 1\n\
    end\n";

const NO_RANDOM_REPORT: &str = "7 bits 0 low 0\n\
    7 bits 0 high 0\n\
    7 bits 0 low 1\n\
    7 bits 0 high 1\n\
    8 no-random\n\
    9 made 1 00000000-0000-8000-8000-000000000001\n\
    10 show A 00000000-0000-8000-8000-000000000001 made 000102030405060708090a0b0c0d0e0f101112131415161718191a1b1c1d1e1f\n\
    11 no-random\n\
    12 made 2 00000000-0000-8000-8000-000000000002\n\
    13 show A 00000000-0000-8000-8000-000000000003 made 28292a2b2c2d2e2f\n\
    14 no-random\n";

// A scenario and its report, how many octets the entropy has, and which calls of the device, of the entropy and of the wire fail.
struct Case {
    text: &'static str,
    report: &'static str,
    drawn: usize,
    device: &'static [u64],
    entropy: &'static [u64],
    wire: &'static [u64],
}

const CASES: &[Case] = &[
    Case {
        text: WIRE_FAULT,
        report: WIRE_FAULT_REPORT,
        drawn: 32,
        device: &[],
        entropy: &[],
        wire: &[0],
    },
    Case {
        text: WIRE_FAULTS,
        report: WIRE_FAULTS_REPORT,
        drawn: 64,
        device: &[],
        entropy: &[],
        wire: &[1, 2],
    },
    Case {
        text: DEVICE_FAULT,
        report: DEVICE_FAULT_REPORT,
        drawn: 0,
        device: &[1],
        entropy: &[],
        wire: &[],
    },
    Case {
        text: NO_RANDOM,
        report: NO_RANDOM_REPORT,
        drawn: 48,
        device: &[],
        entropy: &[0],
        wire: &[],
    },
];

// The parts of a case. Its device has two blocks.
fn parts(alloc: Global, case: &Case) -> Result<FirstParts, Memory> {
    Ok(FirstParts {
        told: octets(alloc, 2048)?,
        drawn: octets(alloc, case.drawn)?,
        device_fails: case.device.to_vec(alloc)?,
        entropy_fails: case.entropy.to_vec(alloc)?,
        wire_fails: case.wire.to_vec(alloc)?,
    })
}

#[test]
fn faults_are_reported(rt: HostRuntime) -> Result<(), Fail> {
    let alloc = rt.alloc();
    for case in CASES {
        let outcome = run(&rt, alloc, case.text, parts(alloc, case)?)?;
        assert_eq!(rt; outcome.status, Status::Done);
        assert_eq!(rt; outcome.report.as_str(), case.report);
        assert!(rt; is_whole(&outcome.bench));
    }
    Ok(())
}
