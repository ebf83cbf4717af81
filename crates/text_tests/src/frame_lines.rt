// What report lines say of frames.
use crate::lines::{lane, name, says, site};
use qkd_base::Way;
use run_types::{FrameResult, Item, PayloadKind, Refusal, UnsentCause};

const REFUSALS: [(Refusal, &str); 22] = [
    (Refusal::Down, "down"),
    (Refusal::Stopped, "stopped"),
    (Refusal::Memory, "memory"),
    (Refusal::LinkFull, "link-full 1024"),
    (Refusal::NoBlock, "no-bits"),
    (Refusal::DeviceFault, "device-fault"),
    (Refusal::NotAllowed, "not-allowed"),
    (Refusal::NoRoute, "no-route"),
    (Refusal::PoolFull, "pool-full 4096"),
    (Refusal::UnknownStream, "unknown-stream"),
    (
        Refusal::JournalFull {
            length: 1048570,
            need: 77,
        },
        "journal-full 1048570 77",
    ),
    (Refusal::NoRandom, "no-random"),
    (Refusal::NoFrame { count: 3 }, "no-frame 3"),
    (Refusal::NoBit { bits: 656 }, "no-bit 656"),
    (Refusal::BadFrame { place: 0 }, "bad-frame 0"),
    (Refusal::WrongLane { link: 1, way: 0 }, "wrong-lane 1 0"),
    (Refusal::NoBits { have: 8 }, "no-bits 8"),
    (
        Refusal::BadTag {
            given: 1,
            computed: 18446744073709551615,
        },
        "bad-tag 0000000000000001 ffffffffffffffff",
    ),
    (Refusal::Few { count: 0 }, "few 0"),
    (Refusal::Unknown { place: 1 }, "unknown 1"),
    (Refusal::Repeated { place: 2 }, "repeated 2"),
    (Refusal::Handed { place: 127 }, "handed 127"),
];

#[test]
fn each_refusal_has_its_text(rt: HostRuntime) {
    let alloc = rt.alloc();
    let Ok(site) = site(alloc) else {
        panic!(rt; "no site");
    };
    for (refusal, text) in &REFUSALS {
        says(&rt, alloc, &site, Item::Refused(*refusal), text);
    }
}

#[test]
fn each_sending_has_its_text(rt: HostRuntime) {
    let alloc = rt.alloc();
    let Ok(site) = site(alloc) else {
        panic!(rt; "no site");
    };
    let short = Item::Short {
        lane: lane(31, Way::Down),
        used: 1,
        need: 2,
        received: 18446744073709551615,
    };
    says(
        &rt,
        alloc,
        &site,
        short,
        "short 31 down 1 2 18446744073709551615",
    );
    let sent = Item::Sent {
        lane: lane(0, Way::Up),
        number: 0,
        offset: 8,
        length: 58,
    };
    says(&rt, alloc, &site, sent, "sent 0 up 0 8 58");
    let unsent = Item::Unsent {
        lane: lane(0, Way::Up),
        offset: 74,
        cause: UnsentCause::WireFault,
    };
    says(&rt, alloc, &site, unsent, "unsent 0 up 74 wire-fault");
    let unsent = Item::Unsent {
        lane: lane(31, Way::Down),
        offset: 8,
        cause: UnsentCause::Memory,
    };
    says(&rt, alloc, &site, unsent, "unsent 31 down 8 memory");
}

// What is said of a frame that is passed.
const PASSED: &str = "pass 0 up 4294967295 taken key 00000000-0000-8001-8000-ffffffffffff";

#[test]
fn each_coming_has_its_text(rt: HostRuntime) {
    let alloc = rt.alloc();
    let Ok(site) = site(alloc) else {
        panic!(rt; "no site");
    };
    let passed = Item::Passed {
        lane: lane(0, Way::Up),
        number: 4294967295,
        result: FrameResult::Taken {
            kind: PayloadKind::Key,
            name: name(281474976710655),
        },
    };
    says(&rt, alloc, &site, passed, PASSED);
    let flipped = Item::Flipped {
        lane: lane(31, Way::Down),
        number: 1,
        bit: 655,
        result: FrameResult::Refused(Refusal::NoBits { have: 8 }),
    };
    says(&rt, alloc, &site, flipped, "flip 31 down 1 655 no-bits 8");
}
