// What report lines say of starts.
use crate::lines::{says, site};
use run_types::{Item, StartResult};

const STARTS: [(StartResult, &str); 5] = [
    (StartResult::Started, "started"),
    (StartResult::WasUp, "up"),
    (StartResult::Stopped, "stopped"),
    (StartResult::Foreign { place: 16 }, "foreign 16"),
    (StartResult::Memory, "memory"),
];

#[test]
fn each_start_has_its_text(rt: HostRuntime) {
    let alloc = rt.alloc();
    let Ok(site) = site(alloc) else {
        panic!(rt; "no site");
    };
    says(&rt, alloc, &site, Item::Crashed, "crashed");
    for (result, text) in &STARTS {
        says(&rt, alloc, &site, Item::Start(*result), text);
    }
    says(&rt, alloc, &site, Item::Armed, "armed");
}
