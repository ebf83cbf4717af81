// What was done behind a line that the sink didn't take.
use crate::bench::FirstParts;
use crate::run::{ONE_WORKER, ROOM, over, source};
use edge_io::MemSink;
use qkd_network::Status;
use source_devices::Wire;
use std::test::Fail;

// A key, which the master gets by GET /api/v1/keys/bob/enc_keys, and the slave by POST /api/v1/keys/alice/dec_keys.
const DELIVERY: &str = "node A\n\
    node B\n\
    link A B\n\
    sae alice A\n\
    sae bob B\n\
    allow alice bob\n\
    bits 0 both 2\n\
    fill alice bob 256 1\n\
    settle 10\n\
    http A 474554202f6170692f76312f6b6579732f626f622f656e635f6b65797320485454502f312e310d0a582d5341452d49443a20616c6963650d0a0d0a\n\
    http B 504f5354202f6170692f76312f6b6579732f616c6963652f6465635f6b65797320485454502f312e310d0a582d5341452d49443a20626f620d0a436f6e74656e742d4c656e6774683a2036330d0a0d0a7b226b65795f494473223a5b7b226b65795f4944223a2230303030303030302d303030302d383030302d383030302d303030303030303030303031227d5d7d\n\
    end\n";

// A write that fails, and how many frames were put up and down then.
const SETTLED: &[(u64, u64, u64)] = &[(5, 1, 0), (7, 1, 0), (8, 1, 2), (12, 1, 2), (13, 2, 2)];

// A settle's lines are written as things are done: behind one that can't be written no later frame is put.
#[test]
fn a_settle_ends_where_its_line_fails(rt: HostRuntime) -> Result<(), Fail> {
    let alloc = rt.alloc();
    for (call, up, down) in SETTLED {
        let mut source = source(alloc, DELIVERY)?;
        let mut sink = MemSink::new(alloc, ROOM, vec![in alloc; *call]?)?;
        let first = FirstParts::new(alloc, 2)?;
        let (status, bench) = over(&rt, alloc, ONE_WORKER, first, &mut source, &mut sink)?;
        assert_eq!(rt; status, Status::WriteFault, "write {call}");
        let wire = bench.wires.first().ok_or("no wire")?;
        assert_eq!(rt; wire.count(), *up, "write {call}");
        let wire = bench.wires.get(1).ok_or("no wire")?;
        assert_eq!(rt; wire.count(), *down, "write {call}");
    }
    Ok(())
}
