// Listeners of ports in memory.
ghost use Rattle.std.specs.Prelude.{◌≡◌, [], IfOk};

use edge_io::{MemPorts, MemQueue, MemSocket};
use kme_serve::{DoorRefusal, open_doors, shut_doors};
use qkd_base::Memory;
use std::alloc::Global;
use std::test::Fail;

// Nothing waits, and these calls of the listener fail.
fn queue(alloc: Global, fails: &[u64]) -> Result<MemQueue, Memory> {
    MemQueue::new(alloc, Vec::new(alloc), fails.to_vec(alloc)?)
}

// A port whose listener fails at these calls, and has a twin.
fn socket(alloc: Global, port: u16, fails: &[u64]) -> Result<MemSocket, Memory> {
    let mut twins = Vec::new(alloc);
    twins.push(queue(alloc, &[])?)?;
    Ok(MemSocket::new(port, queue(alloc, fails)?, twins))
}

// Two ports, of which these openings and these calls of the first port's listener fail.
fn ports(alloc: Global, opens: &[u64], calls: &[u64]) -> Result<MemPorts, Memory>
    ensures { IfOk result (λ ports. (ports.asked ≡ []) × (ports.back ≡ [])) }
{
    let mut sockets = Vec::new(alloc);
    sockets.push(socket(alloc, 9001, &[])?)?;
    sockets.push(socket(alloc, 9000, calls)?)?;
    MemPorts::new(alloc, sockets, opens.to_vec(alloc)?)
}

#[test]
fn three_workers_at_two_nodes_have_listeners(rt: HostRuntime) -> Result<(), Fail> {
    let alloc = rt.alloc();
    let mut ports = ports(alloc, &[], &[])?;
    match open_doors(alloc, &mut ports, 9000, 3, 2) {
        Err(_) => assert!(rt; false),
        Ok(doors) => {
            assert_eq!(rt; doors.len(), 3);
            assert_eq!(rt; ports.asked(), [9000, 9001].as_slice());
            shut_doors(&mut ports, doors);
        }
    }
    assert_eq!(rt; ports.back().len(), 3);
    Ok(())
}

#[test]
fn what_fails_gives_listeners_back(rt: HostRuntime) -> Result<(), Fail> {
    let alloc = rt.alloc();
    for (opens, calls, asked, back) in [(0, 7, 1, 0), (1, 7, 2, 1), (7, 0, 2, 2)] {
        let mut ports = ports(alloc, &[opens], &[calls])?;
        let refusal = open_doors(alloc, &mut ports, 9000, 3, 2).err();
        assert_eq!(rt; refusal, Some(DoorRefusal::Listen));
        assert_eq!(rt; (ports.asked().len(), ports.back().len()), (asked, back));
    }
    Ok(())
}
