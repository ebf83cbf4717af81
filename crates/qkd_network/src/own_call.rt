// The call of the program.
ghost use Rattle.std.specs.Prelude.{◌≡◌, ◌⊎◌};
ghost use Rattle.qkd_base.specs.Faults.{Rose};
ghost use Rattle.kme_serve.specs.Doors.{AreFresh, IsListenFault, ports_told, telling};
ghost use Rattle.net_world.specs.New.{outside};
ghost use Rattle.qkd_network.specs.Outcome.{AsksServe};
ghost use Rattle.qkd_network.specs.declared.status.Status.TheVariants.{ReadFault, WriteFault, ListenFault};
ghost use Rattle.qkd_network.specs.Program.{IsProgram};

use crate::own_bench::new_bench;
use crate::{Status, network};
use disk_model::{Disk, MemDisk};
use edge_io::{Gate, Listener, Ports, Sink, Source};
use qkd_base::Texts;
use source_devices::{Device, Entropy, GeneratedDevice, GeneratedEntropy, MemWire, Wire};
use std::alloc::Global;
use std::sync::Wait;
use std::thread::Threads;

/// Does what the words ask for, as `network` does, over a new bench: empty disks and wires in memory, and devices and entropies that give
/// the same octets in each run. With `Memory` it may be that no bench was made; then nothing was touched.
pub fn program<R: Threads + Wait + Sync, S: Source, W: Sink, P: Ports, G: Gate>(
    rt: &R,
    alloc: Global,
    words: &Texts,
    source: &mut S,
    sink: &mut W,
    ports: &mut P,
    gate: &G,
) -> Status
where
    P::Door: Drop + Send + Sync,
    <P::Door as Listener>::In: Send,
    <P::Door as Listener>::Out: Send,
    requires ports { AreFresh P.asked P.back ports.old }
    ensures outcome { IsProgram (λ s. S.left s) (λ k. W.taken k) W.pieces (outside ⟦<MemDisk as Disk>⟧ ⟦<GeneratedDevice as Device>⟧ ⟦<GeneratedEntropy as Entropy>⟧ ⟦<MemWire as Wire>⟧)
        (telling P.Door.port P.Door.accepted P.Door.finished P.Door.waiting P.Door.done) P.Door.faults P.asked P.back P.queues
        result words.now source.old source.new sink.old sink.new ports.old ports.new }
    ensures ports { AsksServe words.now ⊎ (ports.new ≡ ports.old) }
    ensures read_fault { result ≡ ReadFault → Rose (S.faults source.old) (S.faults source.new) }
    ensures source_calm { (result ≡ ReadFault) ⊎ (S.faults source.new ≡ S.faults source.old) }
    ensures write_fault { result ≡ WriteFault → Rose (W.faults sink.old) (W.faults sink.new) }
    ensures listen_fault { result ≡ ListenFault →
        IsListenFault P.Door.faults (P.faults ports.old) (P.faults ports.new) (ports_told P.asked P.back P.queues ports.old) (ports_told P.asked P.back P.queues ports.new) }
{
    match new_bench(alloc) {
        Ok(mut bench) => network(rt, alloc, words, source, sink, &mut bench, ports, gate),
        Err(_) => Status::Memory,
    }
}
