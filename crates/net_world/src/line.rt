// The line that tells of the veils.
ghost use Rattle.std.specs.Prelude.{◌≡◌, IfOk};
ghost use Rattle.net_model.specs.World.{Network, World};
ghost use Rattle.run_model.specs.Headline.{given_to};
ghost use Rattle.run_lines.specs.Reporting.{IsBlamed};
ghost use Rattle.net_world.specs.Lanes.{AreLanes, veil_text, veil_line, Tells};

use crate::lanes::veil_lanes;
use crate::veil::Veiled;
use edge_io::Sink;
use lane_sender::LaneSide;
use qkd_base::{Memory, Octets};
use run_lines::Stop;
use source_devices::Wire;
use std::alloc::Global;

#[tactic(auto, unfolding(crate::specs::Lanes::veil_text))]
fn veil_text(alloc: Global, veiled: Veiled) -> Result<Octets, Memory>
    ensures { IfOk result (λ text. text ≡ veil_text veiled.frames veiled.bytes) }
{
    let line = format!(in alloc; "veil {} {}\n", veiled.frames, veiled.bytes)?;
    Octets::from_slice(alloc, line.as_str().as_bytes())
}

/// Computes the veils of all lanes of a network, and writes the number of different frames on their wires and the number of changed bytes.
pub fn tell<X: Wire + Drop, W: Sink>(
    alloc: Global,
    sides: &[LaneSide<X>],
    sink: &mut W,
) -> Result<(), Stop>
    requires ready { (net : Network) × (w : World) × AreLanes X.Wire net w sides.now }
    ensures told { (net : Network) (w : World) → AreLanes X.Wire net w sides.now → Tells (λ k. given_to W.taken W.pieces k) result sink.old sink.new (veil_line net w) }
    ensures blame { IsBlamed (W.faults sink.old) (W.faults sink.new) result }
{
    let Ok(veiled) = veil_lanes(alloc, sides) else {
        return Err(Stop::Memory);
    };
    let Ok(text) = veil_text(alloc, veiled) else {
        return Err(Stop::Memory);
    };
    match sink.write_all(text.as_slice()) {
        Ok(()) => Ok(()),
        Err(_) => Err(Stop::WriteFault),
    }
}
