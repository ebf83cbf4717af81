// Frames that were received on a lane.
ghost use Rattle.std.specs.Prelude.{◌≡◌, ◌<◌, ◌^◌, ◌↔◌, ◌⊎◌, [], ℕ, IfErr, IfOk, IsTrue};
ghost use Rattle.declared_site.specs.SiteOf.{site_of};
ghost use Rattle.qkd_base.specs.LaneBytes.{lane_octets};
ghost use Rattle.net_model.specs.View.{port_of, incoming_octets};
ghost use Rattle.net_model.specs.Decide.{received_frame};
ghost use Rattle.net_model.specs.Decision.{Does};
ghost use Rattle.net_model.specs.Relay.{receive};
ghost use Rattle.hop_frames.specs.Opening.{Opens, open_of};
ghost use Rattle.hop_frames.specs.Sealing.{hop_sealing};
ghost use Rattle.kme_base.specs.Steps.{IsStep};
ghost use Rattle.kme_node.specs.Holdings.{view, Fits};
ghost use Rattle.kme_journal.specs.Frames.{reply_to, is_match, IsNear};

use hop_frames::{OpenRefusal, Opened, open};
use kme_base::Step;
use kme_node::Node;
use link_segments::Segments;
use net_model::Reply;
use qkd_base::{Lane, Memory};
use std::alloc::Global;

// The place of a fault, as a reply has it.
fn place_of(place: usize) -> u32
    requires { place < 2 ^ 32 }
    ensures { result ≡ place }
{
    place as u32
}

// What a manager answers if octets can't be opened as a frame.
fn reply_to(why: OpenRefusal) -> Reply
    requires { IsNear why }
    ensures { result ≡ reply_to why }
{
    match why {
        OpenRefusal::NotAFrame(place) => Reply::BadFrame {
            place: place_of(place),
        },
        OpenRefusal::WrongLane { link, way } => Reply::WrongLane { link, way },
        OpenRefusal::NoBits(have) => Reply::NoBits { have },
        OpenRefusal::BadTag { given, computed } => Reply::BadTag { given, computed },
        OpenRefusal::NotAPayload(place) => Reply::BadFrame {
            place: place_of(place),
        },
        OpenRefusal::Memory => Reply::Memory,
    }
}

// Opens a frame with these bytes of the lane.
fn open_frame(
    alloc: Global,
    lane: Lane,
    frame: &[u8],
    held: &Segments,
) -> Result<Opened, OpenRefusal>
    ensures opened { Opens result (open_of lane (lane_octets lane.way held.now.blocks) frame.now) }
    ensures near { IfErr result IsNear }
{
    open(alloc, lane, frame, held)
}

// Opens a frame with the bytes that a manager has received for the lane.
fn open_at(alloc: Global, node: &Node, lane: &Lane, frame: &[u8]) -> Result<Opened, OpenRefusal>
    ensures opened { Opens result (open_of lane.now (incoming_octets lane.now (port_of (view node.now) lane.now.link)) frame.now) }
    ensures near { IfErr result IsNear }
{
    match node.ports().get(lane.link) {
        None => open_frame(alloc, *lane, frame, &Segments::new(alloc)),
        Some(end) => open_frame(alloc, *lane, frame, end.segments()),
    }
}

// What an opened frame changes.
fn heard_opened(alloc: Global, node: &Node, lane: Lane, opened: &Opened) -> Result<Step, Reply>
    ensures step { IsStep (view node.now) [] (Does (receive (site_of node.now.site) (view node.now) lane opened.now.offset opened.now.payload)) result }
    ensures fits { IfOk result (Fits node.now) }
{
    node.heard(alloc, lane, opened.offset, &opened.payload)
}

/// What a frame that was received on a lane changes.
pub fn heard(alloc: Global, node: &Node, lane: Lane, frame: &[u8]) -> Result<Step, Reply>
    ensures step { IsStep (view node.now) [] (received_frame (site_of node.now.site) (view node.now) lane (hop_sealing.unseal lane (incoming_octets lane (port_of (view node.now) lane.link)) frame.now)) result }
    ensures fits { IfOk result (Fits node.now) }
{
    let opened = match open_at(alloc, node, &lane, frame) {
        Err(why) => return Err(reply_to(why)),
        Ok(opened) => opened,
    };
    heard_opened(alloc, node, lane, &opened)
}

/// Whether the octets that were received on a lane have a valid tag.
pub fn matches(alloc: Global, node: &Node, lane: Lane, frame: &[u8]) -> Result<bool, Memory>
    ensures { IfOk result (λ does. does ≡ is_match (open_of lane (incoming_octets lane (port_of (view node.now) lane.link)) frame.now)) }
{
    match open_at(alloc, node, &lane, frame) {
        Ok(_) => Ok(true),
        Err(OpenRefusal::NotAPayload(_)) => Ok(true),
        Err(OpenRefusal::Memory) => Err(Memory),
        Err(OpenRefusal::NotAFrame(_)) => Ok(false),
        Err(OpenRefusal::WrongLane { .. }) => Ok(false),
        Err(OpenRefusal::NoBits(_)) => Ok(false),
        Err(OpenRefusal::BadTag { .. }) => Ok(false),
    }
}
