// Recording what became of frames, lane by lane.
ghost use Rattle.std.specs.Prelude.{◌≡◌, ◌==◌, true, false, map};
ghost use Rattle.std.specs.List.{list_all};
ghost use Rattle.declared_site.specs.SiteOf.{site_of};
ghost use Rattle.net_model.specs.BlockOrder.{is_by_lane};
ghost use Rattle.net_model.specs.Events.{is_lane};
ghost use Rattle.par_frames.specs.Adding.{IsEmpty, IsEnded};
ghost use Rattle.par_frames.specs.Recording.{AddsFrame, AreRecorded};

use crate::frame_placing::placing;
use crate::sent::{answer, is_taken, offset};
use crate::{Log, Refused};
use declared_site::Site;
use kme_base::sender;
use par_lanes::Emitted;
use run_ops::{PutFrame, put_item};
use world_state::lane_place;

// Records what became of a frame: what the sender of its lane notes, and what is reported.
fn record_frame(site: &Site, frame: &Emitted, log: &mut Log)
    ensures whole { log.new.is_whole ≡ true → log.old.is_whole ≡ true }
    ensures added { log.new.is_whole ≡ true → AddsFrame (site_of site.now) frame.now log.old log.new }
{
    let node = usize::from(sender(site, frame.lane).get());
    let from = offset(&frame.sent);
    let item = put_item(frame.lane, from, frame.size, answer(&frame.sent));
    let refused = Refused {
        offset: from,
        frame: PutFrame {
            place: frame.line,
            item,
        },
    };
    log.add(node, placing(frame), is_taken(&frame.sent), refused);
}

// Ends the recording of a lane if the next frame is of another lane.
fn go_on(place: usize, next: usize, log: &mut Log)
    ensures whole { log.new.is_whole ≡ true → log.old.is_whole ≡ true }
    ensures same { (place == next) ≡ true → log.new ≡ log.old }
    ensures ended { (place == next) ≡ false → log.new.is_whole ≡ true → IsEnded log.old log.new }
{
    if place != next {
        log.end_lane();
    }
}

/// Records what became of frames that come lane by lane, in a log that is still empty.
pub fn record_frames(site: &Site, frames: &[Emitted], log: &mut Log)
    requires lanes { list_all (λ e. is_lane (site_of site.now) e.lane) frames.now ≡ true }
    requires order { is_by_lane (map (λ e. e.lane) frames.now) ≡ true }
    ensures whole { log.new.is_whole ≡ true → log.old.is_whole ≡ true }
    ensures recorded { log.new.is_whole ≡ true → IsEmpty (site_of site.now).nodes log.old → AreRecorded (site_of site.now) frames.now log.new }
{
    let mut place = 0;
    for frame in frames {
        let next = lane_place(frame.lane);
        go_on(place, next, log);
        record_frame(site, frame, log);
        place = next;
    }
    log.end_lane();
}
