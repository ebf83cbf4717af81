// Errors of opening a frame.
use std::error::Error;
use std::fmt;

/// Why octets were not opened as a frame of a lane. The first reason that applies is returned.
#[derive(Clone, Copy, Debug, PartialEq, Eq)]
pub enum OpenRefusal {
    /// The octets don't have the form of a frame. The place is the octet at which they are refused, or their number if they
    /// are too few for a header and a tag.
    NotAFrame(usize),
    /// The frame's link and way octets are those of another lane.
    WrongLane { link: u8, way: u8 },
    /// The frame needs lane bytes that have not come. The number says how many have.
    NoBits(u64),
    /// The tag is wrong: the tag in the frame, and the tag that the lane's bytes give.
    BadTag { given: u64, computed: u64 },
    /// The tag is right, but the payload is not in its grammar. The place is the octet of the payload at which it is refused.
    NotAPayload(usize),
    /// Memory ran out. The frame can be opened.
    Memory,
}

impl fmt::Display for OpenRefusal {
    ghost use Rattle.std.specs.Prelude.{Some};
    ghost use Rattle.hop_frames.specs.Sayings.{said_of};

    ghost output = { λ r. Some (said_of r) };

    fn fmt<W: fmt::Write>(&self, f: &mut fmt::Formatter<W>) -> fmt::Result {
        match self {
            OpenRefusal::NotAFrame(place) => write!(f, "no frame, from octet {place} on"),
            OpenRefusal::WrongLane { link, way } => write!(f, "of link {link} and way {way}"),
            OpenRefusal::NoBits(have) => write!(f, "no bits past {have}"),
            OpenRefusal::BadTag { given, computed } => {
                write!(f, "tag {given:016x} in place of {computed:016x}")
            }
            OpenRefusal::NotAPayload(place) => write!(f, "no payload, from octet {place} on"),
            OpenRefusal::Memory => write!(f, "out of memory"),
        }
    }
}

impl Error for OpenRefusal {}
