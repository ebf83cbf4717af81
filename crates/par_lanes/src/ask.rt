// The requests that a lane takes, and its answers.
use lane_sender::Claimed;
use lane_shares::Share;
use qkd_base::FrameOctets;
use source_devices::WireFailed;

/// A worker's request to a lane.
#[derive(Drop)]
pub enum LaneAsk {
    /// Claims the next `need` bytes for a frame. The caller brings a grant of as many bytes.
    Claim {
        need: u64,
        grant: Share,
    },
    /// Puts a frame on the wire for the first time: the first `length` octets of `frame`.
    Put {
        frame: FrameOctets,
        length: u16,
    },
    /// Puts a frame on the wire again: the one with this number. If the wire has none of that number, these octets are put.
    Again {
        number: Option<u64>,
        frame: FrameOctets,
        length: u16,
    },
}

/// A lane's answer.
pub enum LaneAnswer {
    /// The claimed bytes, unspent, with all that their frame's sealing needs of the lane.
    Claimed { claimed: Claimed },
    /// The answer of the wire.
    Placed { answer: Result<u64, WireFailed> },
}
