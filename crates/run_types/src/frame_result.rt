// What became of a frame at its receiver.
use crate::payload_kind::PayloadKind;
use crate::refusal::Refusal;
use qkd_base::KeyName;

/// What became of a frame at the lane's receiver. The frame told something new about a name, told nothing new about it,
/// or was refused.
#[derive(Clone, Copy, Debug, PartialEq, Eq)]
pub enum FrameResult {
    Taken { kind: PayloadKind, name: KeyName },
    Again { kind: PayloadKind, name: KeyName },
    Refused(Refusal),
}
