// What the front refuses.
use super::texts::{
    BAD_HEAD, BAD_LENGTH, BODY_TOO_LONG, CODING_REFUSED, HEAD_TOO_LONG, INPUT_ENDED, LENGTH_MISSING,
};
use http_front::FrontRefusal;

/// What the front's refusals are answered.
pub(super) const REFUSALS: &[(FrontRefusal, &str)] = &[
    (FrontRefusal::BadHead, BAD_HEAD),
    (FrontRefusal::TooManyHeaders, BAD_HEAD),
    (FrontRefusal::HeadTooLong, HEAD_TOO_LONG),
    (FrontRefusal::Chunked, CODING_REFUSED),
    (FrontRefusal::NoLength, LENGTH_MISSING),
    (FrontRefusal::BadLength, BAD_LENGTH),
    (FrontRefusal::BodyTooLong, BODY_TOO_LONG),
    (FrontRefusal::EndOfInput, INPUT_ENDED),
];
