// The answers of refusals.

pub(super) const BAD_HEAD: &str = "400 {\"message\":\"bad request head\"} close";

pub(super) const HEAD_TOO_LONG: &str = "400 {\"message\":\"head too long\"} close";

pub(super) const CODING_REFUSED: &str = "400 {\"message\":\"transfer encoding refused\"} close";

pub(super) const LENGTH_MISSING: &str = "400 {\"message\":\"length missing\"} close";

pub(super) const BAD_LENGTH: &str = "400 {\"message\":\"bad length\"} close";

pub(super) const BODY_TOO_LONG: &str = "400 {\"message\":\"body too long\"} close";

pub(super) const INPUT_ENDED: &str = "400 {\"message\":\"input ended\"} close";
