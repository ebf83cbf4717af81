// What the tests share.
use std::process::Abort;

/// Ends a test where one of its cases isn't so, and names the case.
pub fn holds(rt: &impl Abort, case: u64, is_so: bool) {
    assert!(rt; is_so, "case {case}");
}
