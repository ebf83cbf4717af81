// What the tests share.
use disk_model::Image;
use std::process::Abort;

pub const IMAGES: [Image; 3] = [Image::Lost, Image::Kept, Image::Torn];

// Ends a test where one of its cases isn't so, and names the case.
pub fn holds(rt: &impl Abort, case: u64, is_so: bool) {
    assert!(rt; is_so, "case {case}");
}

// Ends a test where one of its cases isn't so, and names the case by a place and what stands there.
pub fn holds_at(rt: &impl Abort, at: usize, octet: u8, is_so: bool) {
    assert!(rt; is_so, "octet {at} made {octet}");
}
