// What the tests' values are made of.
ghost use Rattle.std.specs.Prelude.{◌≡◌, ◌<◌, ◌^◌};

use qkd_base::{KeyName, Lane, LinkNo, NameKind, NodeNo, SaeNo, Way};
use std::process::Abort;

/// The node of a number.
pub fn node(number: u8) -> NodeNo
    requires { number < 16 }
    ensures { result ≡ number }
{
    NodeNo::new(number).unwrap()
}

/// The link of a number.
pub fn link(number: u8) -> LinkNo
    requires { number < 32 }
    ensures { result ≡ number }
{
    LinkNo::new(number).unwrap()
}

/// A lane of the link of a number.
pub fn lane(number: u8, way: Way) -> Lane
    requires { number < 32 }
{
    Lane {
        link: link(number),
        way,
    }
}

/// The application of a number.
pub fn sae(number: u16) -> SaeNo
    requires { number < 256 }
{
    SaeNo::new(number).unwrap()
}

/// A name that a node gives.
pub fn name(giver: u8, kind: NameKind, count: u64) -> KeyName
    requires giver { giver < 16 }
    requires first { 0 < count }
    requires last { count < 2 ^ 48 }
{
    KeyName::new(node(giver), kind, count).unwrap()
}

/// Ends a test where one of its cases isn't so, and names the case.
pub fn holds(rt: &impl Abort, case: u64, is_so: bool) {
    assert!(rt; is_so, "case {case}");
}
