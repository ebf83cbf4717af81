// Why there is no route.

use std::error::Error;
use std::fmt;

/// Why there is no route between two nodes.
#[derive(Clone, Copy, Debug, PartialEq, Eq)]
pub enum RouteRefusal {
    /// The two nodes are the same node.
    SameNode,
    /// No walk over links that are up has at most 8 links.
    NoRoute,
}

impl fmt::Display for RouteRefusal {
    ghost use Rattle.std.specs.Prelude.{Some};
    ghost use Rattle.route_table.specs.Sayings.{said_of};

    ghost output = { λ r. Some (said_of r) };

    fn fmt<W: fmt::Write>(&self, f: &mut fmt::Formatter<W>) -> fmt::Result {
        match self {
            RouteRefusal::SameNode => write!(f, "both nodes are the same"),
            RouteRefusal::NoRoute => write!(f, "no walk of at most 8 links that are up"),
        }
    }
}

impl Error for RouteRefusal {}
