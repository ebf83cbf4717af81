// There is only one least walk.
ghost use Rattle.std.specs.Prelude.{◌≡◌, ℕ, List};
ghost use Rattle.route_table.specs.Walk.{IsLeastWalk};

use crate::RouteTable;
use qkd_base::NodeNo;

/// A law: between two nodes there is at most one least walk. So any other way to find a least walk finds the one that
/// `RouteTable::route` answers.
pub fn least_walk_is_unique(table: &RouteTable, up: u32, from: NodeNo, to: NodeNo)
    ensures { (walk other : List ℕ) → IsLeastWalk table.now up from to walk → IsLeastWalk table.now up from to other → walk ≡ other }
{}
