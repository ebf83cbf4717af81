// Routes through the network.
ghost use Rattle.std.specs.Prelude.{◌≡◌, ◌≤◌, ◌<◌, ◌==◌, Some, None, true, length, reverse, take, if◌then◌else◌};
ghost use Rattle.qkd_base.specs.Route.{is_distinct, is_route, are_nodes, first_of, last_of, next_after};

use crate::NodeNo;
use std::marker::Model;

/// The nodes over which a fact goes: 2 to 9 different nodes, so 1 to 8 links. Contracts see it as the list of the
/// nodes' numbers.
#[derive(Clone, Copy, Debug)]
pub struct Route {
    room: [NodeNo; 9],
    size: usize,
}

impl Model for Route {
    ghost use Rattle.std.specs.Prelude.{List, ℕ, take, length};
    ghost use Rattle.qkd_base.specs.Route.{IsRoom, room_of};

    ghost Value = { List ℕ };

    ghost view = { λ a. take a.size a.room };

    ghost invariant = { λ a. IsRoom a.room a.size };

    ghost inverse = { λ ns. record { room = room_of ns; size = length ns } };

    ghost use Rattle.qkd_base.specs.RouteRoom.{same_inside};

    ghost inverse_ok = { same_inside };
}

// Whether no node occurs twice.
fn are_distinct(nodes: &[NodeNo]) -> bool
    ensures { result ≡ is_distinct nodes.now }
{
    for (i, node) in nodes.iter().enumerate() {
        if nodes[i + 1..].contains(node) {
            return false;
        }
    }
    true
}

// For proofs alone: each node's number is below 16.
fn in_range(nodes: &[NodeNo])
    ensures { are_nodes nodes.now ≡ true }
{
    for node in nodes {
        // For the proof: a node's number is below 16.
        let _holds = node.get();
    }
}

// Makes the route of these nodes. In its array, the places after them repeat the first node.
fn in_room(nodes: &[NodeNo]) -> Route
    requires route { is_route nodes.now ≡ true }
    requires in_range { are_nodes nodes.now ≡ true }
    ensures { result ≡ nodes.now }
{
    let size = nodes.len();
    let mut room = [nodes[0]; 9];
    room[..size].copy_from_slice(nodes);
    Route { room, size }
}

impl Route {
    /// The route over these nodes. `None` unless they are 2 to 9 nodes, all different.
    pub fn new(nodes: &[NodeNo]) -> Option<Self>
        ensures { result ≡ (if is_route nodes.now then Some nodes.now else None) }
    {
        let size = nodes.len();
        if size < 2 || 9 < size || !are_distinct(nodes) {
            return None;
        }
        in_range(nodes);
        Some(in_room(nodes))
    }

    /// The nodes of the route in order.
    pub fn as_slice(&self) -> &[NodeNo]
        ensures nodes { result.now ≡ self.now }
        ensures route { is_route self.now ≡ true }
        ensures in_range { are_nodes self.now ≡ true }
    {
        &self.room[..self.size]
    }

    /// The route back: the same nodes from last to first.
    pub fn reversed(&self) -> Self
        ensures { result ≡ reverse self.now }
    {
        let mut room = self.room;
        let nodes = &mut room[..self.size];
        nodes.reverse();
        in_room(nodes)
    }

    /// The node directly after this one. `None` if this one is the route's last node, or isn't on the route.
    #[tactic(auto, using(crate::proofs::Routes::after_steps))]
    pub fn next_after(&self, node: NodeNo) -> Option<NodeNo>
        ensures { result ≡ next_after self.now node }
    {
        let mut rest = self.as_slice();
        while 2 <= rest.len() {
            if rest[0] == node {
                return Some(rest[1]);
            }
            rest = &rest[1..];
        }
        None
    }

    /// The origin: the first node.
    pub fn first(&self) -> NodeNo
        ensures { result ≡ first_of self.now }
    {
        self.room[0]
    }

    /// The target: the last node.
    pub fn last(&self) -> NodeNo
        ensures { result ≡ last_of self.now }
    {
        self.room[self.size - 1]
    }
}
