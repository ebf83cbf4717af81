// The links of the network, and the least walks over the links that are up.
ghost use Rattle.std.specs.Prelude.{◌≡◌, ◌≢◌, ℕ, ◌+◌, ◌<◌, ◌≤◌, ◌==◌, ◌&&◌, ◌||◌, ◌↔◌, IfOk, IfSome, IfNone, Some, None, is_none, true, false, take};
ghost use Rattle.std.specs.List.{position_from};
ghost use Rattle.route_table.specs.Table.{no_links, ends_of, lower_then_higher, with_link, AreApart, IsTable};
ghost use Rattle.route_table.specs.Walk.{links_of, IsLeastWalk, HasRoute};
ghost use Rattle.route_table.specs.Layer.{has_node, leads, is_reached, IsNextTo, AreNextTo, AreLayers, IsFirstStep, IsFirstWalk};

use crate::RouteRefusal;
use qkd_base::{LinkNo, Memory, NodeNo, Replica, Route};
use std::marker::Model;

// A set of nodes, as a flag for each number of a node.
type Nodes = [bool; 16];

/// The links of the network with their ends: at most 32, and at most one for each pair of nodes. They are in a fixed
/// array, so no call allocates memory.
#[derive(Debug, Drop)]
pub struct RouteTable {
    links: [Option<(NodeNo, NodeNo)>; 32],
}

impl Model for RouteTable {
    ghost use Rattle.route_table.specs.Table.{Table, IsTable};

    ghost Value = { Table };

    ghost view = { λ r. r.links };

    ghost invariant = { λ r. IsTable r.links };
}

impl RouteTable {
    /// A table without links.
    pub fn new() -> Self
        ensures { result ≡ no_links }
    {
        RouteTable { links: [None; 32] }
    }

    /// Adds a link between two nodes. The calls `ends` and `link_between` tell whether it may be added.
    pub fn add_link(&mut self, link: LinkNo, a: NodeNo, b: NodeNo)
        requires differ { a ≢ b }
        requires free { ends_of self.old link ≡ None }
        requires apart { AreApart self.old a b }
        ensures { self.new ≡ with_link self.old link a b }
    {
        self.links[link.get() as usize] = Some(in_order(a, b));
    }

    /// The lower and the higher node of a link. `None` if there is no such link.
    pub fn ends(&self, link: LinkNo) -> Option<(NodeNo, NodeNo)>
        ensures ends { result ≡ ends_of self.now link }

        // The invariant of the table.
        ensures table { IsTable self.now }
    {
        self.links[link.get() as usize]
    }

    /// The link between two nodes. `None` if there is none.
    pub fn link_between(&self, a: NodeNo, b: NodeNo) -> Option<LinkNo>
        ensures link { IfSome result (λ link. ends_of self.now link ≡ Some (lower_then_higher a b)) }
        ensures none { IfNone result (AreApart self.now a b) }
    {
        let (low, high) = in_order(a, b);
        for (number, ends) in self.links.iter().enumerate() {
            if *ends == Some((low, high)) {
                return LinkNo::new(number as u8);
            }
        }
        None
    }

    /// The first number that no link has yet. `None` if there are 32 links.
    pub fn free_link(&self) -> Option<LinkNo>
        ensures link { result ≡ position_from is_none 0 self.now }
        ensures free { IfSome result (λ link. ends_of self.now link ≡ None) }
    {
        for (number, ends) in self.links.iter().enumerate() {
            if ends.is_none() {
                return LinkNo::new(number as u8);
            }
        }
        None
    }

    /// The least walk from one node to another: it has the fewest links, and of such walks it is the first in the order
    /// of node numbers. Bit l of `up` says whether link l is up. A walk has at most 8 links. The time grows with the
    /// number of links, not with the number of walks.
    pub fn route(&self, up: u32, from: NodeNo, to: NodeNo) -> Result<Route, RouteRefusal>
        ensures same_node { (result ≡ Err RouteRefusal.SameNode) ↔ (from ≡ to) }
        ensures no_route { (result ≡ Err RouteRefusal.NoRoute) ↔ (¬ HasRoute self.now up from to) }
        ensures least { IfOk result (λ walk. IsLeastWalk self.now up from to walk) }
        ensures short { IfOk result (λ walk. links_of walk ≤ 8) }
    {
        if from == to {
            return Err(RouteRefusal::SameNode);
        }
        let layers = self.layers(up, to);
        let Some(links) = fewest_links(&layers, from) else {
            return Err(RouteRefusal::NoRoute);
        };
        let nodes = self.first_walk(up, from, to, links, &layers);
        Ok(Route::new(&nodes[..links + 1]).unwrap())
    }

    // For each number of links from 0 to 8, the nodes from which a walk of that many links leads to a node.
    fn layers(&self, up: u32, to: NodeNo) -> [Nodes; 9]
        ensures { AreLayers self.now up to result }
    {
        let mut layers = [only(to); 9];
        for links in 0..8 {
            layers[links + 1] = self.next_to(up, &layers[links]);
        }
        layers
    }

    // The nodes that are next to one of these nodes: a link that is up joins the two.
    fn next_to(&self, up: u32, near: &Nodes) -> Nodes
        ensures { AreNextTo self.now up near.now result }
    {
        let mut far = [false; 16];
        for (link, ends) in self.links.iter().enumerate() {
            cross(*ends, up & (1 << link) != 0, near, &mut far);
        }
        far
    }

    // The first walk of a given number of links. The layers are those of its last node. At first, this node fills the
    // array.
    fn first_walk(
        &self,
        up: u32,
        from: NodeNo,
        to: NodeNo,
        links: usize,
        layers: &[Nodes; 9],
    ) -> [NodeNo; 9]
        requires layers { AreLayers self.now up to layers.now }
        requires short { links ≤ 8 }
        requires reached { is_reached layers.now links from ≡ true }
        ensures { IsFirstWalk self.now up from to links (take (links + 1) result) }
    {
        let mut nodes = [to; 9];
        let mut here = from;
        for step in 0..links {
            nodes[step] = here;
            here = self.first_step(up, here, &layers[links - 1 - step]);
        }
        nodes
    }

    // The first of these nodes that is next to this one: a link that is up joins the two.
    fn first_step(&self, up: u32, here: NodeNo, near: &Nodes) -> NodeNo
        requires { IsNextTo self.now up near.now here }
        ensures { IsFirstStep self.now up near.now here result }
    {
        let around = self.next_to(up, &only(here));
        first_of_both(&around, near).unwrap_or(here)
    }
}

// The two nodes, the lower one first.
fn in_order(a: NodeNo, b: NodeNo) -> (NodeNo, NodeNo)
    ensures order { result ≡ lower_then_higher a b }
    ensures a_below { a < 16 }
    ensures b_below { b < 16 }
{
    if a.get() < b.get() { (a, b) } else { (b, a) }
}

// The set of one node.
fn only(node: NodeNo) -> Nodes
    ensures { (v : ℕ) → has_node result v ≡ (v == node) }
{
    let mut nodes = [false; 16];
    nodes[node.get() as usize] = true;
    nodes
}

// Adds the nodes that one link reaches from these nodes, in either direction.
fn cross(ends: Option<(NodeNo, NodeNo)>, is_up: bool, near: &Nodes, far: &mut Nodes)
    ensures { (v : ℕ) → has_node far.new v ≡ (has_node far.old v || (is_up && leads ends near.now v)) }
{
    if !is_up {
        return;
    }
    if let Some((low, high)) = ends {
        let (low, high) = (low.get() as usize, high.get() as usize);
        far[high] = far[high] || near[low];
        far[low] = far[low] || near[high];
    }
}

// The first node that is in both sets.
fn first_of_both(some: &Nodes, others: &Nodes) -> Option<NodeNo>
    ensures first { IfSome result (λ v. has_node some.now v && has_node others.now v ≡ true) }
    ensures before { IfSome result (λ v. (w : ℕ) → has_node some.now w && has_node others.now w ≡ true → v ≤ w) }
    ensures none { IfNone result ((w : ℕ) → has_node some.now w && has_node others.now w ≡ false) }
{
    for number in 0..16u8 {
        if some[number as usize] && others[number as usize] {
            return NodeNo::new(number);
        }
    }
    None
}

// The least number of links, at least 1, with which a walk from this node exists.
fn fewest_links(layers: &[Nodes; 9], from: NodeNo) -> Option<usize>
    ensures reached { IfSome result (λ links. (0 < links) × (links ≤ 8) × (is_reached layers.now links from ≡ true)) }
    ensures fewest { IfSome result (λ links. (fewer : ℕ) → 0 < fewer → fewer < links → is_reached layers.now fewer from ≡ false) }
    ensures none { IfNone result ((links : ℕ) → 0 < links → links ≤ 8 → is_reached layers.now links from ≡ false) }
{
    for links in 1..9 {
        if layers[links][from.get() as usize] {
            return Some(links);
        }
    }
    None
}

impl Replica for RouteTable {
    fn copy(&self) -> Result<Self, Memory> {
        let mut links = [None; 32];
        links.copy_from_slice(&self.links);
        Ok(RouteTable { links })
    }
}
