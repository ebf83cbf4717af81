// The trait of networks that carry out what a run asks for.
ghost use Rattle.std.specs.Prelude.{◌≡◌, ◌^◌, ◌<◌, ◌≤◌, ◌+◌, ◌++◌, ℕ, Bool, true, List, [], length, OnErr, IfOk};
ghost use Rattle.qkd_base.specs.declared.lane.Lane.{Lane as LaneValue};
ghost use Rattle.declared_site.specs.SiteOf.{site_of};
ghost use Rattle.declared_site.specs.declared.site.Site.{Site as SiteValue};
ghost use Rattle.net_model.specs.Site.{Site as NetworkSite};
ghost use Rattle.net_model.specs.World.{Network, World};
ghost use Rattle.net_model.specs.Ledger.{ledger};
ghost use Rattle.net_model.specs.Events.{is_lane};
ghost use Rattle.net_model.specs.Action.{Action, Ok as Fine, Recovers, Replies, Armed, LinkSet, Start as Starts, Crash as Crashes, Arm as Arms, SetLink, TakeBlock, Ask, Deliver, Flip, Forge};
ghost use Rattle.run_model.specs.Script.{asks, Ends};
ghost use Rattle.run_model.specs.Lines.{ticked};
ghost use Rattle.run_ops.specs.Reported.{delivered, taken, started, crashed};
ghost use Rattle.run_ops.specs.Fitting.{is_fit};
ghost use Rattle.run_ops.specs.Acting.{IsReady, Does, Begins, Plays, fault_of, tampered};

use crate::{BlockTake, Delivery, Tampered};
use declared_site::Site;
use disk_model::Arm;
use net_model::{Counts4, Event, Reply};
use qkd_base::{Items, Lane, LinkNo, Memory, NodeNo};
use run_types::{Item, StartResult};

/// A network of managers, lanes and devices that carries out what a scenario's lines ask for. Each call is one action
/// of the abstract network, or the script of a tick. It comes with the answers of the outside, that is of disks,
/// entropies, devices and wires. If memory runs out, the run ends.
pub trait Acts {
    /// The declared site.
    ghost site: { Self → SiteValue };

    /// The network, and its state (the world), that the value stands for.
    ghost stands: { Self → Network → World → Type 0 };

    /// The network and the world in which the value may be left when the run ends. Its disks and wires then show that
    /// world.
    ghost rests: { Self → Network → World → Type 0 };

    /// Between the two values, the parts failed and the disks were armed with faults as these actions say.
    ghost tallied: { Self → Self → NetworkSite → List Action → Type 0 };

    /// An upper bound on how often a disk was armed.
    ghost armed: { Self → ℕ };

    /// The declared site.
    fn declared(&self) -> &Site
        ensures { result.now ≡ site self.now };

    /// Whether a node's manager is up.
    fn is_up(&self, node: NodeNo) -> bool
        requires { node < length (site self.now).nodes }
        ensures { (net : Network) (w : World) → stands self.now net w → result ≡ w.up node };

    /// How many frames stand on a lane's wire.
    fn on_wire(&self, lane: Lane) -> u64
        requires { is_lane (site_of (site self.now)) lane ≡ true }
        ensures { (net : Network) (w : World) → stands self.now net w → result ≡ length (w.wire lane) };

    /// Counts the bytes of a lane by what became of them.
    fn counts(&self, lane: Lane) -> Counts4
        requires { is_lane (site_of (site self.now)) lane ≡ true }
        ensures { (net : Network) (w : World) → stands self.now net w → result ≡ ledger w lane };

    /// Hands an event to a node's manager. The event is not a plan.
    fn ask(&mut self, node: NodeNo, event: &Event) -> Reply
        requires fit { is_fit (site_of (site self.old)) (Ask node event.now Fine) ≡ true }
        requires ready { (net : Network) × (w : World) × IsReady stands self.old net w }
        ensures site { site self.new ≡ site self.old }
        ensures armed { armed self.new ≡ armed self.old }
        ensures done { (net : Network) (w : World) → IsReady stands self.old net w → Does stands tallied self.old self.new net w (Ask node event.now Fine) (Replies result) };

    /// A node takes the next block of bytes of a link.
    fn take_block(&mut self, node: NodeNo, link: LinkNo) -> Result<BlockTake, Memory>
        requires fit { is_fit (site_of (site self.old)) (TakeBlock node link Fine) ≡ true }
        requires ready { (net : Network) × (w : World) × IsReady stands self.old net w }
        ensures site { site self.new ≡ site self.old }
        ensures armed { armed self.new ≡ armed self.old }
        ensures done { IfOk result (λ take. (net : Network) (w : World) → IsReady stands self.old net w → Does stands tallied self.old self.new net w (TakeBlock node link Fine) (taken take)) }
        ensures left { OnErr result ((net : Network) (w : World) → IsReady stands self.old net w → Begins rests tallied self.old self.new net w (asks (TakeBlock node link Fine) (λ outcome. []))) };

    /// One tick of a node: its manager plans, the frames are put on their wires, and the manager is told what became
    /// of them. Returns the items that report the tick. A quiet tick with nothing to send reports nothing.
    fn tick(&mut self, node: NodeNo, quiet: bool) -> Result<Items<Item>, Memory>
        requires node { node < length (site self.old).nodes }
        requires ready { (net : Network) × (w : World) × IsReady stands self.old net w }
        ensures site { site self.new ≡ site self.old }
        ensures armed { armed self.new ≡ armed self.old }
        ensures done { IfOk result (λ items. (net : Network) (w : World) → IsReady stands self.old net w → Plays stands tallied self.old self.new net w (ticked net.site quiet node) items) }
        ensures left { OnErr result ((net : Network) (w : World) → IsReady stands self.old net w → Begins rests tallied self.old self.new net w (ticked net.site quiet node)) };

    /// Passes the frame with a number on a lane's wire to the lane's receiver.
    fn pass(&mut self, lane: Lane, number: u64) -> Result<Delivery, Memory>
        requires fit { is_fit (site_of (site self.old)) (Deliver lane number Fine) ≡ true }
        requires ready { (net : Network) × (w : World) × IsReady stands self.old net w }
        ensures site { site self.new ≡ site self.old }
        ensures armed { armed self.new ≡ armed self.old }
        ensures done { IfOk result (λ delivery. (net : Network) (w : World) → IsReady stands self.old net w → Does stands tallied self.old self.new net w (Deliver lane number Fine) (delivered delivery)) }
        ensures left { OnErr result ((net : Network) (w : World) → IsReady stands self.old net w → Begins rests tallied self.old self.new net w (asks (Deliver lane number Fine) (λ outcome. []))) };

    /// Passes the frame with a number on a lane's wire to the receiver, with one bit changed.
    fn flip(&mut self, lane: Lane, number: u64, bit: u32) -> Result<Tampered, Memory>
        requires fit { is_fit (site_of (site self.old)) (Flip lane number bit Fine) ≡ true }
        requires ready { (net : Network) × (w : World) × IsReady stands self.old net w }
        ensures site { site self.new ≡ site self.old }
        ensures armed { armed self.new ≡ armed self.old }
        ensures done { IfOk result (λ found. (net : Network) (w : World) → IsReady stands self.old net w → Does stands tallied self.old self.new net w (Flip lane number bit Fine) (tampered found)) }
        ensures left { OnErr result ((net : Network) (w : World) → IsReady stands self.old net w → Begins rests tallied self.old self.new net w (asks (Flip lane number bit Fine) (λ outcome. []))) };

    /// Passes any octets to a lane's receiver.
    fn forge(&mut self, lane: Lane, octets: &[u8]) -> Result<Tampered, Memory>
        requires fit { is_fit (site_of (site self.old)) (Forge lane octets.now Fine) ≡ true }
        requires ready { (net : Network) × (w : World) × IsReady stands self.old net w }
        ensures site { site self.new ≡ site self.old }
        ensures armed { armed self.new ≡ armed self.old }
        ensures done { IfOk result (λ found. (net : Network) (w : World) → IsReady stands self.old net w → Does stands tallied self.old self.new net w (Forge lane octets.now Fine) (tampered found)) }
        ensures left { OnErr result ((net : Network) (w : World) → IsReady stands self.old net w → Begins rests tallied self.old self.new net w (asks (Forge lane octets.now Fine) (λ outcome. []))) };

    /// A node's manager crashes. Returns whether it was up before.
    fn crash(&mut self, node: NodeNo) -> bool
        requires fit { is_fit (site_of (site self.old)) (Crashes node) ≡ true }
        requires ready { (net : Network) × (w : World) × IsReady stands self.old net w }
        ensures site { site self.new ≡ site self.old }
        ensures armed { armed self.new ≡ armed self.old }
        ensures done { (net : Network) (w : World) → IsReady stands self.old net w → Does stands tallied self.old self.new net w (Crashes node) (crashed result) };

    /// Starts a node's manager from its disk.
    fn start(&mut self, node: NodeNo) -> Result<StartResult, Memory>
        requires fit { is_fit (site_of (site self.old)) (Starts node (Recovers Bool.false)) ≡ true }
        requires ready { (net : Network) × (w : World) × IsReady stands self.old net w }
        ensures site { site self.new ≡ site self.old }
        ensures armed { armed self.new ≡ armed self.old }
        ensures done { IfOk result (λ start. (net : Network) (w : World) → IsReady stands self.old net w → Does stands tallied self.old self.new net w (Starts node (Recovers Bool.false)) (started start)) }
        ensures left { OnErr result ((net : Network) (w : World) → IsReady stands self.old net w → Begins rests tallied self.old self.new net w (asks (Starts node (Recovers Bool.false)) (λ outcome. []))) };

    /// Arms a node's disk with a fault.
    fn arm(&mut self, node: NodeNo, arm: Arm)
        requires fit { is_fit (site_of (site self.old)) (Arms node (fault_of arm)) ≡ true }
        requires ready { (net : Network) × (w : World) × IsReady stands self.old net w }
        requires few { armed self.old < 2 ^ 32 }
        ensures site { site self.new ≡ site self.old }
        ensures armed { armed self.new ≤ armed self.old + 1 }
        ensures done { (net : Network) (w : World) → IsReady stands self.old net w → Does stands tallied self.old self.new net w (Arms node (fault_of arm)) Armed };

    /// Sets a link up or down.
    fn set_link(&mut self, link: LinkNo, up: bool)
        requires fit { is_fit (site_of (site self.old)) (SetLink link up) ≡ true }
        requires ready { (net : Network) × (w : World) × IsReady stands self.old net w }
        ensures site { site self.new ≡ site self.old }
        ensures armed { armed self.new ≡ armed self.old }
        ensures done { (net : Network) (w : World) → IsReady stands self.old net w → Does stands tallied self.old self.new net w (SetLink link up) LinkSet };

    /// The network's site is the declared one.
    ghost is_sited: { (s : Self) (net : Network) (w : World) → stands s net w → net.site ≡ site_of (site s) };

    /// Wherever the value stands for a world, the run may end and leave it there.
    ghost comes_to_rest: { (s : Self) (net : Network) (w : World) → stands s net w → rests s net w };

    /// From a value to itself, no action happened.
    ghost none_tallied: { (s : Self) (net : Network) (w : World) → stands s net w → tallied s s net.site [] };

    /// If `xs` happened from `a` to `b` and `ys` from `b` to `c`, then `xs` and after them `ys` happened from `a` to
    /// `c`.
    ghost more_tallied: { (a b c : Self) (sited : NetworkSite) (xs ys : List Action) → tallied a b sited xs → tallied b c sited ys → tallied a c sited (xs ++ ys) };
}
