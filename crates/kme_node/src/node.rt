// The state of a manager.
ghost use Rattle.std.specs.Prelude.{◌≡◌, ◌<◌, IfOk, length};
ghost use Rattle.declared_site.specs.SiteOf.{IsDeclared, site_of};
ghost use Rattle.net_model.specs.Fold.{empty_view};
ghost use Rattle.kme_node.specs.Holdings.{view};

use declared_site::Site;
use end_store::EndStore;
use kme_base::Ports;
use kme_facts::Kept;
use kme_relay::Fronts;
use qkd_base::{Memory, NodeNo, Replica};
use relay_core::Known;
use resend_window::Window;
use std::alloc::Global;
use std::marker::Model;
use stream_core::Streams;

/// One key manager (KME) without its disk: its site, its facts and what applications have got, the lanes of its
/// links, and its window.
#[derive(Drop)]
pub struct Node {
    pub(crate) site: Site,
    pub(crate) kept: Kept,
    pub(crate) ports: Ports,
    pub(crate) window: Window,
    // For each lane, the place in the list of facts before which everything owed is on its way.
    pub(crate) fronts: Fronts,
}

impl Model for Node {
    ghost use Rattle.std.specs.Coded.{codes};
    ghost use Rattle.sae_entitlements.specs.Grants.{grants_code};
    ghost use Rattle.kme_node.specs.Holdings.{Holdings, IsNode};

    ghost Value = { Holdings };

    ghost view = { λ n. record { site = n.site; kept = n.kept; ends = n.ports; window = n.window } };

    ghost coded = { Prim.hlevel (codes, grants_code) };

    ghost invariant = { λ n. IsNode (record { site = n.site; kept = n.kept; ends = n.ports; window = n.window }) n.fronts };
}

impl Node {
    /// A manager that has nothing yet. An `Err` if memory runs out.
    pub fn new(alloc: Global, site: &Site, me: NodeNo) -> Result<Node, Memory>
        requires { IsDeclared site.now }
        ensures site { IfOk result (λ node. node.site ≡ site.now) }
        ensures view { IfOk result (λ node. view node ≡ empty_view (site_of site.now) me) }
    {
        let ports = Ports::new(alloc, site, me)?;
        let site = site.copy()?;
        Ok(Node {
            site,
            kept: Kept::new(alloc, me),
            ports,
            window: Window::new(alloc),
            fronts: Fronts::new(),
        })
    }

    /// The number of this node.
    pub fn me(&self) -> NodeNo
        ensures { result ≡ (view self.now).me }
    {
        self.known().me()
    }

    // The facts that are known.
    pub(crate) fn known(&self) -> &Known
        ensures { result.now ≡ self.now.kept.ends.known }
    {
        self.ends().known()
    }

    // The facts, and which application has got what.
    pub(crate) fn ends(&self) -> &EndStore
        ensures { result.now ≡ self.now.kept.ends }
    {
        self.streams().ends()
    }

    // The facts, which application has got what, and the ends of streams.
    pub(crate) fn streams(&self) -> &Streams
        ensures { result.now ≡ self.now.kept }
    {
        self.kept.streams()
    }

    /// The site that the scenario declares.
    pub fn site(&self) -> &Site
        ensures site { result.now ≡ self.now.site }

        // The site is always well declared.
        ensures declared { IsDeclared result.now }
    {
        &self.site
    }

    /// The facts, with their acknowledgements, handed-out keys and closed ends of streams.
    pub fn kept(&self) -> &Kept
        ensures { result.now ≡ self.now.kept }
    {
        &self.kept
    }

    // The window, which is lost at a crash.
    pub(crate) fn window(&self) -> &Window
        ensures { result.now ≡ self.now.window }
    {
        &self.window
    }

    /// This node's ends of links: their blocks, their leases, and the bytes that are planned.
    pub fn ports(&self) -> &Ports
        ensures { result.now ≡ self.now.ends }
    {
        &self.ports
    }
}
