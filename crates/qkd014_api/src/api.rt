ghost use Rattle.std.specs.Prelude.{◌≡◌, IfOk};
ghost use Rattle.qkd014_api.specs.Resources.{routes};

use crate::resource::Resource;
use declared_site::Site;
use matchit::Router;
use qkd_base::{Memory, Replica, Texts};
use sae_entitlements::Entitlements;
use std::alloc::Global;

/// The key delivery interface of the managers of a site: the names of its nodes, and its applications with the allowed pairs.
#[derive(Drop)]
pub struct Api {
    pub nodes: Texts,
    pub entitlements: Entitlements,
    pub(crate) router: Router<Resource>,
    ghost routed: { router ≡ routes },
}

impl Api {
    /// Makes the interface of a site.
    pub fn new(alloc: Global, site: &Site) -> Result<Self, Memory>
        ensures nodes { IfOk result (λ api. api.nodes ≡ site.now.nodes) }
        ensures entitlements { IfOk result (λ api. api.entitlements ≡ site.now.entitlements) }
    {
        let nodes = site.nodes.copy()?;
        let entitlements = site.entitlements.copy()?;
        let router = router(alloc)?;
        Ok(Api {
            nodes,
            entitlements,
            router,
        })
    }
}

// Makes the routes.
fn router(alloc: Global) -> Result<Router<Resource>, Memory>
    ensures { IfOk result (λ router. router ≡ routes) }
{
    let mut router = Router::new(alloc);
    match router.insert("/api/v1/keys/{sae}/status", Resource::Status) {
        Ok(()) => {}
        Err(_) => return Err(Memory),
    }
    match router.insert("/api/v1/keys/{sae}/enc_keys", Resource::EncKeys) {
        Ok(()) => {}
        Err(_) => return Err(Memory),
    }
    match router.insert("/api/v1/keys/{sae}/dec_keys", Resource::DecKeys) {
        Ok(()) => Ok(router),
        Err(_) => Err(Memory),
    }
}
