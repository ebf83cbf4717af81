// A site as a scenario declares it.
use qkd_base::{Memory, Replica, Texts};
use route_table::RouteTable;
use sae_entitlements::Entitlements;

/// A declared site: its nodes by name, its links with their ends, and its applications with their homes and their
/// allowed pairs. Nodes, links and applications are numbered from 0 in order of declaration.
#[derive(Drop)]
pub struct Site {
    pub nodes: Texts,
    pub routes: RouteTable,
    pub entitlements: Entitlements,
}

impl Replica for Site {
    fn copy(&self) -> Result<Self, Memory> {
        Ok(Site {
            nodes: self.nodes.copy()?,
            routes: self.routes.copy()?,
            entitlements: self.entitlements.copy()?,
        })
    }
}
