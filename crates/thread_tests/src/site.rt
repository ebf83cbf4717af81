// The site of all connections, and of the lines of scenarios.
use declared_site::Site;
use qkd_base::{Items, Memory, NodeNo, Text};
use qkd014_api::Api;
use route_table::RouteTable;
use sae_entitlements::Entitlements;
use std::alloc::Global;

// Applications and the nodes where they are at home.
const HOMES: &[(&str, u8)] = &[("alice", 0), ("bob", 1)];

const NODES: &[&str] = &["A", "B"];

/// Two nodes, each with an application; alice may have keys for bob.
pub(crate) fn site(alloc: Global) -> Result<Site, Memory> {
    let mut site = Site {
        nodes: Items::new(alloc),
        routes: RouteTable::new(),
        entitlements: Entitlements::new(alloc),
    };
    for (id, home) in HOMES {
        let home = NodeNo::new(*home).ok_or(Memory)?;
        match site.entitlements.add_sae(id, home) {
            Ok(_) => {}
            Err(_) => return Err(Memory),
        }
    }
    if let (Some(master), Some(slave)) = (
        site.entitlements.find("alice"),
        site.entitlements.find("bob"),
    ) {
        site.entitlements.allow(master, slave);
    }
    for name in NODES {
        site.nodes
            .push(Text::from_string(String::from_str(alloc, name)?))?;
    }
    Ok(site)
}

/// Its interface.
pub(crate) fn api(alloc: Global) -> Result<Api, Memory> {
    Api::new(alloc, &site(alloc)?)
}
