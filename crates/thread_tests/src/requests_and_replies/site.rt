// The site of all tables.
use declared_site::Site;
use qkd_base::{Items, Memory, NodeNo, Text};
use qkd014_api::Api;
use route_table::RouteTable;
use sae_entitlements::Entitlements;
use std::alloc::Global;

// Applications and the nodes where they are at home.
const HOMES: &[(&str, u8)] = &[
    ("alice", 0),
    ("bob", 1),
    ("carol", 2),
    ("dave", 2),
    ("erin", 2),
    ("frank", 2),
    ("grace", 2),
];

const SLAVES: &[&str] = &["bob", "carol"];

const NODES: &[&str] = &["A", "B", "C"];

// Alice may have keys for bob and carol.
fn entitlements(alloc: Global) -> Result<Entitlements, Memory> {
    let mut entitlements = Entitlements::new(alloc);
    for (id, home) in HOMES {
        let home = NodeNo::new(*home).ok_or(Memory)?;
        match entitlements.add_sae(id, home) {
            Ok(_) => {}
            Err(_) => return Err(Memory),
        }
    }
    for slave in SLAVES {
        if let (Some(master), Some(slave)) = (
            entitlements.find("alice"),
            entitlements.find(slave),
        ) {
            entitlements.allow(master, slave);
        }
    }
    Ok(entitlements)
}

/// The interface of three nodes and their applications.
pub(super) fn api(alloc: Global) -> Result<Api, Memory> {
    let mut site = Site {
        nodes: Items::new(alloc),
        routes: RouteTable::new(),
        entitlements: entitlements(alloc)?,
    };
    for name in NODES {
        site.nodes
            .push(Text::from_string(String::from_str(alloc, name)?))?;
    }
    Api::new(alloc, &site)
}
