// The site of two nodes.
ghost use Rattle.std.specs.Prelude.{◌≡◌, ℕ, ◌<◌, ◌==◌, ◌&&◌, [], ◌∷◌, Some, IfOk, length};
ghost use Rattle.route_table.specs.Table.{no_links, with_link, IsTable};
ghost use Rattle.sae_entitlements.specs.Grants.{home_of, is_allowed, HasDistinctIds};
ghost use Rattle.declared_site.specs.SiteOf.{IsDeclared};

use declared_site::Site;
use qkd_base::{LinkNo, Memory, NodeNo, Text, Texts};
use route_table::RouteTable;
use sae_entitlements::Entitlements;
use std::alloc::Global;

/// The node of this number.
pub fn node(number: u8) -> NodeNo
    requires { number < 16 }
    ensures { result ≡ number }
{
    NodeNo::new(number).unwrap()
}

fn link(number: u8) -> LinkNo
    requires { number < 32 }
    ensures { result ≡ number }
{
    LinkNo::new(number).unwrap()
}

fn text(alloc: Global, name: &str) -> Result<Text, Memory>
    ensures { IfOk result (λ text. text ≡ name.now) }
{
    Ok(Text::from_string(String::from_str(alloc, name)?))
}

fn nodes(alloc: Global) -> Result<Texts, Memory>
    ensures { IfOk result (λ nodes. nodes ≡ (65 ∷ []) ∷ (66 ∷ []) ∷ []) }
{
    let mut nodes = Texts::new(alloc);
    nodes.push(text(alloc, "A")?)?;
    nodes.push(text(alloc, "B")?)?;
    Ok(nodes)
}

fn links() -> RouteTable
    ensures links { result ≡ with_link no_links 0 0 1 }
    ensures table { IsTable result }
{
    let mut routes = RouteTable::new();
    routes.add_link(link(0), node(0), node(1));
    let _ends = routes.ends(link(0));
    routes
}

fn saes(alloc: Global) -> Result<Entitlements, Memory>
    ensures number { IfOk result (λ all. length all.saes ≡ 2) }
    ensures homes { IfOk result (λ all. (home_of all 0 ≡ Some 0) × (home_of all 1 ≡ Some 1)) }
    ensures distinct { IfOk result (λ all. HasDistinctIds all.saes) }
    ensures pairs { IfOk result (λ all. (m s : ℕ) → is_allowed all m s ≡ ((m == 0) && (s == 1))) }
{
    let mut entitlements = Entitlements::new(alloc);
    let Ok(alice) = entitlements.add_sae("alice", node(0)) else {
        return Err(Memory);
    };
    let Ok(bob) = entitlements.add_sae("bob", node(1)) else {
        return Err(Memory);
    };
    entitlements.allow(alice, bob);
    let _found = entitlements.find("alice");
    Ok(entitlements)
}

/// Nodes A and B with link 0 between them, application 0 at A and application 1 at B. The first may have keys for the second.
pub fn site(alloc: Global) -> Result<Site, Memory>
    ensures { IfOk result IsDeclared }
{
    let nodes = nodes(alloc)?;
    let entitlements = saes(alloc)?;
    let routes = links();
    Ok(Site {
        nodes,
        routes,
        entitlements,
    })
}
