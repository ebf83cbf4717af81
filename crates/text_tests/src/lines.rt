// A report line, and what it says.
ghost use Rattle.std.specs.Prelude.{◌<◌, ◌^◌, ◌≡◌};

use declared_site::Site;
use qkd_base::{Items, KeyName, Lane, LinkNo, Memory, NameKind, NodeNo, Text, Way};
use report_text::line_text;
use route_table::RouteTable;
use run_types::Item;
use sae_entitlements::Entitlements;
use std::alloc::Global;
use std::process::Abort;

/// The nodes A and B.
pub fn site(alloc: Global) -> Result<Site, Memory> {
    let mut nodes = Items::new(alloc);
    nodes.push(Text::from_string(String::from_str(alloc, "A")?))?;
    nodes.push(Text::from_string(String::from_str(alloc, "B")?))?;
    Ok(Site {
        nodes,
        routes: RouteTable::new(),
        entitlements: Entitlements::new(alloc),
    })
}

/// The node of a number.
pub fn node(number: u8) -> NodeNo
    requires { number < 16 }
    ensures { result ≡ number }
{
    NodeNo::new(number).unwrap()
}

/// The link of a number.
pub fn link(number: u8) -> LinkNo
    requires { number < 32 }
{
    LinkNo::new(number).unwrap()
}

/// A lane of the link of a number.
pub fn lane(number: u8, way: Way) -> Lane
    requires { number < 32 }
{
    Lane {
        link: link(number),
        way,
    }
}

/// The name of a key that node 1 made.
pub fn name(count: u64) -> KeyName
    requires first { 0 < count }
    requires last { count < 2 ^ 48 }
{
    KeyName::new(node(1), NameKind::Key, count).unwrap()
}

fn is_said(alloc: Global, site: &Site, item: &Item, text: &str) -> Result<bool, Memory> {
    let expected = format!(in alloc; "7 {text}\n")?;
    let line = line_text(alloc, 7, item, site)?;
    Ok(line.as_slice() == expected.as_bytes())
}

/// Ends a test where line 7 doesn't say this.
pub fn says(rt: &impl Abort, alloc: Global, site: &Site, item: Item, text: &str) {
    holds(rt, text, is_said(alloc, site, &item, text) == Ok(true));
}

/// Ends a test where one of its cases isn't so, and names the case.
pub fn holds(rt: &impl Abort, case: &str, is_so: bool) {
    assert!(rt; is_so, "{case}");
}
