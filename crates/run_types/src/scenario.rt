// A whole scenario.
use crate::entry::Entries;
use declared_site::Site;
use qkd_base::Items;

/// A scenario: what it declares, and what it asks for.
#[derive(Drop)]
pub struct Scenario {
    pub site: Site,
    /// The line number of each node's `node` line, counted from 1 over all lines.
    pub node_lines: Items<u32>,
    pub entries: Entries,
}
