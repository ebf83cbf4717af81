// The rules that look at an item and at what its line asks for.
ghost use Rattle.std.specs.Prelude.{◌≡◌};
ghost use Rattle.std.specs.Option.{option_copied};
ghost use Rattle.item_audit.specs.Asked.{nothing_asked, asks, asked_at};

use crate::fill_rules::makes;
use crate::key_rules::hands;
use crate::lengths::has_length;
use crate::line_rules::{names_lane, responds, shows, ticks};
use crate::parts::is_part;
use crate::pass_rules::hears;
use crate::stream_rules::streams;
use declared_site::Site;
use run_types::{Command, Item};

/// Which rules an item keeps, as far as they look at what its line asks for.
#[derive(Clone, Copy)]
pub struct Asked {
    /// Rule 7, of ends of links and lanes.
    pub parts: bool,
    /// Rule 12.
    pub making: bool,
    /// Rule 13.
    pub handing: bool,
    /// Rule 14.
    pub passing: bool,
    /// Rule 19, of lengths.
    pub lengths: bool,
    /// Rule 15.
    pub streaming: bool,
    /// Rule 16.
    pub responding: bool,
    /// Rule 17, of ticks.
    pub ticking: bool,
    /// Rule 18.
    pub showing: bool,
    /// Rule 20.
    pub naming: bool,
}

// What an item keeps if no line asks for anything.
fn nothing_asked() -> Asked
    ensures { result ≡ nothing_asked }
{
    Asked {
        parts: true,
        making: true,
        handing: true,
        passing: true,
        lengths: true,
        streaming: true,
        responding: true,
        ticking: true,
        showing: true,
        naming: true,
    }
}

// Which rules an item of a line keeps.
fn asks(site: &Site, command: &Command, item: &Item) -> Asked
    ensures { result ≡ asks site.now command.now item.now }
{
    Asked {
        parts: is_part(site, command, item),
        making: makes(&site.entitlements, command, item),
        handing: hands(&site.entitlements, command, item),
        passing: hears(command, item),
        lengths: has_length(item),
        streaming: streams(&site.entitlements, command, item),
        responding: responds(command, item),
        ticking: ticks(command, item),
        showing: shows(command, item),
        naming: names_lane(command, item),
    }
}

/// Which rules an item keeps, given what its line asks for, if there is one.
pub fn asked_at(site: &Site, command: &Option<&Command>, item: &Item) -> Asked
    ensures { result ≡ asked_at site.now (option_copied command.now) item.now }
{
    match command {
        Some(command) => asks(site, command, item),
        None => nothing_asked(),
    }
}
