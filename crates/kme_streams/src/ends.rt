// Streams that are open at this node, and which applications may use them.
ghost use Rattle.std.specs.Prelude.{◌≡◌, ◌==◌};
ghost use Rattle.net_model.specs.View.{View};
ghost use Rattle.net_model.specs.Streams.{stream_here};
ghost use Rattle.declared_site.specs.SiteOf.{site_of};
ghost use Rattle.stream_core.specs.Kept.{Sees, opened_of};
ghost use Rattle.kme_streams.specs.Calls.{has_open_end, awaits_peer, is_end, end_status};

use crate::stream_steps::me;
use declared_site::Site;
use kme_base::home;
use qkd_base::{KeyName, SaeNo};
use stream_core::{Opened, Streams};

// Whether one of a stream's ends is at this node and isn't closed.
fn has_open_end(site: &Site, kept: &Streams, opened: &Opened) -> bool
    ensures { (v : View) → Sees v kept.now → result ≡ has_open_end (site_of site.now) v opened.now }
{
    let source = kept.has_end(home(site, opened.source), opened.stream, opened.source);
    let peer = kept.has_end(home(site, opened.peer), opened.stream, opened.peer);
    source || peer
}

/// The stream of a name, if this node has an end of it that isn't closed.
pub fn stream_here(site: &Site, kept: &Streams, stream: KeyName) -> Option<Opened>
    ensures { (v : View) → Sees v kept.now → result ≡ opened_of (stream_here (site_of site.now) v stream) }
{
    match kept.opened(stream) {
        None => None,
        Some(opened) => {
            if has_open_end(site, kept, &opened) {
                Some(opened)
            } else {
                None
            }
        }
    }
}

/// Whether an application is at home at this node.
pub fn is_home(site: &Site, kept: &Streams, sae: SaeNo) -> bool
    ensures { (v : View) → Sees v kept.now → result ≡ ((site_of site.now).home sae == v.me) }
{
    home(site, sae) == me(kept)
}

// Whether the peer is at home at this node and hasn't joined the stream.
fn awaits_peer(site: &Site, kept: &Streams, opened: &Opened) -> bool
    ensures { (v : View) → Sees v kept.now → result ≡ awaits_peer (site_of site.now) v opened.now }
{
    let is_unjoined = !kept.has_joined(opened.stream);
    is_home(site, kept, opened.peer) && is_unjoined
}

// Whether the caller is the source or the peer of the stream, and at home at this node.
fn is_end(site: &Site, kept: &Streams, caller: SaeNo, opened: &Opened) -> bool
    ensures { (v : View) → Sees v kept.now → result ≡ is_end (site_of site.now) v caller opened.now }
{
    let at_source = caller == opened.source && is_home(site, kept, opened.source);
    let at_peer = caller == opened.peer && is_home(site, kept, opened.peer);
    at_source || at_peer
}

/// The status that get and close answer if the caller has no end at this node that it may use. `None` if it has one.
pub fn end_status(site: &Site, kept: &Streams, caller: SaeNo, opened: &Opened) -> Option<u8>
    ensures { (v : View) → Sees v kept.now → result ≡ end_status (site_of site.now) v caller opened.now }
{
    if awaits_peer(site, kept, opened) {
        return Some(9);
    }
    if !is_end(site, kept, caller, opened) {
        return Some(8);
    }
    None
}
