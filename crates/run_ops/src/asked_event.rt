// Which event a line asks of which manager.
ghost use Rattle.std.specs.Prelude.{◌≡◌, ◌↔◌, IfOk, IfErr, IsOk, IsTrue};
ghost use Rattle.declared_site.specs.declared.site.Site.{Site as SiteValue};
ghost use Rattle.run_ops.specs.Asking.{Asks, makes, hands, looks, asks_an_event};

use crate::asked::{
    Asked, dec, enc, enc_group, feed, fill, fill_group, show, status, stream, tick,
};
use declared_site::Site;
use run_types::Command;

// The event of a line that has keys or chunks made. Any other line is given back.
fn making(site: &Site, command: Command) -> Result<Asked, Command>
    ensures turn { IfOk result (Asks site.now command) }
    ensures back { IfErr result (λ other. other ≡ command) }
    ensures exactly { IsOk result ↔ IsTrue (makes command) }
{
    match command {
        Command::Fill {
            master,
            slave,
            bits,
            count,
        } => Ok(fill(site, master, slave, bits, count)),
        Command::FillGroup {
            master,
            bits,
            count,
            slaves,
        } => Ok(fill_group(site, master, bits, count, slaves)),
        Command::Feed { stream, count } => Ok(feed(stream, count)),
        other => Err(other),
    }
}

// The event of a line in which an application asks for keys or for their number. Any other line is given back.
fn handing(command: Command) -> Result<Asked, Command>
    ensures turn { IfOk result (λ asked. (site : SiteValue) → Asks site command asked) }
    ensures back { IfErr result (λ other. other ≡ command) }
    ensures exactly { IsOk result ↔ IsTrue (hands command) }
{
    match command {
        Command::Enc {
            node,
            master,
            slave,
            count,
            bits,
        } => Ok(enc(node, master, slave, count, bits)),
        Command::EncGroup {
            node,
            master,
            count,
            bits,
            slaves,
        } => Ok(enc_group(node, master, count, bits, slaves)),
        Command::Dec {
            node,
            slave,
            master,
            names,
        } => Ok(dec(node, slave, master, names)),
        Command::Status {
            node,
            master,
            slave,
        } => Ok(status(node, master, slave)),
        other => Err(other),
    }
}

// The event of a line that plans a tick, calls on a stream or shows a key. Any other line is given back.
fn looking(command: Command) -> Result<Asked, Command>
    ensures turn { IfOk result (λ asked. (site : SiteValue) → Asks site command asked) }
    ensures back { IfErr result (λ other. other ≡ command) }
    ensures exactly { IsOk result ↔ IsTrue (looks command) }
{
    match command {
        Command::Tick { node } => Ok(tick(node)),
        Command::Stream { node, call } => Ok(stream(node, call)),
        Command::Show { node, name } => Ok(show(node, name)),
        other => Err(other),
    }
}

/// The event that a line asks of a manager, if it asks for just one. Keys are made at their master's home, chunks at
/// their stream's first node. Any other line is given back.
pub fn asked_by(site: &Site, command: Command) -> Result<Asked, Command>
    ensures turn { IfOk result (Asks site.now command) }
    ensures back { IfErr result (λ other. other ≡ command) }
    ensures exactly { IsOk result ↔ IsTrue (asks_an_event command) }
{
    match making(site, command) {
        Ok(asked) => Ok(asked),
        Err(other) => match handing(other) {
            Ok(asked) => Ok(asked),
            Err(other) => looking(other),
        },
    }
}
