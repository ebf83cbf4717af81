// The last line, which counts the connections.
ghost use Rattle.std.specs.Prelude.{◌≡◌, ◌≤◌, ℕ, Err, length};
ghost use Rattle.run_types.specs.Texts.{served_text};
ghost use Rattle.run_model.specs.Course.{Serve, served_by};
ghost use Rattle.run_model.specs.Headline.{given_to};
ghost use Rattle.run_lines.specs.Reporting.{InLines};
ghost use Rattle.net_serve.specs.Behind.{IsLineTold};
ghost use Rattle.net_serve.specs.Lines.{IsServedLine};
ghost use Rattle.net_serve.specs.BenchServing.{IsBlamed, ended};
ghost use Rattle.net_serve.specs.declared.stop.ServeStop.TheVariants.{Listen};
ghost use Rattle.kme_serve.specs.Endless.{endless};

use crate::ServeStop;
use declared_site::Site;
use edge_io::{Failed, Sink};
use kme_serve::Connections;
use report_text::served_text;
use run_lines::Stop;
use std::alloc::Global;

/// The number of connections if all are served: `workers` times `connections`, or 0 if there is no node.
pub(crate) fn connections_in_all(site: &Site, workers: u32, connections: Connections) -> u64
    requires workers { workers ≤ 32 }
    requires connections { connections ≤ endless }
    ensures { (port : ℕ) → result ≡ served_by (Serve workers connections port) (length site.now.nodes) }
{
    if site.nodes.len() == 0 {
        0
    } else {
        u64::from(workers) * connections.count()
    }
}

/// Writes the number of connections that were served.
pub(crate) fn write_served<W: Sink>(
    alloc: Global,
    count: u64,
    sink: &mut W,
) -> Result<(), ServeStop>
    ensures line { IsLineTold (ended result) (given_to W.taken W.pieces sink.old) (given_to W.taken W.pieces sink.new) (served_text count) }
    ensures calm { result ≡ Err Listen → ⊥ }
    ensures blame { IsBlamed (W.faults sink.old) (W.faults sink.new) result }
    ensures lined { InLines W.taken W.pieces IsServedLine sink.old sink.new result }
{
    let Ok(text) = served_text(alloc, count) else {
        return Err(ServeStop::Stopped(Stop::Memory));
    };
    match sink.write_all(text.as_slice()) {
        Ok(()) => Ok(()),
        Err(Failed) => Err(ServeStop::Stopped(Stop::WriteFault)),
    }
}
