// The managers that connections ask.
use crate::{Answered, Pass, ServedPost};
use declared_site::Site;
use disk_model::Disk;
use kme_serve::{Managers, Turn};
use net_model::Event;
use qkd_base::NodeNo;
use source_devices::Entropy;
use std::sync::Wait;
use turnstile::Turnstile;

/// The managers of a site, each behind a turnstile, in order of node.
#[derive(Drop)]
pub struct ServedManagers<'a, K: Disk + Drop, E: Entropy + Drop> {
    /// The declared site.
    pub site: &'a Site,
    pub turnstiles: &'a [Turnstile<ServedPost<K, E>>],
}

impl<K: Disk + Drop, E: Entropy + Drop> Managers for ServedManagers<'_, K, E> {
    ghost use Rattle.std.specs.Prelude.{if◌then◌else◌, ◌==◌};
    ghost use Rattle.declared_site.specs.SiteOf.{site_of};
    ghost use Rattle.turnstile.specs.Names.{knows};
    ghost use Rattle.net_serve.specs.Serving.{IsRequestTo, next_place};
    ghost use Rattle.net_serve.specs.Passes.{IsSeated, IsNextPass, calls_by};

    type Pass = Pass<ServedPost<K, E>>;

    ghost fits = { λ m p. IsSeated (λ o. (o.site.value, o.node)) m.site.now m.turnstiles.now p.node p.seat };

    ghost budget = { λ m node p. if p.node == node then (knows p.seat).budget else 0 };

    ghost seen = { λ m node p. next_place (calls_by p.seat) };

    ghost takes = { λ m node event. IsRequestTo (site_of m.site.now) node event };

    ghost answers = { λ m node p turn next. IsNextPass p.node p.seat turn next.node next.seat };

    fn ask<R: Wait>(
        &self,
        rt: &R,
        pass: &mut Pass<ServedPost<K, E>>,
        node: NodeNo,
        event: Event,
    ) -> Turn {
        let at = usize::from(node.get());
        let (place, answered) = self.turnstiles[at].call(rt, &mut pass.seat, event);
        let Answered { event, reply } = answered;
        Turn {
            event,
            place,
            reply,
        }
    }
}
