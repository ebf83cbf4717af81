// A manager as a machine that answers one request at a time.
ghost use Rattle.declared_site.specs.SiteOf.{site_of};
ghost use Rattle.net_serve.specs.Serving.{IsRequestTo, TookRequest};

use crate::{Answered, ServedPost};
use declared_site::Site;
use disk_model::Disk;
use net_model::Event;
use qkd_base::NodeNo;
use source_devices::Entropy;
use turnstile::Machine;
use world_state::ask_if_up;

impl<K: Disk + Drop, E: Entropy + Drop> Machine for ServedPost<K, E> {
    type Request = Event;

    type Reply = Answered;

    type Charter = (Site, NodeNo);

    ghost charter = { λ p. (p.site.value, p.node) };

    ghost takes = { λ c event. IsRequestTo (site_of c.0) c.1 event };

    ghost turns = { λ p event answered n. TookRequest K.Disk E.Entropy p.node p.up p.post event (answered.event, answered.reply) n.up n.post };

    fn turn(&mut self, request: Event) -> Answered {
        let reply = ask_if_up(&mut self.post, &request, self.up);
        Answered {
            event: request,
            reply,
        }
    }
}
