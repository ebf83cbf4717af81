// The desk as a machine that answers one request at a time.
ghost use Rattle.declared_site.specs.SiteOf.{site_of};
ghost use Rattle.par_managers.specs.PlanTaking.{MayCall, TookPlanTurn};
ghost use Rattle.world_state.specs.Outside.{outside};

use crate::ends::ends;
use crate::replied::orders;
use crate::{PlanAnswer, PlanAsk, PlanDesk, take_turn};
use disk_model::Disk;
use lane_shares::Shares;
use par_lanes::grant_plan;
use qkd_base::NodeNo;
use source_devices::{Device, Entropy, Wire};
use std::collections::LinkedList;
use turnstile::Machine;
use world_state::State;

impl<'a, K: Disk + Drop, Q: Device + Drop, E: Entropy + Drop, X: Wire + Drop> Machine
    for PlanDesk<'a, K, Q, E, X> {
    type Request = PlanAsk<'a>;

    type Reply = PlanAnswer;

    // In contracts, a `LinkedList` stands for a list.
    type Charter = (State<K, Q, E, X>, NodeNo, LinkedList<Shares>);

    ghost charter = { λ d. (d.opening.value, d.node, d.shares.now) };

    ghost takes = { λ c t. MayCall (outside K.Disk Q.Device E.Entropy X.Wire) c.0 c.1 c.2 t.place t.job.now t.octets t.granted.items };

    ghost turns = { λ d t answer n. TookPlanTurn K.Disk E.Entropy (site_of d.opening.value.site) d.node d.up d.post d.shares.now
        t.place t.job.now t.octets t.granted.items answer.reply answer.granted.items n.up n.post };

    fn turn(&mut self, request: PlanAsk<'a>) -> PlanAnswer {
        let PlanAsk {
            place: _,
            job,
            octets,
            mut granted,
        } = request;
        let up = self.up;
        let reply = take_turn(&mut self.post, job, octets, up);
        let ends = ends(self.site, self.node, &self.post, job, &reply);
        let shares = self.shares;
        grant_plan(
            shares,
            &ends[..shares.len()],
            self.issuers.as_mut_slice(),
            granted.as_mut_slice(),
            orders(&reply),
        );
        PlanAnswer { reply, granted }
    }
}
