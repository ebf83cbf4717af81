// How a run reads requests and answers them.
use crate::SiteRequests;
use crate::event_answers::{answer_of, called, refused};
use crate::target::request_in;
use net_model::{Event, Reply};
use qkd_base::{Memory, NodeNo, Octets};
use run_lines::{Answer, Asked, Requests};
use std::alloc::Global;

impl Requests for SiteRequests {
    ghost use Rattle.declared_site.specs.SiteOf.{IsDeclared};
    ghost use Rattle.run_http.specs.Serving.{IsApiOf};
    ghost use Rattle.run_http.specs.Speaking.{IsTextsOf};

    ghost serves = { λ requests d. IsDeclared d × IsApiOf requests.api d };

    ghost speaks = { λ requests http. IsTextsOf requests.api.nodes requests.api.entitlements http };

    fn read(&self, alloc: Global, node: NodeNo, octets: Octets) -> Result<Asked, Memory> {
        match request_in(alloc, octets) {
            Ok(request) => called(alloc, &self.api, node, &request),
            Err(refusal) => {
                let answer = refused(alloc, &refusal)?;
                Ok(Asked::AtOnce(answer))
            }
        }
    }

    fn answer(&self, alloc: Global, event: &Event, reply: &Reply) -> Result<Answer, Memory> {
        let response = self.api.response_of(alloc, event, reply, false)?;
        Ok(answer_of(response))
    }
}
