// Finding the event that a request asks for.
ghost use Rattle.std.specs.Prelude.{◌≡◌, IsErrOf, codes};
ghost use Rattle.std.specs.Option.{option_map};
ghost use Rattle.std.specs.Str.{bytes_eq};
ghost use Rattle.matchit.specs.Router.{RouteOf};
ghost use Rattle.matchit.specs.Seek.{first};
ghost use Rattle.qkd014_api.specs.declared.resource.Resource.{Resource};
ghost use Rattle.qkd014_api.specs.declared.fault.CallFault.TheVariants as faults;
ghost use Rattle.qkd014_api.specs.declared.fault.CallRefusal.TheVariants as refusals;
ghost use Rattle.qkd014_api.specs.Gives.{Gives};
ghost use Rattle.qkd014_api.specs.Resources.{resource_at, route_of, routes};
ghost use Rattle.qkd014_api.specs.Calls.{sae_of, pair_of, event_for, asked, HasParameters, IsCalled, IsAnswered};

use crate::Api;
use crate::dec_keys::{dec_by_body, dec_by_query};
use crate::enc_keys::{enc_by_body, enc_by_query};
use crate::fault::{CallFault, CallRefusal};
use crate::message::error;
use crate::resource::{Resource, path, query, sae_part};
use http_front::{HttpRequest, only_value};
use net_model::Event;
use qkd_base::{Memory, NodeNo, SaeNo};
use std::alloc::Global;
use std::str::from_utf8;

impl Api {
    /// The event that a request to the manager of a node asks for (ETSI GS QKD 014 V1.1.1, section 5).
    pub fn call_of(
        &self,
        alloc: Global,
        node: NodeNo,
        request: &HttpRequest,
    ) -> Result<Event, CallRefusal>
        ensures { IsCalled (asked self.now.entitlements node request.now) request.now.close result }
    {
        match self.ask(alloc, node, request) {
            Ok(event) => Ok(event),
            Err(fault) => Err(refusal(alloc, fault, request.close)),
        }
    }

    // The event that a request asks for, or what is wrong with the request.
    #[tactic(auto, unfolding(crate::specs::Calls::asked))]
    fn ask(&self, alloc: Global, node: NodeNo, request: &HttpRequest) -> Result<Event, CallFault>
        ensures asked { Gives (asked self.now.entitlements node request.now) result }
        ensures memory { IsErrOf result faults.Memory → HasParameters (asked self.now.entitlements node request.now) }
    {
        let path = path(request.target.as_slice());
        let method = request.method.as_slice();
        let resource = self
            .resource(path, method)
            .ok_or(CallFault::UnknownResource)?;
        let caller = only_value(request.fields.as_slice(), b"x-sae-id").ok_or(
            CallFault::MissingCaller,
        )?;
        let other = sae_part(path, resource);
        let pair = self
            .pair(node, resource, caller, other)
            .ok_or(CallFault::NotAllowed)?;
        let posts = is_post(method);
        self.event(alloc, resource, posts, request, pair.0, pair.1)
    }

    // The event that a request to a resource asks for, for a pair that is allowed.
    fn event(
        &self,
        alloc: Global,
        resource: Resource,
        posts: bool,
        request: &HttpRequest,
        master: SaeNo,
        slave: SaeNo,
    ) -> Result<Event, CallFault>
        ensures event { Gives (event_for self.now.entitlements resource posts request.now master slave) result }
        ensures memory { IsErrOf result faults.Memory → HasParameters (event_for self.now.entitlements resource posts request.now master slave) }
    {
        let body = request.body.as_slice();
        match (resource, posts) {
            (Resource::Status, _) => Ok(Event::Status { master, slave }),
            (Resource::EncKeys, false) => {
                enc_by_query(alloc, query(request.target.as_slice()), master, slave)
            }
            (Resource::EncKeys, true) => enc_by_body(
                alloc,
                &self.entitlements,
                body,
                master,
                slave,
            ),
            (Resource::DecKeys, false) => {
                dec_by_query(alloc, query(request.target.as_slice()), master, slave)
            }
            (Resource::DecKeys, true) => dec_by_body(alloc, body, master, slave),
        }
    }

    // The resource of a path, if it serves the method.
    fn resource(&self, path: &[u8], method: &[u8]) -> Option<Resource>
        ensures { result ≡ resource_at path.now method.now }
    {
        let resource = self.route(path)?;
        if resource.serves(method) {
            Some(resource)
        } else {
            None
        }
    }

    // The resource of a path.
    fn route(&self, path: &[u8]) -> Option<Resource>
        ensures { result ≡ route_of path.now }
    {
        match from_utf8(path) {
            Ok(text) => self.route_of_text(text),
            Err(_) => None,
        }
    }

    // The resource of a path that is a text.
    fn route_of_text(&self, path: &str) -> Option<Resource>
        ensures { result ≡ option_map (λ (r : RouteOf Resource). r.value) (first routes path.now) }
    {
        match self.router.at(path) {
            Ok(found) => {
                let resource = found.value;
                Some(*resource)
            }
            Err(_) => None,
        }
    }

    // The application with this ID.
    fn sae(&self, id: &[u8]) -> Option<SaeNo>
        ensures { result ≡ sae_of self.now.entitlements id.now }
    {
        match from_utf8(id) {
            Ok(text) => self.entitlements.find(text),
            Err(_) => None,
        }
    }

    // The master and the slave, if the caller is at home at the node and the pair is allowed.
    fn pair(
        &self,
        node: NodeNo,
        resource: Resource,
        caller: &[u8],
        other: &[u8],
    ) -> Option<(SaeNo, SaeNo)>
        ensures { result ≡ pair_of self.now.entitlements node resource caller.now other.now }
    {
        let caller = self.sae(caller)?;
        let home = self.entitlements.home(caller).ok()?;
        if home != node {
            return None;
        }
        let other = self.sae(other)?;
        let (master, slave) = match resource {
            Resource::Status | Resource::EncKeys => (caller, other),
            Resource::DecKeys => (other, caller),
        };
        self.entitlements.may(master, slave).ok()?;
        Some((master, slave))
    }
}

// Whether a method is POST.
fn is_post(method: &[u8]) -> bool
    ensures { result ≡ bytes_eq method.now (codes "POST") }
{
    method == b"POST".as_slice()
}

// The answer to a request that has a fault.
fn refusal(alloc: Global, fault: CallFault, close: bool) -> CallRefusal
    ensures answer { IsAnswered fault close result }
    ensures memory { fault ≡ faults.Memory → result ≡ refusals.Memory }
{
    match fault {
        CallFault::Memory => CallRefusal::Memory,
        _ => match error(alloc, fault.status(), fault.text(), close) {
            Ok(response) => CallRefusal::Answer(response),
            Err(Memory) => CallRefusal::Memory,
        },
    }
}
